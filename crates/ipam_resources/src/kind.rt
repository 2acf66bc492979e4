ghost use Rattle.std.specs.Prelude.{◌≡◌};
ghost use Rattle.ipam_resources.specs.Naming.{resource_kind_text, kind_of, is_list_kind, document_kind_of};

/// The kinds of resources.
#[derive(Clone, Copy)]
pub enum ResourceKind {
    /// `IPPool`
    Pool,
    /// `IPReservation`
    Reservation,
    /// `IPAMConfig`
    Config,
    /// `IPAMConfiguration`, which is read as `IPAMConfig` is.
    Configuration,
}

impl ResourceKind {
    /// The kind as a resource says it.
    pub fn text(self) -> &'static str
        ensures { result.now ≡ resource_kind_text self }
    {
        match self {
            ResourceKind::Pool => "IPPool",
            ResourceKind::Reservation => "IPReservation",
            ResourceKind::Config => "IPAMConfig",
            ResourceKind::Configuration => "IPAMConfiguration",
        }
    }

    #[tactic(auto, unfolding(crate::specs::Naming::kind_of))]
    pub(crate) fn of(text: &str) -> Option<ResourceKind>
        ensures { result ≡ kind_of text.now }
    {
        if text == "IPPool" {
            Some(ResourceKind::Pool)
        } else if text == "IPReservation" {
            Some(ResourceKind::Reservation)
        } else if text == "IPAMConfig" {
            Some(ResourceKind::Config)
        } else if text == "IPAMConfiguration" {
            Some(ResourceKind::Configuration)
        } else {
            None
        }
    }
}

/// What a document holds.
#[derive(Clone, Copy)]
pub(crate) enum DocumentKind {
    /// One resource, which the document itself is.
    One(ResourceKind),
    /// A list of them.
    Several,
}

impl DocumentKind {
    #[tactic(auto, unfolding(crate::specs::Naming::document_kind_of))]
    pub(crate) fn of(text: &str) -> Option<DocumentKind>
        ensures { result ≡ document_kind_of text.now }
    {
        if is_list_kind(text) {
            return Some(DocumentKind::Several);
        }
        match ResourceKind::of(text) {
            Some(kind) => Some(DocumentKind::One(kind)),
            None => None,
        }
    }
}

#[tactic(auto, unfolding(crate::specs::Naming::is_list_kind))]
fn is_list_kind(text: &str) -> bool
    ensures { result ≡ is_list_kind text.now }
{
    text == "List" || text == "IPPoolList" || text == "IPReservationList"
}
