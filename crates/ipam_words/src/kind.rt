ghost use Rattle.std.specs.Prelude.{◌≡◌, Some, IfSome};
ghost use Rattle.std.specs.List.{before_first};
ghost use Rattle.ipam_words.specs.Kinds.{is_key_of_kind, is_slash, kind_named, kind_word};

/// A kind of rows, as an operator names it.
#[derive(Clone, Copy)]
pub enum RowKind {
    /// The one row of the configuration.
    Config,
    /// The one row of all pools.
    Pools,
    /// The one row of all reservations.
    Reservations,
    /// The rows of blocks.
    Block,
    /// The rows of affinities.
    Affinity,
    /// The rows of handles.
    Handle,
}

impl RowKind {
    /// The word for the kind.
    #[tactic(auto, unfolding(crate::specs::Kinds::kind_named))]
    pub fn name(self) -> &'static str
        ensures text { result.now ≡ kind_word self }
        ensures reads_back { kind_named (kind_word self) ≡ Some self }
    {
        match self {
            RowKind::Config => "config",
            RowKind::Pools => "pools",
            RowKind::Reservations => "reservations",
            RowKind::Block => "block",
            RowKind::Affinity => "affinity",
            RowKind::Handle => "handle",
        }
    }

    /// The kind of this word. None of a word that is no kind's.
    #[tactic(auto, unfolding(crate::specs::Kinds::kind_named))]
    pub fn of(word: &str) -> Option<RowKind>
        ensures value { result ≡ kind_named word.now }
    {
        match word {
            "config" => Some(RowKind::Config),
            "pools" => Some(RowKind::Pools),
            "reservations" => Some(RowKind::Reservations),
            "block" => Some(RowKind::Block),
            "affinity" => Some(RowKind::Affinity),
            "handle" => Some(RowKind::Handle),
            _ => None,
        }
    }

    /// Whether a row with this key is of the kind: what stands before the key's first slash, or all of
    /// it where it has none, is the kind's word.
    pub fn has(self, key: &str) -> bool
        ensures { result ≡ is_key_of_kind self key.now }
    {
        word_before_slash(key.as_bytes()) == self.name().as_bytes()
    }
}

/// What stands before the first slash, or all where there is none.
fn word_before_slash(key: &[u8]) -> &[u8]
    ensures { result.now ≡ before_first is_slash key.now }
{
    let end = key.iter().position(|&byte| byte == b'/');
    match end {
        Some(slash) => &key[..slash],
        None => key,
    }
}
