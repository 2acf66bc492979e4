ghost use Rattle.std.specs.Prelude.{◌≡◌};

/// Why a line is refused.
#[derive(Clone, Copy)]
pub enum Refusal {
    /// A collection waits for its second list, and the line would begin another request.
    Waiting,
    /// No collection waits that could be fed or stopped.
    NotWaiting,
    /// The grace of the collection is not over.
    TooSoon,
    /// The line asks nothing that is known.
    Line,
}

impl Refusal {
    ghost use Rattle.ipam_session.specs.Replies.{refusal_name};

    /// The name of the refusal in a reply: `waiting`, `not waiting`, `too soon` or `line`.
    pub fn name(self) -> &'static str
        ensures { result.now ≡ refusal_name self }
    {
        match self {
            Refusal::Waiting => "waiting",
            Refusal::NotWaiting => "not waiting",
            Refusal::TooSoon => "too soon",
            Refusal::Line => "line",
        }
    }
}
