ghost use Rattle.std.specs.Prelude.{◌≡◌};
ghost use Rattle.ipam_play.specs.Output.{line_refusal_text};

/// Why a line of a script is refused.
#[derive(Clone, Copy)]
pub enum LineRefusal {
    /// It has more than 1,048,576 bytes, or its last byte stands after the first 67,108,864 bytes of
    /// the script.
    Long,
    /// It has none of the forms of a line.
    Unreadable,
    /// A row or a counter that was given before, or that stands after the base.
    Base,
    /// A request runs in the slot.
    Busy,
    /// Nothing runs in the slot.
    Idle,
    /// The slot's collection waits for its second list.
    Waiting,
    /// No collection waits in the slot.
    NotWaiting,
    /// The grace after the first list is not over.
    TooSoon,
    /// There are too many entries.
    Worn,
}

impl LineRefusal {
    /// The word for the line's refusal.
    pub fn text(self) -> &'static str
        ensures { result.now ≡ line_refusal_text self }
    {
        match self {
            LineRefusal::Long => "long",
            LineRefusal::Unreadable => "unreadable",
            LineRefusal::Base => "base",
            LineRefusal::Busy => "busy",
            LineRefusal::Idle => "idle",
            LineRefusal::Waiting => "waiting",
            LineRefusal::NotWaiting => "not waiting",
            LineRefusal::TooSoon => "too soon",
            LineRefusal::Worn => "worn",
        }
    }
}
