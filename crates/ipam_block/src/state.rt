ghost use Rattle.std.specs.Prelude.{◌≡◌, ◌≢◌, Some, IfSome, IfNone};

/// How far a node's claim of a block has come.
#[derive(Clone, Copy, Debug, PartialEq, Eq)]
pub enum State {
    /// The node is about to claim the block.
    Pending,
    /// The block is the node's.
    Confirmed,
    /// The node is about to give the block up.
    PendingDeletion,
}

impl State {
    ghost use Rattle.ipam_block.specs.State.{state_text, state_of};

    /// The word that a record has for the state.
    pub fn name(self) -> &'static str
        ensures text { result.now ≡ state_text self }
        ensures reads_back { state_of (state_text self) ≡ Some self }
    {
        match self {
            State::Pending => "pending",
            State::Confirmed => "confirmed",
            State::PendingDeletion => "pendingDeletion",
        }
    }

    /// The state whose name this is.
    pub fn of(name: &[u8]) -> Option<State>
        ensures value { result ≡ state_of name.now }
        ensures found { IfSome result (λ state. name.now ≡ state_text state) }
        ensures none { IfNone result ((state : State) → name.now ≢ state_text state) }
    {
        [State::Pending, State::Confirmed, State::PendingDeletion]
            .into_iter()
            .find(|state| name == state.name().as_bytes())
    }
}
