// What the lock asks of the value under it, and of what is done to the value in a turn.
ghost use Rattle.std.specs.Prelude.{◌≡◌, ℕ, ◌+◌, ◌++◌, List, length};
ghost use Rattle.turn_lock.specs.Histories.{AtMostOneBy};

/// A value that stands for a history: an origin, and the entries that were added since, the newest first.
pub trait Booked {
    /// Where a history starts.
    type Origin;

    /// What a step adds to a history.
    type Entry;

    // the number of the pass that an entry is of
    ghost by: { Self.Entry → ℕ };

    // the origin of a value with no entries
    ghost start: { Self → Self.Origin };

    // the count of entries that a history starts with
    ghost first: { Self.Origin → ℕ };

    ghost stands: { Self → Self.Origin → List Self.Entry → Type 0 };

    /// How many entries there are, with those before the origin.
    fn entries(&self) -> u64
        ensures { (origin : Self.Origin) (history : List Self.Entry) → stands self.now origin history → result ≡ first origin + length history };
}

/// What is done to the value in one turn. It adds at most one entry, of the pass whose turn it is.
pub trait Step<T: Booked> {
    /// What it answers.
    type Out;

    // the number of the pass that it is for
    ghost by: { Self → ℕ };

    // what it needs of the value
    ghost can: { Self → T → Type 0 };

    // the value before, the answer and the value after
    ghost does: { Self → T → Self.Out → T → Type 0 };

    // the entries that it added
    ghost adds: { Self → T → Self.Out → T → List T.Entry };

    /// Does it.
    fn run(self, value: &mut T) -> Self::Out
        requires { can self value.old }
        ensures does { does self value.old result value.new }
        ensures adds { AtMostOneBy T.by (by self) (adds self value.old result value.new) }
        ensures stands { (origin : T.Origin) (history : List T.Entry) → T.stands value.old origin history → T.stands value.new origin (adds self value.old result value.new ++ history) };
}
