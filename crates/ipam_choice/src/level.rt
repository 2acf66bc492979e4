ghost use Rattle.std.specs.Prelude.{◌≡◌, ◌==◌};
ghost use Rattle.ipam_model.specs.Choice.{rank_number};
ghost use Rattle.ipam_choice.specs.Picked.{rank_as};
ghost use Rattle.ipam_choice.specs.Level.{level_number};

use crate::picked::Rank;

/// The ranks, by the order in which they are looked at.
#[derive(Clone, Copy, PartialEq, Eq)]
pub(crate) enum Level {
    Own,
    Unconfirmed,
    Unclaimed,
    Foreign,
}

impl Level {
    /// Whether the rank is of this level.
    pub(crate) fn has(self, rank: &Rank) -> bool
        ensures { result ≡ (rank_number (rank_as rank.now) == level_number self) }
    {
        match rank {
            Rank::Own(_, _) => self == Level::Own,
            Rank::Unconfirmed(_) => self == Level::Unconfirmed,
            Rank::Unclaimed(_) => self == Level::Unclaimed,
            Rank::Foreign(_, _) => self == Level::Foreign,
        }
    }
}
