ghost use Rattle.std.specs.Prelude.{◌≡◌, ◌+◌, Option};

use ipam_model::Left;

/// How many rounds may still follow. Each but the first follows a lost race or a confirmed claim,
/// so there are as many as may be lost or confirmed.
#[derive(Clone, Copy)]
pub struct Rounds {
    more: u64,
}

impl Rounds {
    ghost use Rattle.ipam_assign.specs.Rounds.{fewer};

    /// The rounds that may follow in a request with so much left.
    pub fn of(left: Left) -> Rounds
        ensures { result.more ≡ left.races + left.claims }
    {
        Rounds {
            more: u64::from(left.races) + u64::from(left.claims),
        }
    }

    /// What is left after one more round, or that there is none.
    pub fn next(self) -> Option<Rounds>
        ensures { result ≡ fewer self }
    {
        let more = self.more.checked_sub(1)?;
        Some(Rounds { more })
    }
}
