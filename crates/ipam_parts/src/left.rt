ghost use Rattle.std.specs.Prelude.{◌≡◌};
ghost use Rattle.ipam_model.specs.Step.{all_left as every_try, lost_so_far};
ghost use Rattle.ipam_parts.specs.Tries.{less_a_race, less_a_claim};

use ipam_model::{CLAIMS_MAX, LOST_RACES_MAX, Left, Stop};

/// What a request begins with.
pub fn all_left() -> Left
    ensures { result ≡ every_try }
{
    Left {
        races: LOST_RACES_MAX - 1,
        claims: CLAIMS_MAX - 1,
    }
}

/// What is left after a lost race, or that it was the last.
pub fn after_lost(left: Left) -> Result<Left, Stop>
    ensures { result ≡ less_a_race left }
{
    match left.races.checked_sub(1) {
        Some(races) => Ok(Left { races, ..left }),
        None => Err(Stop::OutOfTries),
    }
}

/// What is left after a confirmed claim, or that it was the last.
pub fn after_claim(left: Left) -> Result<Left, Stop>
    ensures { result ≡ less_a_claim left }
{
    match left.claims.checked_sub(1) {
        Some(claims) => Ok(Left { claims, ..left }),
        None => Err(Stop::OutOfClaims),
    }
}

/// How many races were lost.
pub fn lost_so_far(left: Left) -> u32
    ensures { result ≡ lost_so_far left }
{
    all_left().races.saturating_sub(left.races)
}
