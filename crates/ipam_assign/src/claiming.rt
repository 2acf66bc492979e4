ghost use Rattle.std.specs.Prelude.{◌≡◌};
ghost use Rattle.ipam_records.specs.Word.{Ends};
ghost use Rattle.ipam_model.specs.Assigning.{after_claim as follows_claim};
ghost use Rattle.ipam_assign.specs.Claiming.{outcome_in};

use ipam_model::{ClaimAnswer, Left, Outcome, Stop};
use ipam_parts::{after_claim, after_lost};

/// What a claim came to, for the request that made it.
pub fn claimed(left: Left, answer: ClaimAnswer) -> Outcome<()>
    ensures { follows_claim left answer ≡ Ends result }
{
    match answer {
        ClaimAnswer::Confirmed => went_or_stopped(left, after_claim(left)),
        ClaimAnswer::Lost => went_or_stopped(left, after_lost(left)),
        ClaimAnswer::Full => Outcome::Stops(left, Stop::NoRoom),
        ClaimAnswer::Spent => Outcome::Stops(left, Stop::NoRevisions),
    }
}

fn went_or_stopped(before: Left, left: Result<Left, Stop>) -> Outcome<()>
    ensures { result ≡ outcome_in before left }
{
    match left {
        Ok(now) => Outcome::Went(now, ()),
        Err(why) => Outcome::Stops(before, why),
    }
}
