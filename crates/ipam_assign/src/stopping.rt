ghost use Rattle.std.specs.Prelude.{◌≡◌};
ghost use Rattle.ipam_model.specs.Add.{add_stops};
ghost use Rattle.ipam_model.specs.AddThis.{add_this_stops};
ghost use Rattle.ipam_model.specs.Step.{stop_answer, confirmed_so_far, lost_so_far};

use ipam_model::{AddAnswer, AddThisAnswer, CLAIMS_MAX, LOST_RACES_MAX, Left, Stop};

/// How many races were lost.
fn lost_so_far(left: Left) -> u32
    ensures { result ≡ lost_so_far left }
{
    (LOST_RACES_MAX - 1).saturating_sub(left.races)
}

/// How many claims were confirmed.
fn confirmed_so_far(left: Left) -> u32
    ensures { result ≡ confirmed_so_far left }
{
    (CLAIMS_MAX - 1).saturating_sub(left.claims)
}

/// What an ADD is answered that stops so.
pub fn add_stopped(left: Left, why: Stop) -> AddAnswer
    ensures { result ≡ stop_answer add_stops left why }
{
    match why {
        Stop::OutOfTries => AddAnswer::Again(LOST_RACES_MAX, confirmed_so_far(left)),
        Stop::OutOfClaims => AddAnswer::Again(lost_so_far(left), CLAIMS_MAX),
        Stop::NoRoom => AddAnswer::Full,
        Stop::CountAtLimit(moment) => AddAnswer::CountFull(moment),
        Stop::NoRevisions => AddAnswer::Spent,
    }
}

/// What an ADD of one address is answered that stops so.
pub fn add_this_stopped(left: Left, why: Stop) -> AddThisAnswer
    ensures { result ≡ stop_answer add_this_stops left why }
{
    match why {
        Stop::OutOfTries => AddThisAnswer::Again(LOST_RACES_MAX, confirmed_so_far(left)),
        Stop::OutOfClaims => AddThisAnswer::Again(lost_so_far(left), CLAIMS_MAX),
        Stop::NoRoom => AddThisAnswer::Full,
        Stop::CountAtLimit(moment) => AddThisAnswer::CountFull(moment),
        Stop::NoRevisions => AddThisAnswer::Spent,
    }
}
