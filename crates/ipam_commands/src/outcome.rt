ghost use Rattle.std.specs.Prelude.{◌≡◌};
ghost use Rattle.ipam_commands.specs.Changing.{change_line, outcome_status};
ghost use Rattle.ipam_commands.specs.Telling.{IsSaid};

use crate::status::Status;

/// What a request that changes one thing came to.
#[derive(Clone, Copy)]
pub enum ChangeOutcome {
    /// The change was made.
    Made,
    /// What was to be changed is not there.
    Absent,
    /// There is no room for one more record.
    Full,
    /// There are no more revisions.
    Spent,
}

impl ChangeOutcome {
    /// The line that is written, where these two say that the change was made, and that there was nothing to
    /// change.
    pub(crate) fn line(self, made: &'static str, absent: &'static str) -> &'static str
        ensures { result.now ≡ change_line made.now absent.now self }
    {
        match self {
            ChangeOutcome::Made => made,
            ChangeOutcome::Absent => absent,
            ChangeOutcome::Full => "full\n",
            ChangeOutcome::Spent => "spent\n",
        }
    }

    pub(crate) fn status(self) -> Status
        ensures status { result ≡ outcome_status self }
        ensures said { IsSaid result }
    {
        match self {
            ChangeOutcome::Made => Status::Done,
            ChangeOutcome::Absent | ChangeOutcome::Full | ChangeOutcome::Spent => Status::Refused,
        }
    }
}
