//! Rows that a keeper loaded are opened.
ghost use Rattle.std.specs.Prelude.{◌≡◌, List, IfOk, IfErr};
ghost use Rattle.ipam_keeper.specs.Rows.{Ascend};
ghost use Rattle.ipam_shared.specs.Faults.{IsOpening};
ghost use Rattle.ipam_opening.specs.declared.fault.OpenFault.{OpenFault as WhyNot};
ghost use Rattle.ipam_records.specs.declared.call.Row.{Row as RowText};

use crate::kept::KeptFault;
use ipam_cluster::OpenFault;
use ipam_keeper::KeepFault;
use ipam_records::Row;

/// What opens rows.
pub trait Opens {
    /// What they are opened as.
    type Opened;

    /// It may open rows.
    ghost may: { Self → Type 0 };

    /// The rows are opened as this.
    ghost opens: { Self → List RowText → Self.Opened → Type 0 };

    /// They are not opened, for this reason.
    ghost refuses: { Self → List RowText → WhyNot → Type 0 };

    /// Opens the rows.
    fn open(self, rows: Vec<Row>) -> Result<Self::Opened, OpenFault>
        requires may { may self }
        requires ascend { Ascend rows.items }
        ensures opened { IfOk result (opens self rows.items) }
        ensures refused { IfErr result (refuses self rows.items) };
}

/// Opens the rows that were loaded. Where they are not opened, the fault is that of the loading or of the
/// opening, want of memory too: it has no other.
pub fn open_loaded<O: Opens + Drop>(
    opener: O,
    loaded: Result<Vec<Row>, KeepFault>,
) -> Result<O::Opened, KeptFault>
    requires may { O.may opener }
    requires ascend { IfOk loaded (λ rows. Ascend rows.items) }
    ensures { IsOpening (O.opens opener) (O.refuses opener) loaded result }
{
    match loaded {
        Ok(rows) => match opener.open(rows) {
            Ok(opened) => Ok(opened),
            Err(OpenFault::Refused(number, about)) => Err(KeptFault::Refused(number, about)),
            Err(OpenFault::Memory) => Err(KeptFault::Memory),
        },
        Err(KeepFault::Failed) => Err(KeptFault::Keeper),
        Err(KeepFault::Memory) => Err(KeptFault::Memory),
    }
}
