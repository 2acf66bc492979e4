//! What a table of rows does.
ghost use Rattle.std.specs.Prelude.{◌≡◌, Option, IfOk, OnOk, OnErr};
ghost use Rattle.std.specs.Option.{option_map};
ghost use Rattle.ipam_keeper.specs.Rows.{Ascend, row_with, rows_with, rows_without};
ghost use Rattle.ipam_keeper.specs.Keeping.{IsTold};
ghost use Rattle.ipam_table.specs.TableState.{TableState, rows_of, after_look, after_begin, after_change, after_commit, IsKeptOrTakenBack, FailsToChange, FailsToCommit, IsSeen, IsSeenIfAlone, IsAlone, IsGivenUp};

use crate::fault::TableFault;
use ipam_keeper::Row;

/// A table of rows, one for each key, in files of a database. Each call but the looks and `let_go` is one statement.
///
/// What puts something into the files may be asked only where the files were found in place, and nothing was written
/// since.
pub trait Table {
    /// Why a call fails.
    type Cause: Copy;

    /// What is so of the table, where it tells it.
    ghost state: { Self → Option TableState };

    /// The cause where changes are lost because a statement found no memory.
    fn no_memory() -> Self::Cause;

    /// All rows, by ascending bytes of their keys.
    fn load(&mut self) -> Result<Vec<Row>, TableFault<Self::Cause>>
        ensures ascending { IfOk result (λ loaded. Ascend loaded.items) }
        ensures told { IfOk result (λ loaded. IsTold (rows_of (state self.old)) loaded.items) }
        ensures kept { OnOk result (state self.new ≡ state self.old) }
        ensures failed { OnErr result (IsKeptOrTakenBack (state self.old) (state self.new)) };

    /// Puts in a row, in place of the one of its key if there is one.
    fn put(&mut self, key: &str, revision: u64, body: &str) -> Result<(), TableFault<Self::Cause>>
        requires { IsSeenIfAlone (state self.old) }
        ensures done { OnOk result
            (state self.new ≡ option_map (after_change (rows_with (row_with key.now revision body.now))) (state self.old)) }
        ensures failed { FailsToChange (rows_with (row_with key.now revision body.now)) result (state self.old) (state self.new) };

    /// Takes out the row of a key, if there is one.
    fn remove(&mut self, key: &str) -> Result<(), TableFault<Self::Cause>>
        requires { IsSeenIfAlone (state self.old) }
        ensures done { OnOk result
            (state self.new ≡ option_map (after_change (rows_without key.now)) (state self.old)) }
        ensures failed { FailsToChange (rows_without key.now) result (state self.old) (state self.new) };

    /// Whether no transaction is under way.
    fn is_alone(&self) -> bool
        ensures { IsAlone (state self.now) result };

    /// Begins a transaction: what follows is in no file before it is committed.
    fn begin(&mut self) -> Result<(), TableFault<Self::Cause>>
        ensures done { OnOk result (state self.new ≡ option_map after_begin (state self.old)) }
        ensures failed { OnErr result (state self.new ≡ state self.old) };

    /// Puts the changes of the transaction into the files.
    fn commit(&mut self) -> Result<(), TableFault<Self::Cause>>
        requires { IsSeen (state self.old) }
        ensures done { OnOk result (state self.new ≡ option_map after_commit (state self.old)) }
        ensures failed { FailsToCommit result (state self.old) (state self.new) };

    /// Looks whether the files are in place. What was put into them before is sure only then.
    fn look(&mut self) -> Result<(), Self::Cause>
        ensures done { OnOk result (state self.new ≡ option_map after_look (state self.old)) }
        ensures failed { OnErr result (state self.new ≡ state self.old) };

    /// Gives up the transaction and the files. Each later call fails.
    fn let_go(&mut self)
        ensures { IsGivenUp (state self.old) (state self.new) };
}
