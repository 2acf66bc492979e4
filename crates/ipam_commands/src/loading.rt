//! The rows of a keeper, opened.
ghost use Rattle.std.specs.Prelude.{◌≡◌, Err, IfOk, IfErr, OnOk};
ghost use Rattle.ipam_io.specs.Counts.{Rose};
ghost use Rattle.ipam_keeper.specs.Keeping.{IsTold, OnFailed, UnlessFailed};
ghost use Rattle.ipam_keeper.specs.Rows.{Ascend};
ghost use Rattle.ipam_shared.specs.Faults.{IsWhyNot};
ghost use Rattle.ipam_shared.specs.Rows.{texts_loaded};
ghost use Rattle.ipam_model.specs.Opened.{OpensAs};
ghost use Rattle.ipam_opening.specs.Opening.{IsFaultOf};
ghost use Rattle.ipam_commands.specs.Telling.{AreOpened, IsLoadedAs, IsNotLoaded};

use ipam_keeper::{KeepFault, Keeper};
use ipam_opening::{OpenFault, open};
use ipam_records::Row;
use ipam_shared::{KeptFault, Opens, greatest_revision, open_loaded};
use ipam_store::Store;
use std::alloc::Global;

/// The rows as they were loaded, and the datastore that they open as.
#[derive(Drop)]
pub(crate) struct Loaded {
    pub(crate) rows: Vec<Row>,
    pub(crate) store: Store,
}

/// What takes the memory for opening a keeper's rows by themselves. What is generic over it knows nothing of
/// it, and so can't state by itself that it found none.
pub(crate) trait OpensRows {
    /// It found no memory.
    ghost wants: { Self → Type 0 };

    /// All rows, by ascending bytes of their keys.
    fn load<D: Keeper>(&self, keeper: &mut D) -> Result<Vec<Row>, KeepFault>
        ensures ascending { IfOk result (λ loaded. Ascend loaded.items) }
        ensures told { IfOk result (λ loaded. IsTold (D.rows keeper.old) loaded.items) }
        ensures kept { D.rows keeper.new ≡ D.rows keeper.old }
        ensures fault { OnFailed result (Rose (D.faults keeper.old) (D.faults keeper.new)) }
        ensures no_fault { UnlessFailed result (D.faults keeper.new ≡ D.faults keeper.old) }
        ensures same { D.name keeper.new ≡ D.name keeper.old }
        ensures wants { result ≡ Err KeepFault.Memory → wants self.now };

    /// Opens the rows, with their greatest revision as the counter.
    fn open_rows(&self, rows: &[Row]) -> Result<Store, OpenFault>
        requires { Ascend rows.now }
        ensures opened { IfOk result (λ store. OpensAs (texts_loaded rows.now) store.store) }
        ensures refused { IfErr result (IsFaultOf (texts_loaded rows.now)) }
        ensures wants { IfErr result (λ fault. fault ≡ OpenFault.Memory → wants self.now) };
}

impl OpensRows for Global {
    ghost wants = { λ _. Unit {0} };

    fn load<D: Keeper>(&self, keeper: &mut D) -> Result<Vec<Row>, KeepFault> {
        keeper.load()
    }

    fn open_rows(&self, rows: &[Row]) -> Result<Store, OpenFault> {
        open_rows(*self, rows)
    }
}

/// What opens rows with their greatest revision as the counter.
#[derive(Drop)]
struct Loading<T> {
    alloc: T,
}

impl<T: OpensRows + Drop> Opens for Loading<T> {
    type Opened = Loaded;

    ghost may = { λ _. Unit {0} };

    ghost opens = { λ _ rows loaded. IsLoadedAs rows loaded.rows.items loaded.store.store };

    ghost refuses = { λ loading rows fault. IsWhyNot (T.wants loading.alloc) rows fault };

    fn open(self, rows: Vec<Row>) -> Result<Loaded, OpenFault> {
        match self.alloc.open_rows(&rows) {
            Ok(store) => Ok(Loaded { rows, store }),
            Err(fault) => Err(fault),
        }
    }
}

/// Loads the keeper's rows and opens them. `Memory` is returned only where loading or opening them found none.
pub(crate) fn load<T: OpensRows + Drop, D: Keeper>(
    alloc: T,
    keeper: &mut D,
) -> Result<Loaded, KeptFault>
    ensures opened { IfOk result (λ loaded. AreOpened (D.rows keeper.old) loaded.rows.items loaded.store.store) }
    ensures no_fault { OnOk result (D.faults keeper.new ≡ D.faults keeper.old) }
    ensures refused { IfErr result (IsNotLoaded (D.rows keeper.old) (D.faults keeper.old) (D.faults keeper.new)) }
    ensures want_of_memory_has_its_cause { result ≡ Err KeptFault.Memory → T.wants alloc }
    ensures same_rows { D.rows keeper.new ≡ D.rows keeper.old }
    ensures same { D.name keeper.new ≡ D.name keeper.old }
{
    let loaded = alloc.load(keeper);
    open_loaded(Loading { alloc }, loaded)
}

/// Opens the rows, with their greatest revision as the counter.
fn open_rows(alloc: Global, rows: &[Row]) -> Result<Store, OpenFault>
    requires { Ascend rows.now }
    ensures opened { IfOk result (λ store. OpensAs (texts_loaded rows.now) store.store) }
    ensures refused { IfErr result (IsFaultOf (texts_loaded rows.now)) }
{
    open(alloc, rows, greatest_revision(rows))
}
