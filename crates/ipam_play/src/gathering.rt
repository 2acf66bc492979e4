//! The base of a script is gathered.
ghost use Rattle.std.specs.Prelude.{◌≡◌, ◌↔◌, ◌⊎◌, ◌∷◌, IfOk, IfErr, OnOk, OnErr, Err, true, false, is_some};
ghost use Rattle.std.specs.BTreeMap.{get};
ghost use Rattle.std.specs.List.Sorted.{IsPermutation};
ghost use Rattle.ipam_model.specs.Opened.{AreByKey};
ghost use Rattle.ipam_keeper.specs.Rows.{text_cmp};
ghost use Rattle.ipam_play.specs.Gathering.{row_gathered};
ghost use Rattle.ipam_play.specs.Script.{Gathered, rows_have_key, with_base_row, with_counter};

use crate::fault::PlayFault;
use ipam_records::Row;
use ipam_text::Text;
use std::alloc::{AllocError, Global};
use std::collections::BTreeMap;

/// Where the counter of a base is from.
#[derive(Clone, Copy)]
pub(crate) enum Counter {
    /// It is the greatest revision, or 0.
    Greatest,
    /// It was given.
    Given,
}

/// What a row has beside its key.
#[derive(Drop)]
pub(crate) struct Content {
    revision: u64,
    body: Text,
}

/// The base as far as its lines were read. The rows stand by their keys, since a script may give
/// them in any order.
#[derive(Drop)]
pub(crate) struct Gathering {
    pub(crate) rows: BTreeMap<Text, Content>,
    pub(crate) counter: u64,
    pub(crate) from: Counter,
}

impl Gathering {
    ghost use Rattle.ipam_play.specs.Gathering.{Gathers, raised, rows_gathered};

    /// The rows, by ascending key.
    pub(crate) fn listed(&self, alloc: Global) -> Result<Vec<Row>, AllocError>
        ensures rows { IfOk result (λ rows. rows.items ≡ rows_gathered self.now.rows) }
        ensures by_key { IfOk result (λ rows. AreByKey (rows_gathered self.now.rows)) }
    {
        let mut rows = Vec::with_capacity(alloc, self.rows.len())?;
        for (key, content) in &self.rows {
            rows.push(copied(alloc, key, content)?)?;
        }
        Ok(rows)
    }

    /// One row more, unless one of its key was given before. On `Err` nothing changes.
    pub(crate) fn add(&mut self, alloc: Global, row: &Row) -> Result<(), PlayFault>
        ensures again { (gathered : Gathered) → Gathers self.old gathered → ((result ≡ Err PlayFault.Base)
            ↔ (rows_have_key row.now.key gathered.rows ≡ true)) }
        ensures added { (gathered : Gathered) → Gathers self.old gathered → OnOk result
            (Gathers self.new (with_base_row row.now gathered)) }
        ensures unchanged { (gathered : Gathered) → Gathers self.old gathered → OnErr result
            (Gathers self.new gathered) }
        ensures told { IfErr result (λ why. (why ≡ PlayFault.Base) ⊎ (why ≡ PlayFault.Memory)) }
    {
        if self.rows.contains_key(&row.key) {
            return Err(PlayFault::Base);
        }
        match self.insert(alloc, row) {
            Ok(()) => Ok(()),
            Err(_) => Err(PlayFault::Memory),
        }
    }

    /// The counter, once. Where it was given before nothing changes.
    pub(crate) fn set_counter(&mut self, counter: u64) -> Result<(), PlayFault>
        ensures again { (gathered : Gathered) → Gathers self.old gathered → OnErr result
            (is_some gathered.counter ≡ true × result ≡ Err PlayFault.Base × Gathers self.new gathered) }
        ensures set { (gathered : Gathered) → Gathers self.old gathered → OnOk result
            (is_some gathered.counter ≡ false × Gathers self.new (with_counter counter gathered)) }
        ensures told { IfErr result (λ why. why ≡ PlayFault.Base) }
    {
        match self.from {
            Counter::Given => Err(PlayFault::Base),
            Counter::Greatest => {
                self.counter = counter;
                self.from = Counter::Given;
                Ok(())
            }
        }
    }

    /// Puts the row where it goes. On `Err` nothing changes.
    fn insert(&mut self, alloc: Global, row: &Row) -> Result<(), AllocError>
        requires { is_some (get text_cmp self.old.rows row.now.key) ≡ false }
        ensures rows { OnOk result
            (IsPermutation (row.now ∷ rows_gathered self.old.rows) (rows_gathered self.new.rows)) }
        ensures counter { OnOk result
            (self.new.counter ≡ raised self.old.from self.old.counter row.now.revision) }
        ensures from { self.new.from ≡ self.old.from }
        ensures rows_kept { OnErr result (rows_gathered self.new.rows ≡ rows_gathered self.old.rows) }
        ensures counter_kept { OnErr result (self.new.counter ≡ self.old.counter) }
    {
        let key = Text::copied(alloc, row.key.as_str())?;
        let content = Content {
            revision: row.revision,
            body: Text::copied(alloc, row.body.as_str())?,
        };
        self.rows.insert(key, content)?;
        self.counter = self.from.raised(self.counter, row.revision);
        Ok(())
    }
}

impl Counter {
    ghost use Rattle.ipam_play.specs.Gathering.{raised};

    /// The counter after a row of this revision.
    fn raised(self, counter: u64, revision: u64) -> u64
        ensures { result ≡ raised self counter revision }
    {
        match self {
            Counter::Greatest if counter < revision => revision,
            _ => counter,
        }
    }
}

fn copied(alloc: Global, key: &Text, content: &Content) -> Result<Row, AllocError>
    ensures { IfOk result (λ row. row ≡ row_gathered (key.now, content.now)) }
{
    Ok(Row {
        key: Text::copied(alloc, key.as_str())?,
        revision: content.revision,
        body: Text::copied(alloc, content.body.as_str())?,
    })
}
