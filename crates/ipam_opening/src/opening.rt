ghost use Rattle.std.specs.Prelude.{◌≡◌, ◌+◌, None, IfOk, IfErr, OnOk, map};
ghost use Rattle.ipam_model.specs.Opened.{AreByKey, MayBeOpened, OpensAs, reading_of};
ghost use Rattle.ipam_opening.specs.Given.{IsRead, texts_given};
ghost use Rattle.ipam_opening.specs.Rules.{number_of};
ghost use Rattle.ipam_opening.specs.Told.{IsClearBelow, first_by};
ghost use Rattle.ipam_opening.specs.Opening.{IsFaultOf, texts_with, told};

use crate::fault::OpenFault;
use crate::given::{Given, Reading, read_rows};
use crate::load::load;
use crate::rule::Rule;
use ipam_records::Row;
use ipam_store::Store;
use ipam_text::Text;
use std::alloc::{AllocError, Global};

/// Opens rows, which ascend by the bytes of their keys, each key once, as a datastore whose last
/// write had the revision `counter`.
///
/// Fails with `Refused` where one of the ten rules is broken, with the number of the first of them
/// and, of the keys that break it, the first by its bytes; nothing but want of memory refuses rows
/// that break none.
pub fn open(alloc: Global, rows: &[Row], counter: u64) -> Result<Store, OpenFault>
    requires { AreByKey rows.now }
    ensures opened { IfOk result (λ store. OpensAs (texts_with rows.now counter) store.store) }
    ensures refused { IfErr result (IsFaultOf (texts_with rows.now counter)) }
{
    match read_rows(alloc, rows) {
        Ok(readings) => open_read(alloc, rows, counter, readings),
        Err(_) => Err(OpenFault::Memory),
    }
}

fn open_read(
    alloc: Global,
    rows: &[Row],
    counter: u64,
    readings: Vec<Reading>,
) -> Result<Store, OpenFault>
    requires by_key { AreByKey rows.now }
    requires read { readings.items ≡ map reading_of rows.now }
    ensures opened { IfOk result (λ store. OpensAs (texts_with rows.now counter) store.store) }
    ensures refused { IfErr result (IsFaultOf (texts_with rows.now counter)) }
{
    test(alloc, rows, counter, &readings)?;
    match load(alloc, rows, counter, readings) {
        Ok(store) => Ok(store),
        Err(_) => Err(OpenFault::Memory),
    }
}

/// Whether nothing breaks the rows, and otherwise the first fault.
fn test(alloc: Global, rows: &[Row], counter: u64, readings: &Vec<Reading>) -> Result<(), OpenFault>
    requires by_key { AreByKey rows.now }
    requires read { readings.now.items ≡ map reading_of rows.now }
    ensures ok { OnOk result (MayBeOpened (texts_with rows.now counter)) }
    ensures refused { IfErr result (IsFaultOf (texts_with rows.now counter)) }
{
    let given = Given {
        rows,
        readings: readings.as_slice(),
        counter,
    };
    given.test(alloc)
}

impl Given<'_> {
    /// Whether nothing breaks the rows, and otherwise the first fault.
    pub(crate) fn test(&self, alloc: Global) -> Result<(), OpenFault>
        requires { IsRead self.now }
        ensures ok { OnOk result (IsClearBelow (texts_given self.now) 11) }
        ensures refused { IfErr result (IsFaultOf (texts_given self.now)) }
    {
        self.test_rows(alloc)?;
        self.test_together(alloc)
    }

    // The rules of each row by itself.
    fn test_rows(&self, alloc: Global) -> Result<(), OpenFault>
        requires { IsRead self.now }
        ensures ok { OnOk result (IsClearBelow (texts_given self.now) 6) }
        ensures refused { IfErr result (IsFaultOf (texts_given self.now)) }
    {
        self.test_rule(alloc, Rule::Form)?;
        self.test_rule(alloc, Rule::Key)?;
        self.test_rule(alloc, Rule::Table)?;
        self.test_rule(alloc, Rule::Slot)?;
        self.test_rule(alloc, Rule::Block)
    }

    // The rules of several rows.
    fn test_together(&self, alloc: Global) -> Result<(), OpenFault>
        requires read { IsRead self.now }
        requires clear { IsClearBelow (texts_given self.now) 6 }
        ensures ok { OnOk result (IsClearBelow (texts_given self.now) 11) }
        ensures refused { IfErr result (IsFaultOf (texts_given self.now)) }
    {
        self.test_rule(alloc, Rule::Count)?;
        self.test_rule(alloc, Rule::Node)?;
        self.test_rule(alloc, Rule::Confirmed)?;
        self.test_rule(alloc, Rule::Limits)?;
        self.test_rule(alloc, Rule::Revision)
    }

    fn test_rule(&self, alloc: Global, rule: Rule) -> Result<(), OpenFault>
        requires read { IsRead self.now }
        requires clear { IsClearBelow (texts_given self.now) (number_of rule) }
        ensures ok { OnOk result (IsClearBelow (texts_given self.now) (number_of rule + 1)) }
        ensures refused { IfErr result (IsFaultOf (texts_given self.now)) }
    {
        told(rule, self.first_by(alloc, rule))
    }

    // The key that the rule's fault names, where the rules below are kept.
    fn first_by(&self, alloc: Global, rule: Rule) -> Result<Option<Text>, AllocError>
        requires { IsRead self.now }
        ensures { IfOk result (λ first. first ≡ first_by rule (texts_given self.now)) }
    {
        match rule {
            Rule::Count => self.first_short(alloc),
            Rule::Limits => self.first_excess(),
            Rule::Revision => self.first_revision(alloc),
            _ => self.first_row(alloc, rule),
        }
    }
}

// What the rule comes to, by the first key that was found to break it. Takes no memory.
fn told(rule: Rule, found: Result<Option<Text>, AllocError>) -> Result<(), OpenFault>
    ensures { result ≡ told (number_of rule) found }
{
    match found {
        Ok(Some(about)) => Err(OpenFault::Refused(rule.number(), about)),
        Ok(None) => Ok(()),
        Err(AllocError) => Err(OpenFault::Memory),
    }
}
