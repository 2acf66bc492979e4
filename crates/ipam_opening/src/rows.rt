ghost use Rattle.std.specs.Prelude.{◌≡◌, ◌<◌, ◌&&◌, length, slice_get, Some, IfOk, IfSome, not, option_map, find};
ghost use Rattle.std.specs.Option.{option_copied};
ghost use Rattle.ipam_pool.specs.Slots.{is_slot_of};
ghost use Rattle.ipam_block.specs.Operations.{node_bytes};
ghost use Rattle.std.specs.List.{list_any};
ghost use Rattle.ipam_records.specs.declared.call.Row.{Row as RowText};
ghost use Rattle.ipam_records.specs.declared.key.Key.TheVariants as key;
ghost use Rattle.ipam_records.specs.KeyText.{key_read};
ghost use Rattle.ipam_model.specs.Consistent.{cidr_named};
ghost use Rattle.ipam_model.specs.Opened.{cidr_of_key, readable};
ghost use Rattle.ipam_opening.specs.Given.{IsRead, texts_given};
ghost use Rattle.ipam_opening.specs.Rules.{breaks, found_in, has_fault, is_fault, is_broken_block, is_outside, pools_found, lacks_affinity, is_block_alone, is_confirmed, is_block_with, is_affinity_alone, is_no_revision};
ghost use Rattle.ipam_records.specs.BlockLists.{is_node};

use crate::given::{Given, Reading};
use crate::rule::Rule;
use ipam_addr::Cidr;
use ipam_block::{Affinity, Block, State};
use ipam_pool::PoolTable;
use ipam_records::{Key, LAST_REVISION, Record, Row, TextFault, key_of_text};
use ipam_text::Text;
use std::alloc::{AllocError, Global};

impl Given<'_> {
    /// The key of the first row that breaks the rule.
    pub(crate) fn first_row(&self, alloc: Global, rule: Rule) -> Result<Option<Text>, AllocError>
        requires { IsRead self.now }
        ensures { IfOk result (λ first. first ≡ option_map (λ (row : RowText). row.key)
            (find (breaks rule (texts_given self.now)) self.now.rows.now)) }
    {
        for place in 0..self.rows.len() {
            if self.breaks(alloc, rule, place)? {
                let (row, _) = self.at(place);
                return Ok(Some(row.key.clone()?));
            }
        }
        Ok(None)
    }

    // Whether the row at the place breaks the rule by itself.
    fn breaks(&self, alloc: Global, rule: Rule, place: usize) -> Result<bool, AllocError>
        requires read { IsRead self.now }
        requires within { place < length self.now.rows.now }
        ensures { IfOk result (λ broken. (row : RowText) → slice_get self.now.rows.now place ≡ Some row
            → broken ≡ breaks rule (texts_given self.now) row) }
    {
        let (row, reading) = self.at(place);
        match rule {
            Rule::Form => Ok(has_fault(TextFault::Form, reading)),
            Rule::Key => Ok(has_fault(TextFault::Key, reading)),
            Rule::Table => Ok(has_fault(TextFault::Table, reading)),
            Rule::Slot => self.is_outside(alloc, row),
            Rule::Block => Ok(is_broken_block(row.revision, reading)),
            Rule::Node => self.is_block_alone(alloc, reading),
            Rule::Confirmed => self.is_affinity_alone(alloc, reading),
            Rule::Count | Rule::Limits => Ok(false),
            Rule::Revision => Ok(is_no_revision(self.counter, row.revision)),
        }
    }

    fn is_outside(&self, alloc: Global, row: &Row) -> Result<bool, AllocError>
        requires { IsRead self.now }
        ensures { IfOk result (λ outside. outside
            ≡ is_outside (pools_found (found_in key.Pools (readable self.now.rows.now))) (cidr_of_key (key_read row.now.key))) }
    {
        let named = named_cidr(alloc, &row.key)?;
        let pools = self.find(alloc, &Key::Pools)?;
        Ok(is_outside(pools, named))
    }

    fn is_block_alone(&self, alloc: Global, reading: &Reading) -> Result<bool, AllocError>
        requires { IsRead self.now }
        ensures { IfOk result (λ alone. alone ≡ is_block_alone (readable self.now.rows.now) reading.now) }
    {
        match reading {
            Ok(Record::Block(block)) => self.lacks_affinity(alloc, block),
            _ => Ok(false),
        }
    }

    fn lacks_affinity(&self, alloc: Global, block: &Block) -> Result<bool, AllocError>
        requires { IsRead self.now }
        ensures { IfOk result (λ lacks. lacks
            ≡ lacks_affinity (readable self.now.rows.now) block.now.cidr block.now.node) }
    {
        let Some(node) = block.node() else {
            return Ok(false);
        };
        let key = Key::Affinity(Text::copied(alloc, node)?, block.cidr());
        Ok(self.find(alloc, &key)?.is_none())
    }

    fn is_affinity_alone(&self, alloc: Global, reading: &Reading) -> Result<bool, AllocError>
        requires { IsRead self.now }
        ensures { IfOk result (λ alone. alone ≡ is_affinity_alone (readable self.now.rows.now) reading.now) }
    {
        match reading {
            Ok(Record::Affinity(affinity)) => self.lacks_block(alloc, affinity),
            _ => Ok(false),
        }
    }

    fn lacks_block(&self, alloc: Global, affinity: &Affinity) -> Result<bool, AllocError>
        requires { IsRead self.now }
        ensures { IfOk result (λ lacks. lacks ≡ (is_confirmed affinity.now.state
            && not (is_block_with affinity.now.node (found_in (key.Block affinity.now.cidr) (readable self.now.rows.now))))) }
    {
        let block = self.find(alloc, &Key::Block(affinity.cidr))?;
        Ok(is_confirmed(affinity.state) && !is_block_with(&affinity.node, block))
    }
}

fn has_fault(which: TextFault, reading: &Reading) -> bool
    ensures { result ≡ has_fault which reading.now }
{
    match reading {
        Ok(_) => false,
        Err(broken) => is_fault(which, *broken),
    }
}

fn is_fault(one: TextFault, other: TextFault) -> bool
    ensures { result ≡ is_fault one other }
{
    matches!(
        (one, other),
        (TextFault::Form, TextFault::Form)
            | (TextFault::Key, TextFault::Key)
            | (TextFault::Table, TextFault::Table)
            | (TextFault::Unsound, TextFault::Unsound)
            | (TextFault::Memory, TextFault::Memory)
    )
}

fn is_broken_block(revision: u64, reading: &Reading) -> bool
    ensures { result ≡ is_broken_block revision reading.now }
{
    match reading {
        Ok(Record::Block(block)) => revision <= block.sequence(),
        Ok(_) => false,
        Err(broken) => is_fault(TextFault::Unsound, *broken),
    }
}

/// The CIDR that the text of a key names.
fn named_cidr(alloc: Global, text: &Text) -> Result<Option<Cidr>, AllocError>
    ensures { IfOk result (λ cidr. cidr ≡ cidr_of_key (key_read text.now)) }
{
    match key_of_text(alloc, text.as_bytes())? {
        Some(key) => Ok(cidr_named(&key)),
        None => Ok(None),
    }
}

fn cidr_named(key: &Key) -> Option<Cidr>
    ensures { result ≡ cidr_named key.now }
{
    match key {
        Key::Block(cidr) => Some(*cidr),
        Key::Affinity(_, cidr) => Some(*cidr),
        _ => None,
    }
}

fn is_outside(pools: Option<&Record>, named: Option<Cidr>) -> bool
    ensures { result ≡ is_outside (pools_found (option_copied pools.entry)) named }
{
    match named {
        Some(cidr) => !is_slot_in(pools, cidr),
        None => false,
    }
}

fn is_slot_in(pools: Option<&Record>, cidr: Cidr) -> bool
    ensures { result ≡ list_any (λ p. is_slot_of p cidr) (pools_found (option_copied pools.entry)) }
{
    match pools {
        Some(Record::Pools(table)) => is_slot(table, cidr),
        _ => false,
    }
}

fn is_slot(table: &PoolTable, cidr: Cidr) -> bool
    ensures { result ≡ list_any (λ p. is_slot_of p cidr) table.now }
{
    let _prefix = cidr.prefix();
    let _pools = table.pools();
    table.is_slot(cidr)
}

fn is_confirmed(state: State) -> bool
    ensures { result ≡ is_confirmed state }
{
    matches!(state, State::Confirmed)
}

fn is_block_with(node: &Text, found: Option<&Record>) -> bool
    ensures { result ≡ is_block_with node.now (option_copied found.entry) }
{
    match found {
        Some(Record::Block(block)) => is_node(node, block.node()),
        _ => false,
    }
}

fn is_node(node: &Text, held: Option<&str>) -> bool
    ensures { result ≡ is_node node.now (node_bytes held.entry) }
{
    match held {
        Some(held) => held == node.as_str(),
        None => false,
    }
}

fn is_no_revision(counter: u64, revision: u64) -> bool
    ensures { result ≡ is_no_revision counter revision }
{
    revision == 0 || counter < revision || LAST_REVISION < revision
}
