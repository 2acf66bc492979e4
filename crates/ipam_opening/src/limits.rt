ghost use Rattle.std.specs.Prelude.{◌≡◌, slice_get, IfOk, option_map, find};
ghost use Rattle.std.specs.Option.{option_copied};
ghost use Rattle.ipam_records.specs.declared.call.Row.{Row as RowText};
ghost use Rattle.ipam_records.specs.Datastore.{most_rows, most_blocks};
ghost use Rattle.ipam_opening.specs.Given.{IsRead, texts_given};
ghost use Rattle.ipam_opening.specs.Rules.{breaks};
ghost use Rattle.ipam_opening.specs.declared.rule.Rule.TheVariants.{Revision};
ghost use Rattle.ipam_opening.specs.Earlier.{earlier};
ghost use Rattle.ipam_opening.specs.Limits.{is_block_read, at_block, left_behind, counter_above};

use crate::earlier::earlier;
use crate::given::{Given, Reading};
use crate::rule::Rule;
use ipam_records::{LAST_REVISION, MOST_BLOCKS, MOST_ROWS, Record, Row};
use ipam_text::Text;
use std::alloc::{AllocError, Global};

impl<'a> Given<'a> {
    /// The key of the first row that is one too many, be it of all rows or of the blocks.
    pub(crate) fn first_excess(&self) -> Result<Option<Text>, AllocError>
        requires { IsRead self.now }
        ensures { IfOk result (λ first. first ≡ earlier
            (option_map (λ (row : RowText). row.key) (slice_get self.now.rows.now most_rows))
            (option_map (λ (row : RowText). row.key) (at_block self.now.rows.now most_blocks))) }
    {
        let row = key_of(self.rows.get(MOST_ROWS))?;
        let block = key_of(self.excess_block())?;
        Ok(earlier(row, block))
    }

    // The first of the blocks that is one too many.
    fn excess_block(&self) -> Option<&'a Row>
        requires { IsRead self.now }
        ensures { option_copied result
            ≡ at_block self.now.rows.now most_blocks }
    {
        let mut left = MOST_BLOCKS;
        for place in 0..self.rows.len() {
            let (row, reading) = self.at(place);
            match left_behind(is_block_read(reading), left) {
                Some(less) => left = less,
                None => return Some(row),
            }
        }
        None
    }

    /// The first key that breaks the rule of revisions: that of a row whose revision is 0, above
    /// the counter or above the last one, or `counter` where this is above the last one.
    pub(crate) fn first_revision(&self, alloc: Global) -> Result<Option<Text>, AllocError>
        requires { IsRead self.now }
        ensures { IfOk result (λ first. first ≡ earlier
            (option_map (λ (row : RowText). row.key)
            (find (breaks Revision (texts_given self.now)) self.now.rows.now))
            (counter_above self.now.counter)) }
    {
        let row = self.first_row(alloc, Rule::Revision)?;
        let counter = counter_above(alloc, self.counter)?;
        Ok(earlier(row, counter))
    }
}

fn counter_above(alloc: Global, counter: u64) -> Result<Option<Text>, AllocError>
    ensures { IfOk result (λ text. text ≡ counter_above counter) }
{
    if LAST_REVISION < counter {
        Ok(Some(Text::copied(alloc, "counter")?))
    } else {
        Ok(None)
    }
}

/// How many blocks come first after a row. None where it is a block, and none comes first.
fn left_behind(is_block: bool, left: usize) -> Option<usize>
    ensures { result ≡ left_behind is_block left }
{
    if !is_block {
        return Some(left);
    }
    left.checked_sub(1)
}

fn is_block_read(reading: &Reading) -> bool
    ensures { result ≡ is_block_read reading.now }
{
    matches!(reading, Ok(Record::Block(_)))
}

fn key_of(row: Option<&Row>) -> Result<Option<Text>, AllocError>
    ensures { IfOk result (λ key. key ≡ option_map (λ (row : RowText). row.key) (option_copied row.entry)) }
{
    match row {
        Some(row) => Ok(Some(row.key.clone()?)),
        None => Ok(None),
    }
}
