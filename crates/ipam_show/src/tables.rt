//! Tables of texts, whose columns stand in line.
ghost use Rattle.std.specs.Prelude.{◌≡◌, ◌++◌, ◌-◌, length, replicate, IfOk, OnOk, string_bytes};
ghost use Rattle.ipam_show.specs.Columns.{cell, cells_from, first_placed, later_placed, line, cell_placed, table_text, wider, widest, widths};

use ipam_text::{Seq, Text};
use std::alloc::{AllocError, Global};

/// The text of the table of these rows, with this many columns. Each column is as wide as its longest
/// text, in bytes. The first one's texts stand at its left end, and the others' at their right ends.
pub fn table_text(alloc: Global, columns: usize, rows: &[Seq<Text>]) -> Result<String, AllocError>
    ensures { IfOk result (λ text. string_bytes text ≡ table_text columns rows.now) }
{
    let widths = widths(alloc, columns, rows)?;
    let mut text = String::new(alloc);
    for row in rows {
        push_line(&mut text, &widths, row)?;
    }
    Ok(text)
}

fn widths(alloc: Global, columns: usize, rows: &[Seq<Text>]) -> Result<Vec<usize>, AllocError>
    ensures { IfOk result (λ found. found.items ≡ widths columns rows.now) }
{
    let mut found = Vec::new(alloc);
    for column in 0..columns {
        found.push(widest(column, rows))?;
    }
    Ok(found)
}

/// The length of the longest cell of the column.
fn widest(column: usize, rows: &[Seq<Text>]) -> usize
    ensures { result ≡ widest column rows.now }
{
    let mut most = 0;
    for row in rows {
        most = wider(most, cell(column, row).len());
    }
    most
}

fn wider(most: usize, length: usize) -> usize
    ensures { result ≡ wider most length }
{
    if most < length { length } else { most }
}

/// The text of this column. Empty where the row is shorter.
fn cell(column: usize, row: &Seq<Text>) -> &str
    ensures { result.now ≡ cell column row.now }
{
    let cells = row.as_slice();
    if column < cells.len() {
        cells[column].as_str()
    } else {
        ""
    }
}

fn push_line(text: &mut String, widths: &[usize], row: &Seq<Text>) -> Result<(), AllocError>
    ensures { OnOk result (string_bytes text.new ≡ string_bytes text.old ++ line widths.now row.now) }
{
    push_cells(text, widths, row)?;
    text.push_str("\n")
}

fn push_cells(text: &mut String, widths: &[usize], row: &Seq<Text>) -> Result<(), AllocError>
    ensures { OnOk result (string_bytes text.new ≡ string_bytes text.old ++ cells_from 0 widths.now row.now) }
{
    for column in 0..widths.len() {
        push_cell(text, column, widths[column], cell(column, row))?;
    }
    Ok(())
}

fn push_cell(text: &mut String, column: usize, width: usize, cell: &str) -> Result<(), AllocError>
    ensures { OnOk result (string_bytes text.new ≡ string_bytes text.old ++ cell_placed column width cell.now) }
{
    if column == 0 {
        push_first(text, width, cell)
    } else {
        push_later(text, width, cell)
    }
}

#[tactic(auto, unfolding(crate::specs::Columns::first_placed))]
fn push_first(text: &mut String, width: usize, cell: &str) -> Result<(), AllocError>
    ensures { OnOk result (string_bytes text.new ≡ string_bytes text.old ++ first_placed width cell.now) }
{
    text.push_str(cell)?;
    push_spaces(text, width.saturating_sub(cell.len()))
}

#[tactic(auto, unfolding(crate::specs::Columns::later_placed))]
fn push_later(text: &mut String, width: usize, cell: &str) -> Result<(), AllocError>
    ensures { OnOk result (string_bytes text.new ≡ string_bytes text.old ++ later_placed width cell.now) }
{
    text.push_str("  ")?;
    push_spaces(text, width.saturating_sub(cell.len()))?;
    text.push_str(cell)
}

fn push_spaces(text: &mut String, count: usize) -> Result<(), AllocError>
    ensures { OnOk result (string_bytes text.new ≡ string_bytes text.old ++ replicate count 32) }
{
    for place in 0..count {
        text.push_str(" ")?;
    }
    Ok(())
}
