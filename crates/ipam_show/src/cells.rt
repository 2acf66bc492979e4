//! The texts of cells.
ghost use Rattle.std.specs.Prelude.{◌≡◌, ◌++◌, ◌*◌, ◌/◌, ◌^◌, [], ◌∷◌, codes, decimal, map, IfOk, IfSome, IsNone, OnOk};
ghost use Rattle.ipam_addr.specs.Text.{cidr_text_of};
ghost use Rattle.ipam_addr.specs.Width.{cidr_size};
ghost use Rattle.ipam_show.specs.Words.{node_word, percent_of, percent_text, state_word};

use ipam_addr::{Cidr, push_cidr};
use ipam_block::State;
use ipam_text::{Seq, Text};
use itoa::Buffer;
use std::alloc::{AllocError, Global};

/// Adds the row of these words.
pub fn add_row(alloc: Global, rows: &mut Vec<Seq<Text>>, words: &[&str]) -> Result<(), AllocError>
    ensures { OnOk result (rows.new.items ≡ rows.old.items ++ map (λ word. word.now) words.now ∷ []) }
{
    rows.push(words_row(alloc, words)?)?;
    Ok(())
}

fn words_row(alloc: Global, words: &[&str]) -> Result<Seq<Text>, AllocError>
    ensures { IfOk result (λ row. row ≡ map (λ word. word.now) words.now) }
{
    let mut cells = Vec::new(alloc);
    for word in words {
        cells.push(Text::copied(alloc, word)?)?;
    }
    Ok(Seq::of(cells))
}

/// The CIDR, as `push_cidr` writes it.
pub fn cidr_cell(alloc: Global, cidr: Cidr) -> Result<Text, AllocError>
    ensures { IfOk result (λ text. text ≡ cidr_text_of cidr) }
{
    let mut text = String::new(alloc);
    push_cidr(alloc, &mut text, cidr)?;
    Ok(Text::of(text))
}

/// How many addresses the CIDR has: 1 to 2^128. None stands for 2^128, which no number type holds.
fn addresses_of(cidr: Cidr) -> Option<u128>
    ensures some { IfSome result (λ number. number ≡ cidr_size cidr) }
    ensures none { IsNone result → cidr_size cidr ≡ 2 ^ 128 }
{
    (cidr.last().number - cidr.base().number).checked_add(1)
}

/// How many addresses the CIDR has, in decimal.
pub fn addresses_cell(alloc: Global, cidr: Cidr) -> Result<Text, AllocError>
    ensures { IfOk result (λ text. text ≡ decimal (cidr_size cidr)) }
{
    match addresses_of(cidr) {
        Some(number) => wide_cell(alloc, number),
        None => cell_before_six(alloc, 34_028_236_692_093_846_346_337_460_743_176_821_145),
    }
}

/// The number in decimal.
pub(crate) fn wide_cell(alloc: Global, number: u128) -> Result<Text, AllocError>
    ensures { IfOk result (λ text. text ≡ decimal number) }
{
    let mut buffer = Buffer::new();
    Text::copied(alloc, buffer.format(number))
}

/// The number in decimal, with a 6 after it.
pub(crate) fn cell_before_six(alloc: Global, number: u128) -> Result<Text, AllocError>
    ensures { IfOk result (λ text. text ≡ decimal number ++ codes "6") }
{
    Ok(Text::of(format!(in alloc; "{number}6")?))
}

/// How many of a hundred addresses are used, rounded down.
fn percent_of(used: u64, cidr: Cidr) -> u128
    ensures { result ≡ percent_of used (cidr_size cidr) }
{
    let hundredfold = u128::from(used) * 100;
    match addresses_of(cidr) {
        Some(number) => hundredfold / number,
        None => 0,
    }
}

pub(crate) fn percent_cell(alloc: Global, used: u64, cidr: Cidr) -> Result<Text, AllocError>
    ensures { IfOk result (λ text. text ≡ percent_text used (cidr_size cidr)) }
{
    let percent = percent_of(used, cidr);
    Ok(Text::of(format!(in alloc; "{percent}%")?))
}

/// The node, or `-`.
pub(crate) fn node_word(node: &Option<Text>) -> &str
    ensures { result.now ≡ node_word node.now }
{
    match node {
        Some(name) => name.as_str(),
        None => "-",
    }
}

/// The state's name, or `-`.
pub fn state_word(state: &Option<State>) -> &str
    ensures { result.now ≡ state_word state.now }
{
    match state {
        Some(state) => state.name(),
        None => "-",
    }
}
