//! `show addresses` and `show borrowed`: addresses in use are shown.
ghost use Rattle.std.specs.Prelude.{◌≡◌, [], ◌∷◌, ◌++◌, IfOk, OnOk, string_bytes};
ghost use Rattle.std.specs.Option.{option_copied};
ghost use Rattle.serde_json.specs.Data.{string};
ghost use Rattle.serde_json.specs.Written.{compact_text};
ghost use Rattle.ipam_addr.specs.Text.{address_text};
ghost use Rattle.ipam_words.specs.Views.{chosen_by};
ghost use Rattle.ipam_show.specs.Addresses.{addresses_text, borrowed_head, borrowed_row, columns_of, plain_head, plain_row, use_head, use_row, use_rows, uses_table, value_word};

use crate::addresses_json::uses_json;
use crate::cells::{add_row, cidr_cell, node_word};
use crate::counting::recorded;
use crate::in_use::{InUse, uses_kept};
use crate::tables::table_text;
use ipam_addr::{Addr, is_name, push_addr};
use ipam_store::Store;
use ipam_text::{Seq, Text};
use ipam_words::{Choice, Form};
use serde_json::Value;
use std::alloc::{AllocError, Global};

/// The addresses in use that are chosen, in order of address: in a table, a line each, or as one JSON object on a
/// line of its own. In the table a value that has no name's form stands as JSON, and `-` where none is recorded.
pub fn show_addresses(
    alloc: Global,
    store: &Store,
    chosen: &Choice<'_>,
    form: Form,
) -> Result<String, AllocError>
    ensures { IfOk result (λ text. string_bytes text ≡ addresses_text (chosen_by chosen.now) form store.now.store) }
{
    let uses = uses_kept(alloc, store, chosen)?;
    match form {
        Form::Table => uses_table(alloc, &uses, chosen),
        Form::Json => uses_json(alloc, &uses),
    }
}

#[tactic(auto, unfolding(crate::specs::Addresses::uses_table))]
fn uses_table(alloc: Global, uses: &[InUse], chosen: &Choice<'_>) -> Result<String, AllocError>
    ensures { IfOk result (λ text. string_bytes text ≡ uses_table (chosen_by chosen.now) uses.now) }
{
    let rows = use_rows(alloc, uses, chosen)?;
    table_text(alloc, columns_of(chosen), &rows)
}

/// How many columns a table of these addresses has.
fn columns_of(chosen: &Choice<'_>) -> usize
    ensures { result ≡ columns_of (chosen_by chosen.now) }
{
    match chosen {
        Choice::Borrowed | Choice::BorrowedBy(_) => 5,
        _ => 6,
    }
}

fn use_rows(
    alloc: Global,
    uses: &[InUse],
    chosen: &Choice<'_>,
) -> Result<Vec<Seq<Text>>, AllocError>
    ensures { IfOk result (λ rows. rows.items ≡ use_rows (chosen_by chosen.now) uses.now) }
{
    let mut rows = Vec::new(alloc);
    add_head(alloc, &mut rows, chosen)?;
    for used in uses {
        add_use_row(alloc, &mut rows, used, chosen)?;
    }
    Ok(rows)
}

fn add_head(alloc: Global, rows: &mut Vec<Seq<Text>>, chosen: &Choice<'_>) -> Result<(), AllocError>
    ensures { OnOk result (rows.new.items ≡ rows.old.items ++ use_head (chosen_by chosen.now) ∷ []) }
{
    match chosen {
        Choice::Borrowed | Choice::BorrowedBy(_) => add_borrowed_head(alloc, rows),
        _ => add_plain_head(alloc, rows),
    }
}

fn add_borrowed_head(alloc: Global, rows: &mut Vec<Seq<Text>>) -> Result<(), AllocError>
    ensures { OnOk result (rows.new.items ≡ rows.old.items ++ borrowed_head ∷ []) }
{
    let words = ["ADDRESS", "NODE", "BLOCK", "NODE OF BLOCK", "HANDLE"];
    add_row(alloc, rows, &words)
}

fn add_plain_head(alloc: Global, rows: &mut Vec<Seq<Text>>) -> Result<(), AllocError>
    ensures { OnOk result (rows.new.items ≡ rows.old.items ++ plain_head ∷ []) }
{
    let words = ["ADDRESS", "HANDLE", "NETWORK", "NODE", "NAMESPACE", "POD"];
    add_row(alloc, rows, &words)
}

fn add_use_row(
    alloc: Global,
    rows: &mut Vec<Seq<Text>>,
    used: &InUse,
    chosen: &Choice<'_>,
) -> Result<(), AllocError>
    ensures { OnOk result (rows.new.items ≡ rows.old.items ++ use_row (chosen_by chosen.now) used.now ∷ []) }
{
    match chosen {
        Choice::Borrowed | Choice::BorrowedBy(_) => add_borrowed_row(alloc, rows, used),
        _ => add_plain_row(alloc, rows, used),
    }
}

fn add_plain_row(alloc: Global, rows: &mut Vec<Seq<Text>>, used: &InUse) -> Result<(), AllocError>
    ensures { OnOk result (rows.new.items ≡ rows.old.items ++ plain_row used.now ∷ []) }
{
    let recorded_to = used.attributes.get();
    let address = address_cell(alloc, used.address)?;
    let network = value_cell(alloc, recorded(recorded_to, "network"))?;
    let node = value_cell(alloc, recorded(recorded_to, "node"))?;
    let namespace = value_cell(alloc, recorded(recorded_to, "namespace"))?;
    let pod = value_cell(alloc, recorded(recorded_to, "pod"))?;
    let words = [
        address.as_str(),
        recorded_to.handle.as_str(),
        network.as_str(),
        node.as_str(),
        namespace.as_str(),
        pod.as_str(),
    ];
    add_row(alloc, rows, &words)
}

fn add_borrowed_row(
    alloc: Global,
    rows: &mut Vec<Seq<Text>>,
    used: &InUse,
) -> Result<(), AllocError>
    ensures { OnOk result (rows.new.items ≡ rows.old.items ++ borrowed_row used.now ∷ []) }
{
    let recorded_to = used.attributes.get();
    let address = address_cell(alloc, used.address)?;
    let node = value_cell(alloc, recorded(recorded_to, "node"))?;
    let block = cidr_cell(alloc, used.block)?;
    let words = [
        address.as_str(),
        node.as_str(),
        block.as_str(),
        node_word(&used.block_node),
        recorded_to.handle.as_str(),
    ];
    add_row(alloc, rows, &words)
}

pub(crate) fn address_cell(alloc: Global, address: Addr) -> Result<Text, AllocError>
    ensures { IfOk result (λ text. text ≡ address_text address) }
{
    let mut text = String::new(alloc);
    push_addr(alloc, &mut text, address)?;
    Ok(Text::of(text))
}

/// The value, or `-`. One that has no name's form stands as JSON.
fn value_cell(alloc: Global, value: Option<&str>) -> Result<Text, AllocError>
    ensures { IfOk result (λ text. text ≡ value_word (option_copied value.entry)) }
{
    match value {
        None => Text::copied(alloc, "-"),
        Some(value) if is_name(value.as_bytes()) => Text::copied(alloc, value),
        Some(value) => Ok(Text::of(json_string(alloc, value)?)),
    }
}

fn json_string(alloc: Global, value: &str) -> Result<String, AllocError>
    ensures { IfOk result (λ text. string_bytes text ≡ compact_text (string value.now)) }
{
    let json = Value::try_from_str(alloc, value)?;
    json.to_string(alloc)
}
