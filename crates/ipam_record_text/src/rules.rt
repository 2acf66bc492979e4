//! The mode and the selector of a pool: each stands in the pool's object only where it is not what
//! a pool has without it.
ghost use Rattle.std.specs.Prelude.{◌≡◌, IfOk, OnOk};
ghost use Rattle.serde_json.specs.Data.{string};
ghost use Rattle.serde_json.specs.View.{view, members_view};
ghost use Rattle.ipam_select.specs.Printing.{printed};
ghost use Rattle.ipam_record_text.specs.Rules.{mode_fields, selector_fields, with_fields, mode_kept, mode_kept_in, selector_of, node_selector_in};

use ipam_json::text_at;
use ipam_pool::Mode;
use ipam_select::{NodeSelector, SelectFault, Selector, push_selector};
use serde_json::{Map, Value, put};
use std::alloc::{AllocError, Global};

/// Puts the mode among the members, where it is manual.
pub(crate) fn put_mode(
    alloc: Global,
    members: &mut Map<String, Value>,
    mode: Mode,
) -> Result<(), AllocError>
    ensures { OnOk result (members_view members.new.entries
        ≡ with_fields (mode_fields mode) (members_view members.old.entries)) }
{
    match mode {
        Mode::Automatic => Ok(()),
        Mode::Manual => {
            let name = Value::try_from_str(alloc, "Manual")?;
            put(members, alloc, "assignmentMode", name)
        }
    }
}

/// Puts the selector among the members, where it is not the one for all nodes.
pub(crate) fn put_selector(
    alloc: Global,
    members: &mut Map<String, Value>,
    selector: &NodeSelector,
) -> Result<(), AllocError>
    ensures { OnOk result (members_view members.new.entries
        ≡ with_fields (selector_fields selector.now) (members_view members.old.entries)) }
{
    if selector.is_all() {
        return Ok(());
    }
    let text = selector_json(alloc, selector)?;
    put(members, alloc, "nodeSelector", text)
}

fn selector_json(alloc: Global, selector: &NodeSelector) -> Result<Value, AllocError>
    ensures { IfOk result (λ v. view v ≡ string (printed selector.now)) }
{
    let mut text = String::new(alloc);
    push_selector(&mut text, selector.selector())?;
    Ok(Value::String(text))
}

/// The mode that the object holds.
pub(crate) fn mode_in(json: &Value) -> Mode
    ensures { result ≡ mode_kept_in (view json.now) }
{
    match text_at(json, "assignmentMode") {
        Some(text) => mode_of(text),
        None => Mode::Automatic,
    }
}

fn mode_of(text: &str) -> Mode
    ensures { result ≡ mode_kept text.now }
{
    if text == "Manual" {
        Mode::Manual
    } else {
        Mode::Automatic
    }
}

/// The selector that the object holds, where its text is read as one.
pub(crate) fn selector_in(alloc: Global, json: &Value) -> Result<Option<NodeSelector>, AllocError>
    ensures { IfOk result (λ found. found ≡ node_selector_in (view json.now)) }
{
    match text_at(json, "nodeSelector") {
        Some(text) => selector_of(alloc, text),
        None => Ok(Some(NodeSelector::all(alloc))),
    }
}

/// The selector whose text it is.
pub fn selector_of(alloc: Global, text: &str) -> Result<Option<NodeSelector>, AllocError>
    ensures { IfOk result (λ found. found ≡ selector_of text.now) }
{
    match Selector::read(alloc, text.as_bytes()) {
        Ok(selector) => Ok(Some(NodeSelector::new(alloc, selector))),
        Err(SelectFault::Form) => Ok(None),
        Err(SelectFault::Long) => Ok(None),
        Err(SelectFault::Memory) => Err(AllocError),
    }
}
