//! Members that stand in a request's object only where they are not what a request has without them.
ghost use Rattle.std.specs.Prelude.{◌≡◌, OnOk};
ghost use Rattle.serde_json.specs.View.{members_view};
ghost use Rattle.ipam_request_text.specs.Members.{where_true, where_false, where_some_number, where_some_texts, where_some_pairs, where_manual, where_selective, where_scope};

use crate::parts::{pairs_value, texts_value};
use ipam_json::two_members;
use ipam_pool::Mode;
use ipam_select::{NodeSelector, push_selector};
use ipam_text::Text;
use serde_json::{Map, Value, put};
use std::alloc::{AllocError, Global};

/// Puts `true` under the name, where it is that.
pub(crate) fn put_true(
    alloc: Global,
    members: &mut Map<String, Value>,
    name: &str,
    truth: bool,
) -> Result<(), AllocError>
    ensures { OnOk result (members_view members.new.entries
        ≡ where_true truth name.now (members_view members.old.entries)) }
{
    if truth {
        put(members, alloc, name, Value::from(true))
    } else {
        Ok(())
    }
}

/// Puts `false` under the name, where it is that.
pub(crate) fn put_false(
    alloc: Global,
    members: &mut Map<String, Value>,
    name: &str,
    truth: bool,
) -> Result<(), AllocError>
    ensures { OnOk result (members_view members.new.entries
        ≡ where_false truth name.now (members_view members.old.entries)) }
{
    if truth {
        Ok(())
    } else {
        put(members, alloc, name, Value::from(false))
    }
}

/// Puts the number under the name, unless it is 0.
pub(crate) fn put_number(
    alloc: Global,
    members: &mut Map<String, Value>,
    name: &str,
    number: u64,
) -> Result<(), AllocError>
    ensures { OnOk result (members_view members.new.entries
        ≡ where_some_number number name.now (members_view members.old.entries)) }
{
    if number == 0 {
        return Ok(());
    }
    put(members, alloc, name, Value::from(number))
}

/// Puts the texts under the name, where there are some.
pub(crate) fn put_texts(
    alloc: Global,
    members: &mut Map<String, Value>,
    name: &str,
    texts: &[Text],
) -> Result<(), AllocError>
    ensures { OnOk result (members_view members.new.entries
        ≡ where_some_texts texts.now name.now (members_view members.old.entries)) }
{
    if texts.is_empty() {
        return Ok(());
    }
    let value = texts_value(alloc, texts)?;
    put(members, alloc, name, value)
}

/// Puts the pairs under the name, where there are some.
pub(crate) fn put_pairs(
    alloc: Global,
    members: &mut Map<String, Value>,
    name: &str,
    pairs: &[(Text, Text)],
) -> Result<(), AllocError>
    ensures { OnOk result (members_view members.new.entries
        ≡ where_some_pairs pairs.now name.now (members_view members.old.entries)) }
{
    if pairs.is_empty() {
        return Ok(());
    }
    let value = pairs_value(alloc, pairs)?;
    put(members, alloc, name, value)
}

/// Puts the mode, where it is manual.
pub(crate) fn put_mode(
    alloc: Global,
    members: &mut Map<String, Value>,
    mode: Mode,
) -> Result<(), AllocError>
    ensures { OnOk result (members_view members.new.entries
        ≡ where_manual mode (members_view members.old.entries)) }
{
    match mode {
        Mode::Automatic => Ok(()),
        Mode::Manual => {
            let name = Value::try_from_str(alloc, "Manual")?;
            put(members, alloc, "mode", name)
        }
    }
}

/// Puts the selector, where it is not the one for all nodes.
pub(crate) fn put_selector(
    alloc: Global,
    members: &mut Map<String, Value>,
    selector: &NodeSelector,
) -> Result<(), AllocError>
    ensures { OnOk result (members_view members.new.entries
        ≡ where_selective selector.now (members_view members.old.entries)) }
{
    if selector.is_all() {
        return Ok(());
    }
    let mut text = String::new(alloc);
    push_selector(&mut text, selector.selector())?;
    put(members, alloc, "selector", Value::String(text))
}

/// Puts the scope, where there is one.
pub(crate) fn put_scope(
    alloc: Global,
    members: &mut Map<String, Value>,
    scope: &Option<(Text, Text)>,
) -> Result<(), AllocError>
    ensures { OnOk result (members_view members.new.entries
        ≡ where_scope scope.now (members_view members.old.entries)) }
{
    match scope {
        None => Ok(()),
        Some(scope) => {
            let network = Value::try_from_str(alloc, scope.0.as_str())?;
            let node = Value::try_from_str(alloc, scope.1.as_str())?;
            let value = two_members(alloc, "network", network, "node", node)?;
            put(members, alloc, "scope", value)
        }
    }
}
