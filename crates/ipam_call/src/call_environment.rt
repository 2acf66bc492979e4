//! The environment of a CNI call.
ghost use Rattle.std.specs.Prelude.{◌≡◌, ◌++◌, IfOk, OnOk};
ghost use Rattle.ipam_call.specs.declared.variable.Variable.{Variable as Called};
ghost use Rattle.ipam_call.specs.CallVariables.{call_pairs, pair_of, seen, variable_name, value_looked_at};
ghost use Rattle.ipam_call.specs.Values.{last_value};

use crate::values::{last_value, text_of};
use crate::variable::Variable;
use ipam_text::{Seq, Text};
use std::alloc::{AllocError, Global};

/// What a CNI call takes of the environment's entries: those of its five variables that are there, each with
/// its value. Of entries of one name the last counts. A call sees a variable that isn't there as an empty one.
///
/// A value that is no text is seen as one that each test of its variable refuses.
pub fn call_variables(alloc: Global, entries: &[Seq<u8>]) -> Result<Vec<(Text, Text)>, AllocError>
    ensures pairs { IfOk result (λ pairs. pairs.items ≡ call_pairs entries.now) }
    ensures seen { IfOk result (λ pairs. (v : Called) → value_looked_at v pairs.items ≡ seen v (last_value (variable_name v) entries.now)) }
{
    let mut pairs = Vec::new(alloc);
    push_value(alloc, &mut pairs, entries, Variable::Command)?;
    push_value(alloc, &mut pairs, entries, Variable::ContainerId)?;
    push_value(alloc, &mut pairs, entries, Variable::Netns)?;
    push_value(alloc, &mut pairs, entries, Variable::Ifname)?;
    push_value(alloc, &mut pairs, entries, Variable::Args)?;
    Ok(pairs)
}

/// Appends the variable with its value, where it is there.
fn push_value(
    alloc: Global,
    pairs: &mut Vec<(Text, Text)>,
    entries: &[Seq<u8>],
    variable: Variable,
) -> Result<(), AllocError>
    ensures { OnOk result (pairs.new.items ≡ pairs.old.items ++ pair_of variable entries.now) }
{
    let Some(bytes) = last_value(entries, variable.name()) else {
        return Ok(());
    };
    let name = Text::copied(alloc, variable.name())?;
    let value = Text::copied(alloc, text_of(bytes).unwrap_or(variable.stand_in()))?;
    pairs.push((name, value))?;
    Ok(())
}
