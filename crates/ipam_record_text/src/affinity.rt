ghost use Rattle.std.specs.Prelude.{◌≡◌, ◌≢◌, Err, Some, IfOk, option_map, string_bytes};
ghost use Rattle.serde_json.specs.View.{view};
ghost use Rattle.ipam_record_text.specs.Affinity.{affinity_data, affinity_body, affinity_in, state_at, IsAffinityRecord};
ghost use Rattle.ipam_json.specs.Held.{held};

use crate::blocks::{block_at, cidr_text, name_at};
use crate::fault::BodyFault;
use ipam_addr::Cidr;
use ipam_block::{Affinity, State};
use ipam_json::{json_of, text_at};
use ipam_text::Text;
use serde_json::{Value, json};
use std::alloc::{AllocError, Global};

/// The body of the affinity.
#[tactic(auto, unfolding(crate::specs::Affinity::affinity_body, crate::specs::Affinity::affinity_data))]
pub fn affinity_text(alloc: Global, affinity: &Affinity) -> Result<String, AllocError>
    ensures { IfOk result (λ s. string_bytes s ≡ affinity_body affinity.now) }
{
    let json = affinity_json(alloc, affinity)?;
    json.to_string(alloc)
}

#[tactic(auto, unfolding(crate::specs::Affinity::affinity_data))]
fn affinity_json(alloc: Global, affinity: &Affinity) -> Result<Value, AllocError>
    ensures { IfOk result (λ v. view v ≡ affinity_data affinity.now) }
{
    let cidr = cidr_text(alloc, affinity.cidr)?;
    let node = affinity.node.as_str();
    let state = affinity.state.name();
    json!(in alloc; {"cidr": cidr, "node": node, "state": state})
}

/// The affinity whose body this is.
pub fn affinity_of(alloc: Global, body: &str) -> Result<Affinity, BodyFault>
    ensures read { IfOk result (λ a. IsAffinityRecord a × (body.now ≡ affinity_body a)) }
    ensures form { result ≡ Err BodyFault.Form
        → (a : Affinity) → IsAffinityRecord a → body.now ≢ affinity_body a }
    ensures no_table { result ≢ Err BodyFault.Table }
{
    match held_affinity(alloc, body) {
        Ok(Some(affinity)) => Ok(affinity),
        Ok(None) => Err(BodyFault::Form),
        Err(_) => Err(BodyFault::Memory),
    }
}

#[tactic(auto, unfolding(ipam_json::specs::Held::held))]
fn held_affinity(alloc: Global, body: &str) -> Result<Option<Affinity>, AllocError>
    ensures { IfOk result (λ held_value. held_value ≡ held affinity_in affinity_body body.now) }
{
    let Some(json) = json_of(alloc, body)? else {
        return Ok(None);
    };
    let Some(affinity) = affinity_in(alloc, &json)? else {
        return Ok(None);
    };
    let text = affinity_text(alloc, &affinity)?;
    Ok((text.as_str() == body).then_some(affinity))
}

fn affinity_in(alloc: Global, json: &Value) -> Result<Option<Affinity>, AllocError>
    ensures { IfOk result (λ found. found ≡ affinity_in (view json.now)) }
{
    let Some((node, cidr, state)) = parts_in(json) else {
        return Ok(None);
    };
    let node = Text::copied(alloc, node)?;
    Ok(Some(Affinity { node, cidr, state }))
}

#[tactic(auto, unfolding(crate::specs::Affinity::affinity_in))]
fn parts_in(json: &Value) -> Option<(&str, Cidr, State)>
    ensures { option_map (λ p. record { node = p.0.now; cidr = p.1; state = p.2 }) result
        ≡ affinity_in (view json.now) }
{
    let cidr = block_at(json, "cidr")?;
    let node = name_at(json, "node")?;
    let state = state_at(json, "state")?;
    Some((node, cidr, state))
}

fn state_at(json: &Value, name: &str) -> Option<State>
    ensures { result ≡ state_at name.now (view json.now) }
{
    let state = text_at(json, name)?;
    State::of(state.as_bytes())
}
