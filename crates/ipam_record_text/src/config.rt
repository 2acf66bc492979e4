ghost use Rattle.std.specs.Prelude.{◌≡◌, ◌≢◌, Err, IfOk, string_bytes};
ghost use Rattle.serde_json.specs.View.{view};
ghost use Rattle.ipam_record_text.specs.Config.{config_data, config_body, config_in, IsConfigRecord};
ghost use Rattle.ipam_json.specs.Held.{held};

use crate::fault::BodyFault;
use ipam_json::{json_of, number_at, truth_at};
use serde_json::{Value, json};
use std::alloc::{AllocError, Global};

/// How addresses are given out.
#[derive(Clone, Copy)]
pub struct Config {
    /// Whether no address of another node's block is given out.
    pub strict: bool,
    /// Whether a node takes a further block where its own have no room.
    pub auto: bool,
    /// The most blocks of a node, or 0 for no bound.
    pub max_blocks: u32,
}

/// The body of the configuration.
#[tactic(auto, unfolding(crate::specs::Config::config_body, crate::specs::Config::config_data))]
pub fn config_text(alloc: Global, config: &Config) -> Result<String, AllocError>
    ensures { IfOk result (λ s. string_bytes s ≡ config_body config.now) }
{
    let json = config_json(alloc, config)?;
    json.to_string(alloc)
}

#[tactic(auto, unfolding(crate::specs::Config::config_data))]
fn config_json(alloc: Global, config: &Config) -> Result<Value, AllocError>
    ensures { IfOk result (λ v. view v ≡ config_data config.now) }
{
    json!(in alloc; {
        "autoAllocateBlocks": config.auto,
        "maxBlocksPerHost": config.max_blocks,
        "strictAffinity": config.strict
    })
}

/// The configuration whose body this is.
pub fn config_of(alloc: Global, body: &str) -> Result<Config, BodyFault>
    ensures read { IfOk result (λ c. IsConfigRecord c × (body.now ≡ config_body c)) }
    ensures form { result ≡ Err BodyFault.Form
        → (c : Config) → IsConfigRecord c → body.now ≢ config_body c }
    ensures no_table { result ≢ Err BodyFault.Table }
{
    match held_config(alloc, body) {
        Ok(Some(config)) => Ok(config),
        Ok(None) => Err(BodyFault::Form),
        Err(_) => Err(BodyFault::Memory),
    }
}

#[tactic(auto, unfolding(ipam_json::specs::Held::held))]
fn held_config(alloc: Global, body: &str) -> Result<Option<Config>, AllocError>
    ensures { IfOk result (λ held_value. held_value ≡ held config_in config_body body.now) }
{
    let Some(json) = json_of(alloc, body)? else {
        return Ok(None);
    };
    let Some(config) = config_in(&json) else {
        return Ok(None);
    };
    let text = config_text(alloc, &config)?;
    Ok((text.as_str() == body).then_some(config))
}

#[tactic(auto, unfolding(crate::specs::Config::config_in))]
fn config_in(json: &Value) -> Option<Config>
    ensures { result ≡ config_in (view json.now) }
{
    let auto = truth_at(json, "autoAllocateBlocks")?;
    let max_blocks = number_at(json, "maxBlocksPerHost")?;
    let strict = truth_at(json, "strictAffinity")?;
    Some(Config {
        strict,
        auto,
        max_blocks,
    })
}
