//! The version in which an error is written.
ghost use Rattle.std.specs.Prelude.{◌≡◌, IfOk};
ghost use Rattle.serde_json.specs.View.{view};
ghost use Rattle.cni_types.specs.Looking.{told_version};
ghost use Rattle.ipam_call.specs.Versions.{version_for};

use cni_types::{Version, input_text};
use ipam_json::{json_of, text_at};
use serde_json::Value;
use std::alloc::{AllocError, Global};

/// The version in which an error is written that comes of this standard input: the configuration's where
/// it is an object with a supported one, else 1.0.0.
#[tactic(auto, unfolding(crate::specs::Versions::version_for))]
pub fn version_for(alloc: Global, input: &[u8]) -> Result<Version, AllocError>
    ensures { IfOk result (λ version. version ≡ version_for input.now) }
{
    let Some(text) = input_text(input) else {
        return Ok(Version::V1_0_0);
    };
    match json_of(alloc, text)? {
        Some(json) => Ok(told_version(&json)),
        None => Ok(Version::V1_0_0),
    }
}

fn told_version(json: &Value) -> Version
    ensures { result ≡ told_version (view json.now) }
{
    let text = text_at(json, "cniVersion").unwrap_or("");
    Version::of(text).unwrap_or(Version::V1_0_0)
}
