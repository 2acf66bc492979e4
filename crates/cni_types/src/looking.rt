//! A call is looked at.
ghost use Rattle.std.specs.Prelude.{◌≡◌, IfOk, option_map};
ghost use Rattle.serde_json.specs.View.{view};
ghost use Rattle.cni_types.specs.declared.error.CniError.{CniError};
ghost use Rattle.cni_types.specs.declared.error.LookFault.TheVariants.{Refused};
ghost use Rattle.cni_types.specs.Looking.{input_text, decoded, known_version_in, told_version, compatible, tested, unknown, code_of, details_of, error_of, look_from, look_reading};
ghost use Rattle.cni_types.specs.Sound.{IsSoundLook};

use crate::asked::asked;
use crate::calls::Look;
use crate::code::Code;
use crate::command::Command;
use crate::configuration::test_configuration;
use crate::environment::{test_environment, value_of};
use crate::error::{CniError, LookFault};
use crate::limits::MOST_INPUT_BYTES;
use crate::members::text_at;
use crate::refusal::{Refusal, Variable, member_string};
use crate::version::Version;
use ipam_json::json_of;
use ipam_text::Text;
use serde_json::{Map, Value};
use std::alloc::{AllocError, Global};

/// What a call asks, of its environment and its standard input. Of several pairs of one name in
/// the environment the last counts.
///
/// What is asked keeps every limit. Fails with the error of the first thing that is bad: the
/// input, the version, the configuration member by member, the environment variable by variable.
pub fn look(alloc: Global, env: &[(Text, Text)], stdin: &[u8]) -> Result<Look, LookFault>
    ensures asked { IfOk result (λ asked. look_reading env.now stdin.now ≡ Ok asked) }
    ensures refused { (error : CniError) → result ≡ Err (Refused error)
        → look_reading env.now stdin.now ≡ Err error }
    ensures sound { IfOk result IsSoundLook }
{
    match look_at(alloc, env, stdin) {
        Ok(Ok(look)) => Ok(look),
        Ok(Err(error)) => Err(LookFault::Refused(error)),
        Err(_) => Err(LookFault::Memory),
    }
}

#[tactic(auto, unfolding(crate::specs::Looking::look_reading))]
fn look_at(
    alloc: Global,
    env: &[(Text, Text)],
    stdin: &[u8],
) -> Result<Result<Look, CniError>, AllocError>
    ensures { IfOk result (λ outcome. outcome ≡ look_reading env.now stdin.now) }
{
    let command = Command::of(value_of(env, Variable::Command));
    match decoded(alloc, command, stdin)? {
        Some(json) => look_for(alloc, command, env, &json),
        None => Ok(Err(CniError {
            version: Version::V1_0_0,
            code: Code::Undecodable,
            details: Text::of(String::new(alloc)),
        })),
    }
}

/// The configuration, where standard input is a JSON object. VERSION needs none.
#[tactic(auto, unfolding(crate::specs::Looking::decoded))]
fn decoded(
    alloc: Global,
    command: Option<Command>,
    stdin: &[u8],
) -> Result<Option<Value>, AllocError>
    ensures { IfOk result (λ found. option_map view found ≡ decoded command stdin.now) }
{
    if stdin.is_empty() && matches!(command, Some(Command::Version)) {
        return Ok(Some(Value::Object(Map::new(alloc))));
    }
    let Some(text) = input_text(stdin) else {
        return Ok(None);
    };
    let Some(value) = json_of(alloc, text)? else {
        return Ok(None);
    };
    if value.as_object().is_some() {
        Ok(Some(value))
    } else {
        Ok(None)
    }
}

/// The text of standard input, where it is not too long and UTF-8.
pub fn input_text(stdin: &[u8]) -> Option<&str>
    ensures { option_map (λ t. t.now) result ≡ input_text stdin.now }
{
    if stdin.len() > MOST_INPUT_BYTES {
        return None;
    }
    match str::from_utf8(stdin) {
        Ok(text) => Some(text),
        Err(_) => None,
    }
}

fn look_for(
    alloc: Global,
    command: Option<Command>,
    env: &[(Text, Text)],
    json: &Value,
) -> Result<Result<Look, CniError>, AllocError>
    ensures { IfOk result (λ outcome. outcome ≡ look_from command env.now (Some (view json.now))) }
{
    let Some(command) = command else {
        return Ok(Err(error_of(alloc, json, unknown(json))?));
    };
    match test(command, env, json) {
        Ok(version) => Ok(Ok(asked(alloc, command, version, env, json)?)),
        Err(refusal) => Ok(Err(error_of(alloc, json, refusal)?)),
    }
}

/// The version in which the call is answered, or the first refusal.
#[tactic(auto, unfolding(crate::specs::Looking::all_tested))]
fn test(command: Command, env: &[(Text, Text)], json: &Value) -> Result<Version, Refusal>
    ensures { result ≡ tested command env.now (view json.now) }
{
    if let Command::Version = command {
        return Ok(told_version(json));
    }
    let version = compatible(command, json)?;
    if let Err(member) = test_configuration(command, json) {
        return Err(Refusal::Configuration(member));
    }
    match test_environment(command, env) {
        Ok(()) => Ok(version),
        Err(variable) => Err(Refusal::Environment(variable)),
    }
}

/// The configuration's version, where it is supported.
fn version_in(json: &Value) -> Option<Version>
    ensures { result ≡ known_version_in (view json.now) }
{
    Version::of(text_at(json, "cniVersion"))
}

/// The version that an answer is written in: the configuration's where it is known, and else
/// 1.0.0.
fn told_version(json: &Value) -> Version
    ensures { result ≡ told_version (view json.now) }
{
    version_in(json).unwrap_or(Version::V1_0_0)
}

/// The configuration's version, where it is supported and has the command.
fn compatible(command: Command, json: &Value) -> Result<Version, Refusal>
    ensures { result ≡ compatible command (view json.now) }
{
    match version_in(json) {
        Some(version) if command.is_in(version) => Ok(version),
        _ => Err(Refusal::Version),
    }
}

/// Why a command that is not known is refused.
fn unknown(json: &Value) -> Refusal
    ensures { result ≡ unknown (view json.now) }
{
    match version_in(json) {
        Some(_) => Refusal::Environment(Variable::Command),
        None => Refusal::Version,
    }
}

fn error_of(alloc: Global, json: &Value, refusal: Refusal) -> Result<CniError, AllocError>
    ensures { IfOk result (λ error. error ≡ error_of (view json.now) refusal) }
{
    let details = details_of(alloc, json, refusal)?;
    Ok(CniError {
        version: told_version(json),
        code: code_of(refusal),
        details,
    })
}

fn code_of(refusal: Refusal) -> Code
    ensures { result ≡ code_of refusal }
{
    match refusal {
        Refusal::Version => Code::IncompatibleVersion,
        Refusal::Configuration(_) => Code::InvalidConfiguration,
        Refusal::Environment(_) => Code::InvalidEnvironment,
    }
}

/// The version as the configuration has it, the member's path or the variable's name.
fn details_of(alloc: Global, json: &Value, refusal: Refusal) -> Result<Text, AllocError>
    ensures { IfOk result (λ details. details ≡ details_of (view json.now) refusal) }
{
    match refusal {
        Refusal::Version => Text::copied(alloc, text_at(json, "cniVersion")),
        Refusal::Configuration(member) => Ok(Text::of(member_string(alloc, member)?)),
        Refusal::Environment(variable) => Text::copied(alloc, variable.name()),
    }
}
