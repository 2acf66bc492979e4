//! `show config`: the configuration that is in force is shown.
ghost use Rattle.std.specs.Prelude.{◌≡◌, [], ◌∷◌, ◌++◌, IfOk, OnOk, string_bytes};
ghost use Rattle.serde_json.specs.View.{view};
ghost use Rattle.serde_json.specs.Written.{compact_text};
ghost use Rattle.ipam_records.specs.Said.{said};
ghost use Rattle.ipam_views.specs.Config.{config_json, config_table, config_text, in_force, in_force_said, set_word, setting_data, setting_row, setting_rows, settings_data, truth_word};

use ipam_records::{Call, Config, Key, Record, Reply};
use ipam_show::{add_row, table_text};
use ipam_store::Store;
use ipam_text::{Seq, Text};
use ipam_words::Form;
use itoa::Buffer;
use serde_json::{Map, Value, put};
use std::alloc::{AllocError, Global};

/// How many columns the table of settings has.
const COLUMNS: usize = 3;

/// The configuration that each request reads.
#[derive(Clone, Copy)]
pub(crate) struct InForce {
    /// Its settings, or the defaults where there is none.
    pub(crate) config: Config,
    /// Whether there is one. It sets all three settings.
    pub(crate) is_set: bool,
}

/// The configuration that is in force, defaults included, and whether it was set: in a table, a line for each setting, or
/// as one JSON object on a line of its own.
pub fn show_config(alloc: Global, store: &Store, form: Form) -> Result<String, AllocError>
    ensures { IfOk result (λ text. string_bytes text ≡ config_text form store.now.store) }
{
    let shown = in_force(store);
    match form {
        Form::Table => config_table(alloc, &shown),
        Form::Json => config_json(alloc, &shown),
    }
}

fn in_force(store: &Store) -> InForce
    ensures { result ≡ in_force store.now.store }
{
    in_force_said(&store.reply(&Call::Get(Key::Config)))
}

fn in_force_said(reply: &Reply<'_>) -> InForce
    ensures { result ≡ in_force_said (said reply.now) }
{
    match reply {
        Reply::Found(_, Record::Config(config)) => InForce {
            config: *config,
            is_set: true,
        },
        _ => InForce {
            config: Config {
                strict: false,
                auto: true,
                max_blocks: 0,
            },
            is_set: false,
        },
    }
}

#[tactic(auto, unfolding(crate::specs::Config::config_table))]
fn config_table(alloc: Global, shown: &InForce) -> Result<String, AllocError>
    ensures { IfOk result (λ text. string_bytes text ≡ config_table shown.now) }
{
    let rows = setting_rows(alloc, shown)?;
    table_text(alloc, COLUMNS, &rows)
}

fn setting_rows(alloc: Global, shown: &InForce) -> Result<Vec<Seq<Text>>, AllocError>
    ensures { IfOk result (λ rows. rows.items ≡ setting_rows shown.now) }
{
    let config = shown.config;
    let mut most = Buffer::new();
    let mut rows = Vec::new(alloc);
    add_row(alloc, &mut rows, &["SETTING", "VALUE", "SET"])?;
    add_setting(
        alloc,
        &mut rows,
        shown,
        "autoAllocateBlocks",
        truth_word(config.auto),
    )?;
    add_setting(
        alloc,
        &mut rows,
        shown,
        "maxBlocksPerHost",
        most.format(config.max_blocks),
    )?;
    add_setting(
        alloc,
        &mut rows,
        shown,
        "strictAffinity",
        truth_word(config.strict),
    )?;
    Ok(rows)
}

fn add_setting<'a>(
    alloc: Global,
    rows: &mut Vec<Seq<Text>>,
    shown: &'a InForce,
    name: &'a str,
    value: &'a str,
) -> Result<(), AllocError>
    ensures { OnOk result (rows.new.items ≡ rows.old.items ++ setting_row shown.now name.now value.now ∷ []) }
{
    let words = [name, value, set_word(shown)];
    add_row(alloc, rows, &words)
}

fn truth_word(truth: bool) -> &'static str
    ensures { result.now ≡ truth_word truth }
{
    if truth { "true" } else { "false" }
}

fn set_word(shown: &InForce) -> &str
    ensures { result.now ≡ set_word shown.now.is_set }
{
    if shown.is_set { "yes" } else { "no" }
}

/// The configuration as one JSON object, on a line of its own.
#[tactic(auto, unfolding(crate::specs::Config::config_json))]
fn config_json(alloc: Global, shown: &InForce) -> Result<String, AllocError>
    ensures { IfOk result (λ text. string_bytes text ≡ config_json shown.now) }
{
    let mut text = config_string(alloc, shown)?;
    text.push_str("\n")?;
    Ok(text)
}

fn config_string(alloc: Global, shown: &InForce) -> Result<String, AllocError>
    ensures { IfOk result (λ text. string_bytes text ≡ compact_text (settings_data shown.now)) }
{
    let json = settings_value(alloc, shown)?;
    json.to_string(alloc)
}

#[tactic(auto, unfolding(crate::specs::Config::settings_data))]
fn settings_value(alloc: Global, shown: &InForce) -> Result<Value, AllocError>
    ensures { IfOk result (λ json. view json ≡ settings_data shown.now) }
{
    let config = shown.config;
    let strict = setting_value(alloc, shown, Value::Bool(config.strict))?;
    let most = setting_value(alloc, shown, Value::from(u64::from(config.max_blocks)))?;
    let auto = setting_value(alloc, shown, Value::Bool(config.auto))?;
    let mut members = Map::new(alloc);
    put(&mut members, alloc, "strictAffinity", strict)?;
    put(&mut members, alloc, "maxBlocksPerHost", most)?;
    put(&mut members, alloc, "autoAllocateBlocks", auto)?;
    Ok(Value::Object(members))
}

#[tactic(auto, unfolding(crate::specs::Config::setting_data))]
fn setting_value(alloc: Global, shown: &InForce, value: Value) -> Result<Value, AllocError>
    ensures { IfOk result (λ json. view json ≡ setting_data shown.now (view value)) }
{
    let mut members = Map::new(alloc);
    put(&mut members, alloc, "value", value)?;
    put(&mut members, alloc, "set", Value::Bool(shown.is_set))?;
    Ok(Value::Object(members))
}
