ghost use Rattle.std.specs.Prelude.{◌≡◌, ◌≢◌, Ok, Err, IfOk, IfErr, string_bytes};
ghost use Rattle.ipam_addr.specs.Shape.{CidrValue};
ghost use Rattle.ipam_addr.specs.Width.{IsCidr};
ghost use Rattle.ipam_block_text.specs.Reading.{block_reading};
ghost use Rattle.ipam_record_text.specs.Config.{config_reading};
ghost use Rattle.ipam_record_text.specs.Pools.{pools_reading};
ghost use Rattle.ipam_record_text.specs.Reservations.{reservations_reading};
ghost use Rattle.ipam_record_text.specs.Affinity.{affinity_reading};
ghost use Rattle.ipam_record_text.specs.Handle.{handle_reading};
ghost use Rattle.ipam_records.specs.declared.record.Record.TheVariants as record_of;
ghost use Rattle.ipam_records.specs.Body.{body_of};
ghost use Rattle.ipam_records.specs.Key.{key_of};
ghost use Rattle.ipam_records.specs.KeyRef.{owned_key, key_ref_bytes};
ghost use Rattle.ipam_records.specs.KeyText.{IsKey, key_bytes};
ghost use Rattle.ipam_records.specs.RecordReading.{fault_of_body, unsound_fault, fault_of_block, if_key, keyed, keyed_block, reading_of_kind, record_reading};
ghost use Rattle.ipam_records.specs.Sound.{IsRecord};

use crate::fault::TextFault;
use crate::key_ref::KeyRef;
use crate::record::Record;
use crate::spelling::read_key;
use ipam_addr::Cidr;
use ipam_block_text::{BodyFault as BlockFault, block_of, block_text};
use ipam_record_text::{
    BodyFault, affinity_of, affinity_text, config_of, config_text, handle_of, handle_text,
    pools_of, pools_text, reservations_of, reservations_text,
};
use std::alloc::{AllocError, Global};

/// The body of the record: its one text.
pub fn to_text(alloc: Global, value: &Record) -> Result<String, AllocError>
    ensures { IfOk result (λ text. string_bytes text ≡ body_of value.now) }
{
    match value {
        Record::Config(config) => config_text(alloc, config),
        Record::Pools(pools) => pools_text(alloc, pools),
        Record::Reservations(reservations) => reservations_text(alloc, reservations.as_slice()),
        Record::Block(block) => block_text(alloc, block),
        Record::Affinity(affinity) => affinity_text(alloc, affinity),
        Record::Handle(handle) => handle_text(alloc, handle),
    }
}

/// The record whose key has this text and whose body this is.
///
/// Fails with `Form` where the first is no key's text, or where the body has not the form of the
/// kind that the key names, as that of a record of another kind; else with `Key` where the body
/// says another key, be it a sound record's or not; else with `Table` where the pools do not make
/// a table, and with `Unsound` where the block is not sound.
pub fn from_text(alloc: Global, key: &str, body: &str) -> Result<Record, TextFault>
    ensures sound { IfOk result IsRecord }
    ensures texts { IfOk result
        (λ found. (key_bytes (key_of found) ≡ key.now) × (body.now ≡ body_of found)) }

    // Which fault comes. What each means, and that each sound record is read, stands in `laws`.
    ensures read { IfOk result (λ found. record_reading key.now body.now ≡ Ok found) }
    ensures refused { IfErr result
        (λ e. e ≢ TextFault.Memory → record_reading key.now body.now ≡ Err e) }
{
    read_record(alloc, key, body)
}

#[tactic(auto, unfolding(crate::specs::RecordReading::record_reading))]
fn read_record(alloc: Global, key: &str, body: &str) -> Result<Record, TextFault>
    ensures { result ≢ Err TextFault.Memory → record_reading key.now body.now ≡ result }
{
    match read_key(alloc, key.as_bytes()) {
        Ok(Some(named)) => record_of_kind(alloc, &named, body),
        Ok(None) => Err(TextFault::Form),
        Err(_) => Err(TextFault::Memory),
    }
}

fn record_of_kind(alloc: Global, named: &KeyRef<'_>, body: &str) -> Result<Record, TextFault>
    requires { IsKey (owned_key named.now) }
    ensures { result ≢ Err TextFault.Memory
        → reading_of_kind (owned_key named.now) (key_ref_bytes named.now) body.now ≡ result }
{
    match named {
        KeyRef::Config => config_record(alloc, named, body),
        KeyRef::Pools => pools_record(alloc, named, body),
        KeyRef::Reservations => reservations_record(alloc, named, body),
        KeyRef::Block(_) => block_record(alloc, named, body),
        KeyRef::Affinity(..) => affinity_record(alloc, named, body),
        KeyRef::Handle(_) => handle_record(alloc, named, body),
    }
}

fn config_record(alloc: Global, named: &KeyRef<'_>, body: &str) -> Result<Record, TextFault>
    requires { IsKey (owned_key named.now) }
    ensures { result ≢ Err TextFault.Memory
        → keyed record_of.Config (key_ref_bytes named.now) (config_reading body.now) ≡ result }
{
    match config_of(alloc, body) {
        Ok(config) => if_key(named, Record::Config(config)),
        Err(fault) => Err(fault_of_body(fault)),
    }
}

fn pools_record(alloc: Global, named: &KeyRef<'_>, body: &str) -> Result<Record, TextFault>
    requires { IsKey (owned_key named.now) }
    ensures { result ≢ Err TextFault.Memory
        → keyed record_of.Pools (key_ref_bytes named.now) (pools_reading body.now) ≡ result }
{
    match pools_of(alloc, body) {
        Ok(pools) => if_key(named, Record::Pools(pools)),
        Err(fault) => Err(fault_of_body(fault)),
    }
}

fn reservations_record(alloc: Global, named: &KeyRef<'_>, body: &str) -> Result<Record, TextFault>
    requires { IsKey (owned_key named.now) }
    ensures { result ≢ Err TextFault.Memory
        → keyed record_of.Reservations (key_ref_bytes named.now)
        (reservations_reading body.now) ≡ result }
{
    match reservations_of(alloc, body) {
        Ok(reservations) => if_key(named, Record::Reservations(reservations)),
        Err(fault) => Err(fault_of_body(fault)),
    }
}

fn block_record(alloc: Global, named: &KeyRef<'_>, body: &str) -> Result<Record, TextFault>
    requires { IsKey (owned_key named.now) }
    ensures { result ≢ Err TextFault.Memory
        → keyed_block (key_ref_bytes named.now) (block_reading body.now) ≡ result }
{
    match block_of(alloc, body) {
        Ok(block) => if_key(named, Record::Block(block)),
        Err(fault) => Err(fault_of_block(named, fault)),
    }
}

fn affinity_record(alloc: Global, named: &KeyRef<'_>, body: &str) -> Result<Record, TextFault>
    requires { IsKey (owned_key named.now) }
    ensures { result ≢ Err TextFault.Memory
        → keyed record_of.Affinity (key_ref_bytes named.now) (affinity_reading body.now) ≡ result }
{
    match affinity_of(alloc, body) {
        Ok(affinity) => if_key(named, Record::Affinity(affinity)),
        Err(fault) => Err(fault_of_body(fault)),
    }
}

fn handle_record(alloc: Global, named: &KeyRef<'_>, body: &str) -> Result<Record, TextFault>
    requires { IsKey (owned_key named.now) }
    ensures { result ≢ Err TextFault.Memory
        → keyed record_of.Handle (key_ref_bytes named.now) (handle_reading body.now) ≡ result }
{
    match handle_of(alloc, body) {
        Ok(handle) => if_key(named, Record::Handle(handle)),
        Err(fault) => Err(fault_of_body(fault)),
    }
}

/// The record, where this is its key.
fn if_key(named: &KeyRef<'_>, found: Record) -> Result<Record, TextFault>
    requires named { IsKey (owned_key named.now) }
    requires sound { IsRecord found }
    ensures { result ≡ if_key (key_ref_bytes named.now) found }
{
    if named.is_same(&KeyRef::of_record(&found)) {
        Ok(found)
    } else {
        Err(TextFault::Key)
    }
}

fn fault_of_body(fault: BodyFault) -> TextFault
    ensures { result ≡ fault_of_body fault }
{
    match fault {
        BodyFault::Form => TextFault::Form,
        BodyFault::Table => TextFault::Table,
        BodyFault::Memory => TextFault::Memory,
    }
}

fn fault_of_block(named: &KeyRef<'_>, fault: BlockFault) -> TextFault
    requires named { IsKey (owned_key named.now) }
    requires cidr { (cidr : CidrValue) → fault ≡ BlockFault.Unsound cidr → IsCidr cidr }
    ensures { result ≡ fault_of_block (key_ref_bytes named.now) fault }
{
    match fault {
        BlockFault::Form => TextFault::Form,
        BlockFault::Unsound(cidr) => unsound_fault(named, cidr),
        BlockFault::Memory => TextFault::Memory,
    }
}

/// The fault of an unsound block of this CIDR.
fn unsound_fault(named: &KeyRef<'_>, cidr: Cidr) -> TextFault
    requires named { IsKey (owned_key named.now) }
    requires cidr { IsCidr cidr }
    ensures { result ≡ unsound_fault (key_ref_bytes named.now) cidr }
{
    if named.is_same(&KeyRef::Block(cidr)) {
        TextFault::Unsound
    } else {
        TextFault::Key
    }
}
