//! Whether a request can be read of some text.
ghost use Rattle.std.specs.Prelude.{◌≡◌, ◌≤◌, ◌↔◌, ℕ, IsTrue, All, length, map};
ghost use Rattle.std.specs.Ordering.{nat_cmp, is_lt};
ghost use Rattle.std.specs.Cmp.Lexicographic.{slice_cmp};
ghost use Rattle.std.specs.List.{list_all};
ghost use Rattle.std.specs.List.Sorted.{IsStrictlySortedBy};
ghost use Rattle.ipam_addr.specs.Width.{IsAddress, IsCidr};
ghost use Rattle.ipam_record_text.specs.Pools.{IsSoundPool};
ghost use Rattle.ipam_records.specs.Sound.{IsName, IsHandleId, IsPair, AreAttributes, IsReservation};
ghost use Rattle.ipam_request_text.specs.Naming.{WritesCidr};
ghost use Rattle.ipam_request_text.specs.Tests.{is_sound_request};
ghost use Rattle.ipam_model.specs.SoundRequest.{is_key_byte, IsLabel, AreLabels, IsPoolName, ArePoolNames, IsSoundAdd, IsSoundProbe, IsScope, IsSoundCollect, IsSoundChange, IsSoundRequest};

use ipam_addr::{Addr, Cidr, is_handle_id, is_name, read_cidr};
use ipam_block::{Attributes, CHECKED_MAX, KEY_BYTES_MAX, PAIRS_MAX, VALUE_BYTES_MAX};
use ipam_model::{AddRequest, Admin, CollectRequest, ProbeRequest, Request};
use ipam_pool::{MOST_POOLS, Pool, Reservation};
use ipam_select::{LABEL_KEY_BYTES_MAX, LABEL_VALUE_BYTES_MAX, LABELS_MAX};
use ipam_text::Text;

/// Whether the request can be read of some text. Takes no memory.
pub fn is_sound(request: &Request) -> bool
    ensures exact { IsTrue result ↔ IsSoundRequest request.now }
    ensures value { result ≡ is_sound_request request.now }
{
    is_sound_of(request)
}

fn is_sound_of(request: &Request) -> bool
    ensures { IsTrue result ↔ IsSoundRequest request.now }
{
    match request {
        Request::Add(add) => is_sound_add(add) && (add.ipv4 || add.ipv6),
        Request::AddThis(add, address) => is_sound_add(add) && is_address(address),
        Request::Del(id) => is_id(id),
        Request::Check(id, addresses) => is_id(id) && are_addresses(addresses.as_slice()),
        Request::Release(node, cidr) => is_name_text(node) && is_cidr(cidr),
        Request::Collect(collect) => is_sound_collect(collect),
        Request::Admin(change) => is_sound_change(change),
        Request::Probe(probe) => is_sound_probe(probe),
    }
}

fn is_sound_add(add: &AddRequest) -> bool
    ensures { IsTrue result ↔ IsSoundAdd add.now }
{
    is_name_text(&add.node)
        && are_attributes(&add.attributes)
        && are_labels(add.labels.as_slice())
        && are_pool_names(add.pools4.as_slice())
        && are_pool_names(add.pools6.as_slice())
}

fn is_sound_probe(probe: &ProbeRequest) -> bool
    ensures { IsTrue result ↔ IsSoundProbe probe.now }
{
    is_name_text(&probe.node)
        && are_labels(probe.labels.as_slice())
        && are_pool_names(probe.pools4.as_slice())
        && are_pool_names(probe.pools6.as_slice())
        && (probe.ipv4 || probe.ipv6)
}

fn is_sound_collect(collect: &CollectRequest) -> bool
    ensures { IsTrue result ↔ IsSoundCollect collect.now }
{
    let _at = collect.at;
    let _grace = collect.grace;
    are_ids(collect.live.as_slice()) && is_scope(&collect.scope)
}

fn is_scope(scope: &Option<(Text, Text)>) -> bool
    ensures { IsTrue result ↔ IsScope scope.now }
{
    match scope {
        Some(scope) => is_name_text(&scope.0) && is_name_text(&scope.1),
        None => true,
    }
}

fn is_sound_change(change: &Admin) -> bool
    ensures { IsTrue result ↔ IsSoundChange change.now }
{
    match change {
        Admin::Pool(pool) => is_sound_pool(pool),
        Admin::Disable(name, _) => is_name_text(name),
        Admin::Reserve(reservation) => is_sound_reservation(reservation),
        Admin::Unreserve(name) => is_name_text(name),
        Admin::Config(config) => {
            let _most = config.max_blocks;
            true
        }
    }
}

fn is_sound_pool(pool: &Pool) -> bool
    ensures { IsTrue result ↔ IsSoundPool pool.now }
{
    let _size = pool.size;
    is_name_text(&pool.name) && is_cidr(&pool.cidr) && pool.selector.is_sound()
}

fn is_sound_reservation(reservation: &Reservation) -> bool
    ensures { IsTrue result ↔ IsReservation reservation.now }
{
    is_name(reservation.name().as_bytes()) && reservation.cidrs().iter().all(is_cidr)
}

fn is_name_text(text: &Text) -> bool
    ensures { IsTrue result ↔ IsName text.now }
{
    is_name(text.as_bytes())
}

fn is_id(text: &Text) -> bool
    ensures { IsTrue result ↔ IsHandleId text.now }
{
    is_handle_id(text.as_bytes())
}

/// Whether each text is the id of a handle, as in a list of live handles. Takes no memory.
pub fn are_ids(texts: &[Text]) -> bool
    ensures { IsTrue result ↔ All IsHandleId texts.now }
{
    texts.iter().all(is_id)
}

/// Always true: no other address can be made.
fn is_address(address: &Addr) -> bool
    ensures { IsTrue result ↔ IsAddress address.now }
{
    is_address_value(*address)
}

fn is_address_value(address: Addr) -> bool
    ensures { IsTrue result ↔ IsAddress address }
{
    let _number = address.number;
    true
}

/// Always true: no other CIDR can be made.
fn is_cidr(cidr: &Cidr) -> bool
    ensures { IsTrue result ↔ IsCidr cidr.now }
{
    let _prefix = cidr.prefix();
    true
}

fn are_addresses(addresses: &[Addr]) -> bool
    ensures { IsTrue result ↔ (length addresses.now ≤ CHECKED_MAX) × All IsAddress addresses.now }
{
    addresses.len() <= CHECKED_MAX && addresses.iter().all(is_address)
}

fn are_attributes(attributes: &Attributes) -> bool
    ensures { IsTrue result ↔ AreAttributes attributes.now }
{
    let pairs = attributes.secondary.as_slice();
    is_id(&attributes.handle)
        && pairs.len() <= PAIRS_MAX
        && pairs.iter().all(is_pair)
        && ascend(pairs)
}

fn is_pair(pair: &(Text, Text)) -> bool
    ensures { IsTrue result ↔ IsPair pair.now }
{
    let key = pair.0.as_bytes();
    !key.is_empty() && key.len() <= KEY_BYTES_MAX && pair.1.as_bytes().len() <= VALUE_BYTES_MAX
}

fn are_labels(labels: &[(Text, Text)]) -> bool
    ensures { IsTrue result ↔ AreLabels labels.now }
{
    labels.len() <= LABELS_MAX && labels.iter().all(is_label) && ascend(labels)
}

fn is_label(label: &(Text, Text)) -> bool
    ensures { IsTrue result ↔ IsLabel label.now }
{
    let key = label.0.as_bytes();
    !key.is_empty()
        && key.len() <= LABEL_KEY_BYTES_MAX
        && are_label_bytes(key)
        && label.1.as_bytes().len() <= LABEL_VALUE_BYTES_MAX
}

fn are_label_bytes(bytes: &[u8]) -> bool
    ensures { result ≡ list_all is_key_byte bytes.now }
{
    bytes.iter().all(is_label_byte)
}

/// Whether it is a letter, a digit, `_`, `.`, `-` or `/`.
fn is_label_byte(byte: &u8) -> bool
    ensures { result ≡ is_key_byte byte.now }
{
    byte.is_ascii_alphanumeric() || *byte == b'_' || *byte == b'.' || *byte == b'-' || *byte == b'/'
}

fn are_pool_names(names: &[Text]) -> bool
    ensures { IsTrue result ↔ ArePoolNames names.now }
{
    names.len() <= MOST_POOLS && names.iter().all(is_pool_name)
}

fn is_pool_name(name: &Text) -> bool
    ensures { IsTrue result ↔ IsPoolName name.now }
{
    is_name_text(name) || is_cidr_text(name)
}

fn is_cidr_text(text: &Text) -> bool
    ensures { IsTrue result ↔ WritesCidr text.now }
{
    match read_cidr(text.as_bytes()) {
        Ok(_) => true,
        Err(_) => false,
    }
}

/// Whether the keys ascend by their bytes.
fn ascend(pairs: &[(Text, Text)]) -> bool
    ensures { IsTrue result
        ↔ IsStrictlySortedBy (slice_cmp nat_cmp) (map (λ pair. pair.0) pairs.now) }
{
    pairs.is_sorted_by(comes_before)
}

fn comes_before(first: &(Text, Text), second: &(Text, Text)) -> bool
    ensures { result ≡ is_lt (slice_cmp nat_cmp first.now.0 second.now.0) }
{
    first.0 < second.0
}
