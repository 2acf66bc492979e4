//! A call begins a request.
ghost use Rattle.std.specs.Prelude.{◌≡◌, ◌||◌, IsTrue, IfOk, Some};
ghost use Rattle.std.specs.List.{All};
ghost use Rattle.ipam_addr.specs.Width.{IsAddress};
ghost use Rattle.ipam_model.specs.SoundRequest.{IsSoundRequest, IsSoundAdd};
ghost use Rattle.cni_types.specs.Sound.{IsSoundLook, IsSoundCheck, IsSoundAdd as IsSoundCall};
ghost use Rattle.cni_types.specs.Texts.{versions_text};
ghost use Rattle.cni_asks.specs.declared.asks.Ask.TheVariants.{Begin};
ghost use Rattle.ipam_model.specs.declared.request.Request.TheVariants.{Check};
ghost use Rattle.cni_asks.specs.Asking.{is_neither_gc_nor_status, add_of, wanting, ask_of, IsSoundAsk};

use crate::asks::Ask;
use cni_types::{CniAdd, CniCheck, Look, Version, push_versions};
use ipam_addr::Addr;
use ipam_block::Attributes;
use ipam_model::{AddRequest, Request};
use ipam_text::Text;
use std::alloc::{AllocError, Global};

/// What a call begins that is neither GC nor STATUS: the request with the version of its answer,
/// or, for VERSION, nothing but a text.
///
/// Of a call that `look` has given the request is sound.
pub fn ask(alloc: Global, look: Look) -> Result<Ask, AllocError>
    requires neither_gc_nor_status { IsTrue (is_neither_gc_nor_status look) }
    ensures asked { IfOk result (λ asked. ask_of look ≡ Some asked) }
    ensures sound { IsSoundLook look → IfOk result IsSoundAsk }
{
    match look {
        Look::Version(version) => Ok(Ask::Tell(versions(alloc, version)?)),
        Look::Add(add) => Ok(begun_add(add)),
        Look::Del(del) => Ok(Ask::Begin(Request::Del(del.handle), del.version)),
        Look::Check(check) => Ok(begun_check(check)),
        Look::Gc(_) | Look::Status(_) => unreachable!(),
    }
}

fn versions(alloc: Global, version: Version) -> Result<Text, AllocError>
    ensures { IfOk result (λ text. text ≡ versions_text version) }
{
    let mut text = String::new(alloc);
    push_versions(alloc, &mut text, version)?;
    Ok(Text::of(text))
}

fn begun_add(add: CniAdd) -> Ask
    ensures asked { result ≡ Begin (wanting add.address (add_of add)) add.version }
    ensures sound { IsSoundCall add → IsSoundAsk result }
{
    let version = add.version;
    let address = add.address;
    Ask::Begin(wanting(address, add_of(add)), version)
}

#[tactic(auto, using(crate::proofs::SoundCalls::add_sound))]
fn add_of(add: CniAdd) -> AddRequest
    ensures asked { result ≡ add_of add }
    ensures sound { IsSoundCall add → IsSoundAdd result }
    ensures some_family { IsSoundCall add → IsTrue (result.ipv4 || result.ipv6) }
{
    AddRequest {
        node: add.node,
        attributes: Attributes {
            handle: add.handle,
            secondary: add.secondary,
        },
        ipv4: add.ipv4,
        ipv6: add.ipv6,
        labels: add.labels,
        pools4: add.pools4,
        pools6: add.pools6,
    }
}

fn wanting(address: Option<Addr>, add: AddRequest) -> Request
    ensures wanted { result ≡ wanting address add }
    ensures sound { IsSoundAdd add → IsTrue (add.ipv4 || add.ipv6) → IsSoundRequest result }
{
    match address {
        None => Request::Add(add),
        Some(address) => wanting_this(address, add),
    }
}

fn wanting_this(address: Addr, add: AddRequest) -> Request
    ensures wanted { result ≡ wanting (Some address) add }
    ensures sound { IsSoundAdd add → IsSoundRequest result }
{
    let _number = address.number;
    Request::AddThis(add, address)
}

fn begun_check(check: CniCheck) -> Ask
    ensures asked { result ≡ Begin (Check check.handle check.addresses) check.version }
    ensures sound { IsSoundCheck check → IsSoundAsk result }
{
    know_addresses(check.addresses.as_slice());
    Ask::Begin(Request::Check(check.handle, check.addresses), check.version)
}

/// Does nothing: no other addresses can be made.
fn know_addresses(addresses: &[Addr])
    ensures { All IsAddress addresses.now }
{
    for address in addresses {
        know_address(*address);
    }
}

fn know_address(address: Addr)
    ensures { IsAddress address }
{
    let _number = address.number;
}
