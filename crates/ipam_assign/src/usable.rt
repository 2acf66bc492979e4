ghost use Rattle.std.specs.Prelude.{◌≡◌, Option, IfSome, true};
ghost use Rattle.ipam_addr.specs.Holding.{holds_address};
ghost use Rattle.ipam_addr.specs.Slots.{HasSlots};
ghost use Rattle.ipam_model.specs.AddThis.{asked_of_this};
ghost use Rattle.ipam_model.specs.Assigning.{names_for};
ghost use Rattle.ipam_model.specs.Usable.{usable_pool_of};
ghost use Rattle.ipam_assign.specs.Usable.{place_of_pool};
ghost use Rattle.ipam_choice.specs.Viewed.{asked_of};
ghost use Rattle.std.specs.Option.{option_copied};

use crate::place::Place;
use ipam_addr::{Addr, Family};
use ipam_choice::Wanted;
use ipam_model::AddRequest;
use ipam_pool::{Pool, PoolTable};
use ipam_text::Text;

/// The pools of the family that the request names.
pub fn names_for(family: Family, request: &AddRequest) -> &[Text]
    ensures { result.now ≡ names_for family request.now }
{
    match family {
        Family::V4 => request.pools4.as_slice(),
        Family::V6 => request.pools6.as_slice(),
    }
}

/// The address with its slot in the usable pool that holds it, if there is one.
pub fn usable_place(request: &AddRequest, address: Addr, pools: &PoolTable) -> Option<Place>
    ensures { result ≡ place_of_pool address (usable_pool_of (asked_of_this request.now address) address pools.now) }
{
    let wanted = wanted_of(request, address);
    match usable_pool(&wanted, address, pools) {
        Some(pool) => Place::of(pool.cidr, pool.size, address),
        None => None,
    }
}

fn wanted_of(request: &AddRequest, address: Addr) -> Wanted<'_>
    ensures { asked_of result ≡ asked_of_this request.now address }
{
    Wanted {
        node: request.node.as_str(),
        family: address.family,
        names: names_for(address.family, request),
        labels: request.labels.as_slice(),
        one_address: true,
    }
}

#[tactic(auto, using(crate::proofs::UsableLemmas::slots_of_found))]
fn usable_pool<'a>(wanted: &Wanted, address: Addr, table: &'a PoolTable) -> Option<&'a Pool>
    ensures pool { option_copied result ≡ usable_pool_of (asked_of wanted.now) address table.now }
    ensures slots { IfSome result (λ pool. HasSlots pool.now.cidr pool.now.size) }
    ensures holds { IfSome result (λ pool. holds_address pool.now.cidr address ≡ true) }
{
    first_usable(wanted, address, table.pools())
}

fn first_usable<'a>(wanted: &Wanted, address: Addr, pools: &'a [Pool]) -> Option<&'a Pool>
    ensures { option_copied result ≡ usable_pool_of (asked_of wanted.now) address pools.now }
{
    pools
        .iter()
        .find(|pool| wanted.may_use(pool) && pool.cidr.contains(address))
}
