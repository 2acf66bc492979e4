ghost use Rattle.std.specs.Prelude.{◌≡◌, List, All, IfOk, [], ◌∷◌, count_by};
ghost use Rattle.ipam_addr.specs.Holding.{is_same_family};
ghost use Rattle.ipam_pool.specs.Shape.{ReservationValue};
ghost use Rattle.ipam_model.specs.Choice.{IsChoice, pick_of};
ghost use Rattle.ipam_choice.specs.Picked.{ranked_in, pick_as};
ghost use Rattle.ipam_choice.specs.First.{first_of};
ghost use Rattle.ipam_choice.specs.Level.{level_number};
ghost use Rattle.ipam_choice.specs.Sight.{IsSlotted};
ghost use Rattle.ipam_choice.specs.Viewed.{asked_of, seen_of, IsSetOf};
ghost use Rattle.ipam_choice.specs.Known.{pick_in, sight_of_known};
ghost use Rattle.ipam_choice.specs.Scanned.{sight_of, first_usable, if_usable, pick_from};

use crate::confirmed::Confirmed;
use crate::level::Level;
use crate::picked::{Candidate, Picked};
use crate::scan::Scan;
use crate::view::{Known, View, Wanted};
use ipam_addr::{Cidr, Family};
use ipam_model::Choice;
use ipam_pool::Pool;
use std::alloc::{AllocError, Global};

/// Which address an ADD takes, or which slot it claims first.
pub fn choose(alloc: Global, wanted: &Wanted, view: &View) -> Result<Choice, AllocError>
    ensures { IfOk result (λ choice. (reservations : List ReservationValue)
        → IsSetOf reservations view.now.reserved.now
        → IsChoice (asked_of wanted.now) (seen_of view.now reservations) choice) }
{
    match pick(alloc, wanted, view) {
        Ok(picked) => Ok(picked.choice()),
        Err(fault) => Err(fault),
    }
}

/// Which address an ADD takes, or which slot it claims first, with the block that was
/// listed at the slot.
pub fn pick<'a>(alloc: Global, wanted: &Wanted, view: &View<'a>) -> Result<Picked<'a>, AllocError>
    ensures { IfOk result (λ picked. (reservations : List ReservationValue)
        → IsSetOf reservations view.now.reserved.now
        → pick_as picked ≡ pick_of (asked_of wanted.now) (seen_of view.now reservations)) }
{
    let confirmed = Confirmed::of(alloc, wanted.node, &view.affinities)?;
    let known = Known {
        config: view.config,
        pools: view.pools,
        reserved: view.reserved,
        confirmed: &confirmed,
        blocks: view.blocks,
    };
    Ok(pick_known(wanted, &known))
}

/// Which address an ADD takes, or which slot it claims first, where the node's confirmed
/// affinities were gathered before. Takes no memory.
pub fn pick_known<'a>(wanted: &Wanted, known: &Known<'a, '_>) -> Picked<'a>
    ensures { pick_as result ≡ pick_in (asked_of wanted.now) known.now.pools.now (sight_of_known (asked_of wanted.now) known.now) }
{
    let pools = known.pools.pools();
    if let Some(place) = wanted.unknown_name(pools) {
        return Picked::NoPool(place);
    }
    let scan = Scan {
        node: wanted.node,
        strict: known.config.strict,
        may_claim: may_claim(wanted, known),
        confirmed: known.confirmed,
        reserved: known.reserved,
        blocks: known.blocks,
    };
    best(&scan, wanted, pools)
}

// The first candidate of the first level that has one.
fn best<'a>(scan: &Scan<'a, '_>, wanted: &Wanted, pools: &[Pool]) -> Picked<'a>
    requires { All IsSlotted pools.now }
    ensures { pick_as result ≡ pick_from (first_of
        (first_usable (asked_of wanted.now) (sight_of scan.now) pools.now)
        (0 ∷ 1 ∷ 2 ∷ 3 ∷ [])) }
{
    for level in [
        Level::Own,
        Level::Unconfirmed,
        Level::Unclaimed,
        Level::Foreign,
    ] {
        if let Some(candidate) = first_of_level(scan, wanted, level, pools) {
            return Picked::Slot(candidate);
        }
    }
    Picked::Nothing
}

// The first slot of a usable pool that has a rank of the level.
fn first_of_level<'a>(
    scan: &Scan<'a, '_>,
    wanted: &Wanted,
    level: Level,
    pools: &[Pool],
) -> Option<Candidate<'a>>
    requires { All IsSlotted pools.now }
    ensures { ranked_in result
        ≡ first_usable (asked_of wanted.now) (sight_of scan.now) pools.now (level_number level) }
{
    for pool in pools {
        if let Some(candidate) = first_in_usable(scan, wanted, level, pool) {
            return Some(candidate);
        }
    }
    None
}

fn first_in_usable<'a>(
    scan: &Scan<'a, '_>,
    wanted: &Wanted,
    level: Level,
    pool: &Pool,
) -> Option<Candidate<'a>>
    requires { IsSlotted pool.now }
    ensures { ranked_in result
        ≡ if_usable (asked_of wanted.now) (sight_of scan.now) (level_number level) pool.now }
{
    if wanted.may_use(pool) {
        scan.first_in(level, pool)
    } else {
        None
    }
}

// Whether the node may claim one more block of the family.
fn may_claim(wanted: &Wanted, known: &Known) -> bool
    ensures { result ≡ (sight_of_known (asked_of wanted.now) known.now).may_claim }
{
    if !known.config.auto {
        return false;
    }
    if known.config.max_blocks == 0 {
        return true;
    }
    let blocks = known.blocks.of_node(wanted.node);
    count_of(wanted.family, blocks) < known.config.max_blocks as usize
}

// How many of the blocks are of the family.
fn count_of(family: Family, blocks: &[Cidr]) -> usize
    ensures { result ≡ count_by (λ cidr. is_same_family family cidr.family) blocks.now }
{
    blocks.iter().filter(|cidr| family == cidr.family()).count()
}
