ghost use Rattle.std.specs.Prelude.{◌≡◌, ◌-◌, ℕ, List, All, map, position, IfOk, IfNone};
ghost use Rattle.ipam_addr.specs.Holding.{holds_address};
ghost use Rattle.ipam_addr.specs.Slots.{HasSlots};
ghost use Rattle.ipam_block.specs.Operations.{holder};
ghost use Rattle.ipam_records.specs.Hearing.{MayHear};
ghost use Rattle.ipam_records.specs.Said.{said};
ghost use Rattle.ipam_records.specs.Word.{next_call, after_reply, answer_in};
ghost use Rattle.ipam_model.specs.AddThis.{slot_holding};
ghost use Rattle.ipam_model.specs.Look.{check_word, holds_at, is_recorded_to};
ghost use Rattle.ipam_model.specs.Reads.{pools_said, block_said};
ghost use Rattle.ipam_release.specs.Check.{visit_of, visit_one, visit_each, looks_at, look_heard, check_at, next_at, check_rest, check_goes, check_leaves};

use ipam_addr::{Addr, Cidr, slot, slot_number};
use ipam_block::{ADDRESSES_MAX, Block};
use ipam_model::CheckAnswer;
use ipam_parts::first_of;
use ipam_pool::Pool;
use ipam_records::{Call, Heard, Key, Procedure, Record, Reply};
use ipam_text::{Seq, Text};
use std::alloc::{AllocError, Global};
use std::collections::VecDeque;

/// A CHECK of a handle and of addresses that it is to hold.
pub struct CheckProc {
    id: Text,
    stage: Stage,
}

impl Drop for CheckProc {
    fn drop(self) {
        let CheckProc { id: _, stage: _ } = self;
    }
}

/// The call that a CHECK makes next.
#[derive(Drop)]
enum Stage {
    /// The pools are read. These addresses are to be looked at.
    Reads(Seq<Addr>),
    Looks(Looks),
}

/// An address that is looked for.
#[derive(Clone, Copy)]
enum Visit {
    /// In the slot that holds it.
    Slot(Addr, Cidr),
    /// Nowhere, since no pool holds it.
    Outside(Addr),
}

/// The address is looked for in the block of its slot, and then each of the others in its own. The
/// pools were read at the moment.
#[derive(Drop)]
struct Looks {
    moment: u64,
    address: Addr,
    cidr: Cidr,
    others: VecDeque<Visit>,
}

/// Where a reply leads.
#[derive(Drop)]
enum Goes {
    To(Stage),
    /// The address was held, and the next is looked at.
    Next,
    Answers(CheckAnswer),
}

/// Where a reply led a CHECK.
#[derive(Drop)]
pub struct CheckTurned {
    goes: Goes,
}

impl CheckProc {
    /// A CHECK of the handle of this id and these addresses.
    pub fn new(alloc: Global, handle: &str, addresses: &[Addr]) -> Result<CheckProc, AllocError>
        ensures { IfOk result (λ p. check_rest p ≡ check_word handle.now addresses.now) }
    {
        let id = Text::copied(alloc, handle)?;
        let addresses = copied(alloc, addresses)?;
        let stage = Stage::Reads(addresses);
        Ok(CheckProc { id, stage })
    }
}

impl Procedure for CheckProc {
    type Turned = CheckTurned;

    type Answer = CheckAnswer;

    ghost rest = { check_rest };

    ghost leaves = { check_leaves };

    ghost fits = { λ p turned. Unit {0} };

    fn call(&self, _alloc: Global) -> Result<Call, AllocError> {
        match &self.stage {
            Stage::Reads(_) => Ok(Call::Get(Key::Pools)),
            Stage::Looks(looks) => Ok(Call::Get(Key::Block(looks.cidr))),
        }
    }

    #[tactic(auto, using(crate::proofs::CheckLemmas::visits))]
    fn took(&self, alloc: Global, hearing: &Heard) -> Result<CheckTurned, AllocError> {
        match &self.stage {
            Stage::Reads(addresses) => {
                let pools = pools_in(&hearing.reply);
                let visits = visits_of(alloc, pools, addresses.as_slice())?;
                let goes = begun(hearing.moment, visits);
                Ok(CheckTurned { goes })
            }
            Stage::Looks(looks) => {
                let goes = self.looked(looks, hearing);
                Ok(CheckTurned { goes })
            }
        }
    }

    fn go(&mut self, turned: CheckTurned) -> Option<CheckAnswer> {
        match turned.goes {
            Goes::To(stage) => {
                self.stage = stage;
                None
            }
            Goes::Next => next(&mut self.stage),
            Goes::Answers(answer) => Some(answer),
        }
    }
}

impl CheckProc {
    /// Where the block leads that was read for an address.
    #[tactic(auto, using(crate::proofs::CheckLemmas::is_next))]
    fn looked(&self, looks: &Looks, hearing: &Heard) -> Goes
        requires { self.now.stage ≡ Stage.Looks looks.now }
        ensures { check_goes self.now result ≡ look_heard self.now.id looks.now hearing.now.moment (said hearing.now.reply) }
    {
        if is_held_by(self.id.as_str(), looks.address, &hearing.reply) {
            return Goes::Next;
        }
        Goes::Answers(CheckAnswer::NotRecorded(looks.address, hearing.moment))
    }
}

impl Looks {
    /// Goes to the next address, or answers where there is none.
    fn next(&mut self) -> Option<CheckAnswer>
        ensures answer { (id : List ℕ) → result ≡ answer_in (visit_each id self.old.moment self.old.others.items) }
        ensures on { IfNone result ((id : List ℕ) → looks_at id self.new ≡ visit_each id self.old.moment self.old.others.items) }
    {
        match first_of(&mut self.others) {
            Some(visit) => self.go(visit),
            None => Some(CheckAnswer::Checked),
        }
    }

    fn go(&mut self, visit: Visit) -> Option<CheckAnswer>
        ensures answer { (id : List ℕ) → result ≡ answer_in (visit_one (visit_each id self.old.moment self.old.others.items) id self.old.moment visit) }
        ensures on { IfNone result ((id : List ℕ) → looks_at id self.new
            ≡ visit_one (visit_each id self.old.moment self.old.others.items) id self.old.moment visit) }
    {
        match visit {
            Visit::Slot(address, cidr) => {
                self.address = address;
                self.cidr = cidr;
                None
            }
            Visit::Outside(address) => { Some(CheckAnswer::NotRecorded(address, self.moment)) }
        }
    }
}

/// Goes to the next address.
fn next(stage: &mut Stage) -> Option<CheckAnswer>
    ensures answer { (id : List ℕ) → result ≡ answer_in (next_at id stage.old) }
    ensures on { IfNone result ((id : List ℕ) → check_at id stage.new ≡ next_at id stage.old) }
{
    match stage {
        Stage::Looks(looks) => looks.next(),
        Stage::Reads(_) => None,
    }
}

/// Where the read of the pools leads, with these addresses.
fn begun(moment: u64, visits: VecDeque<Visit>) -> Goes
    ensures { (p : CheckProc) → check_goes p result ≡ visit_each p.id moment visits.items }
{
    let mut others = visits;
    match first_of(&mut others) {
        Some(visit) => begun_at(moment, visit, others),
        None => Goes::Answers(CheckAnswer::Checked),
    }
}

fn begun_at(moment: u64, visit: Visit, others: VecDeque<Visit>) -> Goes
    ensures { (p : CheckProc) → check_goes p result
        ≡ visit_one (visit_each p.id moment others.items) p.id moment visit }
{
    match visit {
        Visit::Slot(address, cidr) => {
            let looks = Looks::new(moment, address, cidr, others);
            Goes::To(Stage::Looks(looks))
        }
        Visit::Outside(address) => Goes::Answers(CheckAnswer::NotRecorded(address, moment)),
    }
}

impl Looks {
    fn new(moment: u64, address: Addr, cidr: Cidr, others: VecDeque<Visit>) -> Looks
        ensures moment { result.moment ≡ moment }
        ensures address { result.address ≡ address }
        ensures cidr { result.cidr ≡ cidr }
        ensures others { result.others.items ≡ others.items }
    {
        Looks {
            moment,
            address,
            cidr,
            others,
        }
    }
}

fn copied(alloc: Global, addresses: &[Addr]) -> Result<Seq<Addr>, AllocError>
    ensures { IfOk result (λ copy. copy ≡ addresses.now) }
{
    let copy = addresses.to_vec(alloc)?;
    Ok(Seq::of(copy))
}

/// The pools that were found.
fn pools_in<'a>(reply: &Reply<'a>) -> &'a [Pool]
    ensures value { result.now ≡ pools_said (said reply.now) }
    ensures sizes { All (λ p. HasSlots p.cidr p.size) result.now }
{
    match *reply {
        Reply::Found(_, Record::Pools(table)) => table.pools(),
        _ => &[],
    }
}

/// The addresses with their slots.
fn visits_of(
    alloc: Global,
    pools: &[Pool],
    addresses: &[Addr],
) -> Result<VecDeque<Visit>, AllocError>
    requires { All (λ p. HasSlots p.cidr p.size) pools.now }
    ensures { IfOk result (λ visits. visits.items ≡ map (visit_of pools.now) addresses.now) }
{
    let mut visits = Seq::new(alloc);
    for address in addresses {
        visits.push(visit_to(pools, *address))?;
    }
    Ok(VecDeque::from_vec(visits.into_vec()))
}

fn visit_to(pools: &[Pool], address: Addr) -> Visit
    requires { All (λ p. HasSlots p.cidr p.size) pools.now }
    ensures { result ≡ visit_of pools.now address }
{
    match place_of(pools, address) {
        Some(place) => Visit::Slot(address, slot_in(&pools[place], address)),
        None => Visit::Outside(address),
    }
}

/// The place of the pool that holds the address.
fn place_of(pools: &[Pool], address: Addr) -> Option<usize>
    ensures { result ≡ position (λ p. holds_address p.cidr address) pools.now }
{
    pools.iter().position(|pool| pool.cidr.contains(address))
}

fn slot_in(pool: &Pool, address: Addr) -> Cidr
    requires { HasSlots pool.now.cidr pool.now.size }
    ensures { result ≡ slot_holding pool.now address }
{
    match slot_number(pool.cidr, pool.size, address) {
        Some(number) => slot(pool.cidr, pool.size, number),
        None => slot(pool.cidr, pool.size, 0),
    }
}

/// Whether the block was found and has the address recorded to the handle.
fn is_held_by(id: &str, address: Addr, reply: &Reply) -> bool
    ensures { result ≡ holds_at id.now address (block_said (said reply.now)) }
{
    match *reply {
        Reply::Found(_, Record::Block(block)) => is_recorded_in(id, address, block),
        _ => false,
    }
}

#[tactic(auto, using(crate::proofs::CheckLemmas::beyond))]
fn is_recorded_in(id: &str, address: Addr, block: &Block) -> bool
    ensures { result ≡ is_recorded_to id.now (holder block.now (address.number - block.now.cidr.base)) }
{
    let offset = address.number.saturating_sub(block.cidr().base().number);
    if offset >= u128::from(ADDRESSES_MAX) {
        return false;
    }
    match block.holder(offset as u16) {
        Some((attributes, _)) => attributes.handle.as_str() == id,
        None => false,
    }
}
