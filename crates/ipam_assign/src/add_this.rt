ghost use Rattle.std.specs.Prelude.{◌≡◌, ◌<◌, ◌≤◌, ◌^◌, ◌-◌, ℕ, List, Some, None, false, IfOk, IfNone, IfSome, Option};
ghost use Rattle.ipam_addr.specs.Width.{cidr_size};
ghost use Rattle.ipam_block.specs.Operations.{holder, is_held};
ghost use Rattle.ipam_records.specs.Hearing.{MayHear};
ghost use Rattle.ipam_records.specs.Said.{said};
ghost use Rattle.ipam_records.specs.Word.{next_call, after_reply, answer_in};
ghost use Rattle.ipam_model.specs.AddThis.{add_this_word, this_free, this_take, this_given, this_assigned, asked_of_this};
ghost use Rattle.ipam_model.specs.Assigning.{after_claim, claim_for};
ghost use Rattle.ipam_model.specs.Choice.{share_of};
ghost use Rattle.ipam_model.specs.Step.{all_left as every_try};
ghost use Rattle.ipam_assign.specs.declared.add_this.Stage.TheVariants.{ReadsConfig};
ghost use Rattle.ipam_model.specs.Reads.{pools_said};
ghost use Rattle.ipam_model.specs.Step.{part_then};
ghost use Rattle.ipam_model.specs.Usable.{usable_pool_of};
ghost use Rattle.ipam_assign.specs.Usable.{place_of_pool};
ghost use Rattle.ipam_assign.specs.AddThis.{ThisGoing, this_going, this_next, this_then_next, wanted_at, looked_in, looked_of, rules_of, share_as, pools_part, block_part, this_part, this_at, this_rest, this_goes, this_leaves, claims_leaves, assigns_leaves, assign_ended};
ghost use Rattle.ipam_block.specs.declared.limits.TheConstants.{ADDRESSES_MAX};
ghost use Rattle.ipam_parts.specs.Reading.{lent_block};

use crate::assigning::{Assigning, AssigningTurned};
use crate::claiming::claimed;
use crate::place::Place;
use crate::reading::config_in;
use crate::rounds::Rounds;
use crate::stopping::add_this_stopped;
use crate::usable::usable_place;
use ipam_addr::{Addr, Cidr};
use ipam_block::Block;
use ipam_model::{
    AddRequest, AddThisAnswer, Assigned, ClaimAnswer, GivenThis, Left, Outcome, Stop,
};
use ipam_parts::{ClaimProc, ClaimTurned, all_left, block_in};
use ipam_records::{Call, Config, Heard, Key, Procedure, Record, Reply};
use std::alloc::{AllocError, Global};

/// An ADD of one address.
pub struct AddThisProc {
    request: AddRequest,
    address: Addr,
    rounds: Rounds,
    left: Left,
    stage: Stage,
}

impl Drop for AddThisProc {
    fn drop(self) {
        let AddThisProc {
            request: _,
            address: _,
            rounds: _,
            left: _,
            stage: _,
        } = self;
    }
}

/// The call that is made next.
#[derive(Drop)]
enum Stage {
    ReadsConfig,
    ReadsPools(Configured),
    ReadsBlock(Ruled),
    Claims(ClaimProc),
    Assigns(Looked, Assigning),
}

/// The configuration, and the moment at which it was read.
#[derive(Clone, Copy)]
struct Configured {
    config: Config,
    c: u64,
}

/// The configuration, and the moments at which it and the pools were read.
#[derive(Clone, Copy)]
struct Rules {
    config: Config,
    c: u64,
    p: u64,
}

/// The rules, and the slot of the address.
#[derive(Drop)]
struct Ruled {
    rules: Rules,
    place: Place,
}

/// What was looked at in a round: the rules, and the block at the moment b.
#[derive(Clone, Copy)]
struct Looked {
    rules: Rules,
    address: Addr,
    cidr: Cidr,
    b: u64,
}

/// Where a reply leads.
#[derive(Drop)]
enum Goes {
    To(Stage),
    Claim(ClaimTurned),
    Assign(AssigningTurned),
    Answers(AddThisAnswer),
}

/// Where a reply led an ADD of one address.
#[derive(Drop)]
pub struct AddThisTurned {
    goes: Goes,
}

impl AddThisProc {
    /// The ADD of this address. The flags of the families are not read.
    #[tactic(auto, using(crate::proofs::AddThisLemmas::new_begins))]
    pub fn new(add: &AddRequest, address: Addr) -> Result<AddThisProc, AllocError>
        ensures { IfOk result (λ p. this_rest p ≡ add_this_word add.now address) }
    {
        let request = add.clone()?;
        let begun = AddThisProc::begun(request, address);
        Ok(begun)
    }

    fn begun(request: AddRequest, address: Addr) -> AddThisProc
        ensures request { result.request ≡ request }
        ensures address { result.address ≡ address }
        ensures more { result.rounds.more ≡ 126 }
        ensures left { result.left ≡ every_try }
        ensures stage { result.stage ≡ ReadsConfig }
    {
        let left = all_left();
        AddThisProc {
            request,
            address,
            rounds: Rounds::of(left),
            left,
            stage: Stage::ReadsConfig,
        }
    }

    /// Where the pools that were read lead.
    #[tactic(auto, using(crate::proofs::AddThisLemmas::pools_lead))]
    fn in_pools(&self, configured: Configured, hearing: &Heard) -> Goes
        ensures { this_goes self.now result
            ≡ after_reply (this_at (pools_part (this_going self.now) self.now.left configured)) hearing.now.moment (said hearing.now.reply) }
    {
        match place_in_pools(&self.request, self.address, &hearing.reply) {
            None => Goes::Answers(AddThisAnswer::NotInPool(hearing.moment)),
            Some(place) => {
                let ruled = Ruled::of(configured, hearing.moment, place);
                Goes::To(Stage::ReadsBlock(ruled))
            }
        }
    }

    /// Where the block that was read leads. One that is missing is claimed.
    fn at_block(&self, alloc: Global, ruled: &Ruled, hearing: &Heard) -> Result<Goes, AllocError>
        requires { MayHear (this_at (block_part (this_going self.now) self.now.left ruled.now)) (said hearing.now.reply) }
        ensures { IfOk result (λ goes. this_goes self.now goes
            ≡ after_reply (this_at (block_part (this_going self.now) self.now.left ruled.now)) hearing.now.moment (said hearing.now.reply)) }
    {
        match block_in(&hearing.reply) {
            None => self.claims(alloc, ruled.place.cidr(), None),
            Some((revision, block)) => match block.holder(ruled.place.ordinal()) {
                Some((held, _)) => Ok(Goes::Answers(AddThisAnswer::Taken(
                    held.handle.clone()?,
                    hearing.moment,
                ))),
                None => self.at_free(alloc, ruled, hearing.moment, revision, block),
            },
        }
    }

    /// Where the free address of a block leads: it is taken, or the block is claimed first.
    fn at_free(
        &self,
        alloc: Global,
        ruled: &Ruled,
        moment: u64,
        revision: u64,
        block: &Block,
    ) -> Result<Goes, AllocError>
        requires own { ruled.now.place.address.number - ruled.now.place.cidr.base < cidr_size block.now.cidr }
        requires free { is_held block.now (ruled.now.place.address.number - ruled.now.place.cidr.base) ≡ false }
        requires counted { block.now.sequence < 2 ^ 62 }
        ensures { IfOk result (λ goes. this_goes self.now goes
            ≡ this_at (this_free (wanted_at self.now.request ruled.now.place.address) (this_next (this_going self.now)) self.now.left
            (looked_in ruled.now moment) (revision, block.now))) }
    {
        match share_in(ruled.rules.config.strict, self.request.node.as_str(), block) {
            Share::Takes => self.takes(ruled, moment, revision, block),
            Share::Claims => self.claims(alloc, ruled.place.cidr(), Some((revision, block))),
            Share::Leaves => Ok(Goes::Answers(AddThisAnswer::NotAffine(
                ruled.place.cidr(),
                moment,
            ))),
        }
    }

    fn takes(
        &self,
        ruled: &Ruled,
        moment: u64,
        revision: u64,
        block: &Block,
    ) -> Result<Goes, AllocError>
        requires own { ruled.now.place.address.number - ruled.now.place.cidr.base < cidr_size block.now.cidr }
        requires free { is_held block.now (ruled.now.place.address.number - ruled.now.place.cidr.base) ≡ false }
        requires counted { block.now.sequence < 2 ^ 62 }
        ensures { IfOk result (λ goes. this_goes self.now goes
            ≡ this_at (this_take (wanted_at self.now.request ruled.now.place.address) (this_next (this_going self.now)) self.now.left
            (looked_in ruled.now moment) (revision, block.now))) }
    {
        let ordinal = ruled.place.ordinal();
        let attributes = &self.request.attributes;
        let assigning = Assigning::new(revision, block, ordinal, attributes, self.left)?;
        let looked = looked_with(ruled, moment);
        Ok(Goes::To(Stage::Assigns(looked, assigning)))
    }

    fn claims(
        &self,
        alloc: Global,
        cidr: Cidr,
        read: Option<(u64, &Block)>,
    ) -> Result<Goes, AllocError>
        requires small { cidr_size cidr ≤ ADDRESSES_MAX }
        requires counted { IfSome (lent_block read) (λ found. found.1.sequence < 2 ^ 62) }
        ensures { IfOk result (λ goes. this_goes self.now goes
            ≡ this_at (part_then (claim_for self.now.request.node cidr (lent_block read.entry) self.now.left) (this_then_next (this_going self.now)))) }
    {
        let claim = ClaimProc::new(alloc, self.request.node.as_str(), cidr, read)?;
        Ok(Goes::To(Stage::Claims(claim)))
    }

    /// Begins the next round, with so much left, where there is one more.
    #[tactic(auto, using(crate::proofs::AddThisLemmas::round_begins, crate::proofs::AddThisLemmas::next_asks))]
    fn next_round(&mut self, now: Left) -> Option<AddThisAnswer>
        ensures answer { result ≡ answer_in (this_at (this_next (this_going self.old) now)) }
        ensures on { IfNone result (this_rest self.new ≡ this_at (this_next (this_going self.old) now)) }
    {
        match self.rounds.next() {
            None => Some(add_this_stopped(now, Stop::OutOfTries)),
            Some(rounds) => {
                self.rounds = rounds;
                self.left = now;
                begin_round(&mut self.stage);
                None
            }
        }
    }

    fn after_claim(&mut self, answer: ClaimAnswer) -> Option<AddThisAnswer>
        ensures answer { result ≡ answer_in (this_at (part_then (after_claim self.old.left answer) (this_then_next (this_going self.old)))) }
        ensures on { IfNone result (this_rest self.new ≡ this_at (part_then (after_claim self.old.left answer) (this_then_next (this_going self.old)))) }
    {
        match claimed(self.left, answer) {
            Outcome::Went(now, ()) => self.next_round(now),
            Outcome::Stops(left, why) => Some(add_this_stopped(left, why)),
        }
    }

    fn after_assign(
        &mut self,
        looked: Looked,
        outcome: Outcome<Option<Assigned>>,
    ) -> Option<AddThisAnswer>
        ensures answer { result ≡ answer_in (this_at (assign_ended (this_going self.old) looked outcome)) }
        ensures on { IfNone result (this_rest self.new ≡ this_at (assign_ended (this_going self.old) looked outcome)) }
    {
        match outcome {
            Outcome::Went(now, assigned) => self.after_write(looked, now, assigned),
            Outcome::Stops(left, why) => Some(add_this_stopped(left, why)),
        }
    }

    fn after_write(
        &mut self,
        looked: Looked,
        now: Left,
        assigned: Option<Assigned>,
    ) -> Option<AddThisAnswer>
        ensures answer { result ≡ answer_in (this_at (this_assigned (wanted_at self.old.request looked.address) (this_next (this_going self.old)) (looked_of looked) now assigned)) }
        ensures on { IfNone result (this_rest self.new ≡ this_at (this_assigned (wanted_at self.old.request looked.address) (this_next (this_going self.old)) (looked_of looked) now assigned)) }
    {
        match assigned {
            Some(done) => Some(AddThisAnswer::AddedThis(given(looked, done))),
            None => self.next_round(now),
        }
    }
}

impl Ruled {
    fn of(configured: Configured, p: u64, place: Place) -> Ruled
        ensures rules { rules_of result.rules ≡ record { config = configured.config; c = configured.c; p = p } }
        ensures place { result.place ≡ place }
    {
        Ruled {
            rules: Rules {
                config: configured.config,
                c: configured.c,
                p,
            },
            place,
        }
    }
}

fn begin_round(stage: &mut Stage)
    ensures { stage.new ≡ ReadsConfig }
{
    *stage = Stage::ReadsConfig;
}

/// Whether the node may take an address of the block.
enum Share {
    Takes,
    Claims,
    Leaves,
}

fn share_in(strict: bool, node: &str, block: &Block) -> Share
    ensures { share_as result ≡ share_of strict node.now block.now }
{
    let of_node = match block.node() {
        Some(held) => held == node,
        None => false,
    };
    if of_node {
        Share::Takes
    } else if block.node().is_none() && block.is_empty() {
        Share::Claims
    } else if strict {
        Share::Leaves
    } else {
        Share::Takes
    }
}

fn looked_with(ruled: &Ruled, b: u64) -> Looked
    ensures looked { looked_of result ≡ looked_in ruled.now b }
    ensures address { result.address ≡ ruled.now.place.address }
{
    Looked {
        rules: ruled.rules,
        address: ruled.place.address(),
        cidr: ruled.place.cidr(),
        b,
    }
}

fn given(looked: Looked, done: Assigned) -> GivenThis
    ensures { (request : AddRequest) → result ≡ this_given (wanted_at request looked.address) (looked_of looked) done }
{
    GivenThis {
        address: looked.address,
        c: looked.rules.c,
        p: looked.rules.p,
        b: looked.b,
        w: done.moment,
    }
}

fn place_in_pools(request: &AddRequest, address: Addr, reply: &Reply) -> Option<Place>
    ensures { result ≡ place_of_pool address (usable_pool_of (asked_of_this request.now address) address (pools_said (said reply.now))) }
{
    match reply {
        Reply::Found(_, Record::Pools(pools)) => usable_place(request, address, pools),
        _ => None,
    }
}

/// The claim goes where a reply led it, and is answered in the end.
fn claim_goes(stage: &mut Stage, turned: ClaimTurned) -> Option<ClaimAnswer>
    ensures ended { IfSome result (λ answer. (g : ThisGoing) (left : Left)
        → claims_leaves g left stage.old turned ≡ part_then (after_claim left answer) (this_then_next g)) }
    ensures on { IfNone result ((g : ThisGoing) (left : Left) → this_part g left stage.new ≡ claims_leaves g left stage.old turned) }
    ensures asks { IfNone result ((g : ThisGoing) (left : Left) → None ≡ answer_in (this_at (claims_leaves g left stage.old turned))) }
{
    match stage {
        Stage::Claims(claim) => claim.go(turned),
        _ => None,
    }
}

/// The assignment goes where a reply led it, and comes to something in the end.
fn assign_goes(
    stage: &mut Stage,
    turned: AssigningTurned,
) -> Option<(Looked, Outcome<Option<Assigned>>)>
    ensures ended { IfSome result (λ e. (g : ThisGoing) (left : Left)
        → assigns_leaves g left stage.old turned ≡ assign_ended g e.0 e.1) }
    ensures on { IfNone result ((g : ThisGoing) (left : Left) → this_part g left stage.new ≡ assigns_leaves g left stage.old turned) }
    ensures asks { IfNone result ((g : ThisGoing) (left : Left) → None ≡ answer_in (this_at (assigns_leaves g left stage.old turned))) }
{
    match stage {
        Stage::Assigns(looked, assigning) => match assigning.go(turned) {
            Some(outcome) => Some((*looked, outcome)),
            None => None,
        },
        _ => None,
    }
}

impl Procedure for AddThisProc {
    type Turned = AddThisTurned;

    type Answer = AddThisAnswer;

    ghost rest = { this_rest };

    ghost leaves = { this_leaves };

    ghost fits = { λ p turned. Unit {0} };

    #[tactic(auto, using(crate::proofs::AddThisLemmas::claim_asks, crate::proofs::AddThisLemmas::asks_claim, crate::proofs::AddThisLemmas::asks_assign))]
    fn call(&self, alloc: Global) -> Result<Call, AllocError> {
        match &self.stage {
            Stage::ReadsConfig => Ok(Call::Get(Key::Config)),
            Stage::ReadsPools(_) => Ok(Call::Get(Key::Pools)),
            Stage::ReadsBlock(ruled) => Ok(Call::Get(Key::Block(ruled.place.cidr()))),
            Stage::Claims(claim) => claim.call(alloc),
            Stage::Assigns(_, assigning) => {
                assigning.call(alloc, self.request.attributes.handle.as_str())
            }
        }
    }

    #[tactic(auto, using(crate::proofs::AddThisLemmas::may_hear_claim, crate::proofs::AddThisLemmas::may_hear_assign))]
    fn took(&self, alloc: Global, hearing: &Heard) -> Result<AddThisTurned, AllocError> {
        match &self.stage {
            Stage::ReadsConfig => {
                let goes = Goes::To(Stage::ReadsPools(Configured {
                    config: config_in(&hearing.reply),
                    c: hearing.moment,
                }));
                Ok(AddThisTurned { goes })
            }
            Stage::ReadsPools(configured) => {
                let goes = self.in_pools(*configured, hearing);
                Ok(AddThisTurned { goes })
            }
            Stage::ReadsBlock(ruled) => {
                let goes = self.at_block(alloc, ruled, hearing)?;
                Ok(AddThisTurned { goes })
            }
            Stage::Claims(claim) => {
                let goes = Goes::Claim(claim.took(alloc, hearing)?);
                Ok(AddThisTurned { goes })
            }
            Stage::Assigns(_, assigning) => {
                let id = self.request.attributes.handle.as_str();
                let goes = Goes::Assign(assigning.took(alloc, id, hearing)?);
                Ok(AddThisTurned { goes })
            }
        }
    }

    #[tactic(auto, using(crate::proofs::AddThisLemmas::stage_goes_on))]
    fn go(&mut self, turned: AddThisTurned) -> Option<AddThisAnswer> {
        match turned.goes {
            Goes::To(stage) => {
                self.stage = stage;
                None
            }
            Goes::Claim(turned) => match claim_goes(&mut self.stage, turned) {
                None => None,
                Some(answer) => self.after_claim(answer),
            },
            Goes::Assign(turned) => match assign_goes(&mut self.stage, turned) {
                None => None,
                Some((looked, outcome)) => self.after_assign(looked, outcome),
            },
            Goes::Answers(answer) => Some(answer),
        }
    }
}
