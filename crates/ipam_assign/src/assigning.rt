ghost use Rattle.std.specs.Prelude.{◌≡◌, ◌<◌, ◌^◌, ℕ, List, Some, None, false, IfOk, IfNone};
ghost use Rattle.ipam_addr.specs.Width.{cidr_size};
ghost use Rattle.ipam_block.specs.Operations.{is_held, next_block, block_with_ordinal};
ghost use Rattle.ipam_records.specs.Hearing.{MayHear};
ghost use Rattle.ipam_records.specs.Said.{said};
ghost use Rattle.ipam_records.specs.Word.{next_call, after_reply, answer_in};
ghost use Rattle.ipam_model.specs.Assigning.{assign, target_in};
ghost use Rattle.ipam_assign.specs.Assigning.{lost_at, written_at, none_after, assigning_at, assigning_rest, assigning_goes, assigning_leaves, raises_leaves, lowers_leaves};
ghost use Rattle.ipam_block.specs.Shape.{BlockValue};

use ipam_addr::Cidr;
use ipam_block::{Attributes, Block};
use ipam_model::{Assigned, Left, Outcome, Stop};
use ipam_parts::{Amount, Lowering, LoweringTurned, Raising, RaisingTurned, WriteEnd, after_lost};
use ipam_records::{Call, Heard, Record};
use std::alloc::{AllocError, Global};

/// An address of a block is assigned to a handle: the handle's count is raised, then the block is
/// written. Where that is lost, the count is lowered again. The handle's id is lent to each call.
pub struct Assigning {
    /// The block as it is to be written, at the revision at which it was read.
    block: Block,
    revision: u64,
    stage: Stage,
}

impl Drop for Assigning {
    fn drop(self) {
        let Assigning {
            block: _,
            revision: _,
            stage: _,
        } = self;
    }
}

#[derive(Drop)]
enum Stage {
    Raises(Raising),
    /// The block is written, with so much left.
    Writes(Left),
    Lowers(Lowering),
}

/// Where a reply leads.
#[derive(Drop)]
enum Goes {
    Raise(RaisingTurned),
    Lower(LoweringTurned),
    /// The block was not written, and the count is lowered.
    Lowers(Lowering),
    Ends(Outcome<Option<Assigned>>),
}

/// Where a reply led.
#[derive(Drop)]
pub struct AssigningTurned {
    goes: Goes,
}

impl Assigning {
    /// The assignment of an ordinal that is free, in the block as it was read at this revision. It
    /// comes to the moment and the stamp, or to nothing where the block was not written.
    pub fn new(
        revision: u64,
        block: &Block,
        ordinal: u16,
        attributes: &Attributes,
        left: Left,
    ) -> Result<Assigning, AllocError>
        requires own { ordinal < cidr_size block.now.cidr }
        requires free { is_held block.now ordinal ≡ false }
        requires counted { block.now.sequence < 2 ^ 62 }
        ensures { IfOk result (λ a. assigning_rest attributes.now.handle a
            ≡ assign attributes.now (target_in (revision, block.now) ordinal) left) }
    {
        let cidr = block.cidr();
        let block = with_assigned(block, ordinal, attributes)?;
        Ok(Assigning {
            block,
            revision,
            stage: Stage::Raises(Raising::new(cidr, left)),
        })
    }

    /// The block that is assigned from.
    pub fn cidr(&self) -> Cidr
        ensures { result ≡ self.now.block.cidr }
    {
        self.block.cidr()
    }

    /// The next call.
    #[tactic(auto, using(crate::proofs::AssigningLemmas::asks_raising, crate::proofs::AssigningLemmas::asks_lowering))]
    pub fn call(&self, alloc: Global, id: &str) -> Result<Call, AllocError>
        ensures { IfOk result (λ call. next_call (assigning_rest id.now self.now) ≡ Some call) }
    {
        match &self.stage {
            Stage::Raises(raising) => raising.call(alloc, id),
            Stage::Writes(_) => Ok(Call::Update(Record::Block(self.block.clone()?), self.revision)),
            Stage::Lowers(lowering) => lowering.call(alloc, id),
        }
    }

    /// Where the reply leads.
    pub fn took(
        &self,
        alloc: Global,
        id: &str,
        hearing: &Heard,
    ) -> Result<AssigningTurned, AllocError>
        requires { MayHear (assigning_rest id.now self.now) (said hearing.now.reply) }
        ensures { IfOk result (λ turned. assigning_leaves id.now self.now turned
            ≡ after_reply (assigning_rest id.now self.now) hearing.now.moment (said hearing.now.reply)) }
    {
        match &self.stage {
            Stage::Raises(raising) => {
                let goes = Goes::Raise(raising.took(alloc, id, hearing)?);
                Ok(AssigningTurned { goes })
            }
            Stage::Writes(left) => {
                let goes = self.written(*left, hearing);
                Ok(AssigningTurned { goes })
            }
            Stage::Lowers(lowering) => {
                let goes = Goes::Lower(lowering.took(alloc, id, hearing)?);
                Ok(AssigningTurned { goes })
            }
        }
    }

    fn written(&self, left: Left, hearing: &Heard) -> Goes
        ensures { (id : List ℕ) → assigning_goes id self.now result
            ≡ written_at id self.now.block left hearing.now.moment (said hearing.now.reply) }
    {
        match WriteEnd::of(&hearing.reply) {
            WriteEnd::Took(_) => {
                let assigned = Assigned {
                    moment: hearing.moment,
                    stamp: self.block.sequence(),
                };
                Goes::Ends(Outcome::Went(left, Some(assigned)))
            }
            WriteEnd::Lost => self.lost(left),
            WriteEnd::Full => Goes::Ends(Outcome::Stops(left, Stop::NoRoom)),
            WriteEnd::Spent => Goes::Ends(Outcome::Stops(left, Stop::NoRevisions)),
        }
    }

    /// Where a lost write of the block leads.
    fn lost(&self, left: Left) -> Goes
        ensures { (id : List ℕ) → assigning_goes id self.now result ≡ lost_at id self.now.block left }
    {
        match after_lost(left) {
            Ok(less) => Goes::Lowers(Lowering::new(self.block.cidr(), Amount::of(1), less)),
            Err(why) => Goes::Ends(Outcome::Stops(left, why)),
        }
    }

    /// Goes where a reply led. Takes no memory.
    pub fn go(&mut self, turned: AssigningTurned) -> Option<Outcome<Option<Assigned>>>
        ensures answer { (id : List ℕ) → result ≡ answer_in (assigning_leaves id self.old turned) }
        ensures on { IfNone result ((id : List ℕ) → assigning_rest id self.new ≡ assigning_leaves id self.old turned) }
        ensures block { self.new.block ≡ self.old.block }
    {
        match turned.goes {
            Goes::Raise(turned) => raised(&mut self.stage, turned),
            Goes::Lower(turned) => lowered(&mut self.stage, turned),
            Goes::Lowers(lowering) => {
                self.stage = Stage::Lowers(lowering);
                None
            }
            Goes::Ends(outcome) => Some(outcome),
        }
    }
}

/// The raising goes where a reply led it. Behind it the block is written.
fn raised(stage: &mut Stage, turned: RaisingTurned) -> Option<Outcome<Option<Assigned>>>
    ensures answer { (id : List ℕ) (block : BlockValue) (revision : ℕ) → result ≡ answer_in (raises_leaves id block revision stage.old turned) }
    ensures on { IfNone result ((id : List ℕ) (block : BlockValue) (revision : ℕ)
        → assigning_at id block revision stage.new ≡ raises_leaves id block revision stage.old turned) }
{
    match stage {
        Stage::Raises(raising) => match raising.go(turned) {
            None => None,
            Some(Outcome::Went(left, ())) => {
                *stage = Stage::Writes(left);
                None
            }
            Some(Outcome::Stops(left, why)) => Some(Outcome::Stops(left, why)),
        },
        _ => None,
    }
}

/// The lowering goes where a reply led it. Behind it nothing was assigned.
fn lowered(stage: &mut Stage, turned: LoweringTurned) -> Option<Outcome<Option<Assigned>>>
    ensures answer { (id : List ℕ) (block : BlockValue) (revision : ℕ) → result ≡ answer_in (lowers_leaves id block revision stage.old turned) }
    ensures on { IfNone result ((id : List ℕ) (block : BlockValue) (revision : ℕ)
        → assigning_at id block revision stage.new ≡ lowers_leaves id block revision stage.old turned) }
{
    match stage {
        Stage::Lowers(lowering) => match lowering.go(turned) {
            None => None,
            Some(outcome) => Some(nothing_after(outcome)),
        },
        _ => None,
    }
}

/// What the whole came to, where the lowering came to this.
fn nothing_after(outcome: Outcome<()>) -> Outcome<Option<Assigned>>
    ensures { result ≡ none_after outcome }
{
    match outcome {
        Outcome::Went(left, ()) => Outcome::Went(left, None),
        Outcome::Stops(left, why) => Outcome::Stops(left, why),
    }
}

/// The next write of the block, with the ordinal held.
fn with_assigned(block: &Block, ordinal: u16, attributes: &Attributes) -> Result<Block, AllocError>
    requires own { ordinal < cidr_size block.now.cidr }
    requires free { is_held block.now ordinal ≡ false }
    requires counted { block.now.sequence < 2 ^ 62 }
    ensures { IfOk result (λ b. b ≡ block_with_ordinal (next_block block.now) ordinal attributes.now) }
{
    let mut next = block.next()?;
    match next.assign(ordinal, attributes.clone()?) {
        Ok(_) => Ok(next),
        Err(_) => unreachable!(),
    }
}
