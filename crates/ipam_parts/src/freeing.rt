ghost use Rattle.std.specs.Prelude.{◌≡◌, ◌<◌, ◌^◌, ℕ, List, Some, IfOk, IfNone};
ghost use Rattle.std.specs.List.{count_by};
ghost use Rattle.ipam_block.specs.Operations.{block_without, next_block};
ghost use Rattle.ipam_records.specs.Hearing.{MayHear};
ghost use Rattle.ipam_records.specs.Said.{said};
ghost use Rattle.ipam_records.specs.Word.{next_call, after_reply, answer_in};
ghost use Rattle.ipam_model.specs.Counting.{free};
ghost use Rattle.ipam_parts.specs.Freeing.{what_of, picked, amount_in, freeing_at, freeing_found, freeing_written, freeing_rest, freeing_goes, lowers_leaves, freeing_leaves};
ghost use Rattle.ipam_addr.specs.Shape.{CidrValue};
ghost use Rattle.ipam_parts.specs.declared.freeing.Picks.{Picks as Picking};
ghost use Rattle.ipam_parts.specs.declared.freeing.Stage.TheVariants.{Reads};

use crate::amount::Amount;
use crate::left::after_lost;
use crate::lowering::{Lowering, LoweringTurned};
use crate::reading::block_in;
use crate::write_end::WriteEnd;
use ipam_addr::Cidr;
use ipam_block::{Block, Which};
use ipam_model::{Left, Outcome, Stop};
use ipam_records::{Call, Heard, Key, Record};
use std::alloc::{AllocError, Global};

/// What is freed of what a handle holds in a block.
#[derive(Clone, Copy)]
pub enum Picks {
    /// All of it.
    All,
    /// The address of this ordinal, where the handle holds it with this stamp.
    Stamped { ordinal: u16, stamp: u64 },
}

/// Addresses of a block are freed that a handle holds, and its count is lowered: the call that is
/// made next. The handle's id is lent to each call.
pub struct Freeing {
    cidr: Cidr,
    picks: Picks,
    left: Left,
    stage: Stage,
}

impl Drop for Freeing {
    fn drop(self) {
        let Freeing {
            cidr: _,
            picks: _,
            left: _,
            stage: _,
        } = self;
    }
}

#[derive(Drop)]
enum Stage {
    /// The block is read.
    Reads,
    Writes(Freed),
    /// So many were freed, and the count is lowered.
    Lowers(u32, Lowering),
}

/// The block as it is to be written, at the revision at which it was found, without so many.
#[derive(Drop)]
struct Freed {
    block: Block,
    revision: u64,
    amount: Amount,
}

/// Where a reply leads.
#[derive(Drop)]
enum Goes {
    To(Stage),
    /// A race was lost, and this is left.
    Again(Left),
    /// The lowering goes on.
    Lower(LoweringTurned),
    Ends(Outcome<u32>),
}

/// Where a reply led.
#[derive(Drop)]
pub struct FreeingTurned {
    goes: Goes,
}

impl Freeing {
    /// The answer is how many were freed. Where there are none, nothing is written.
    pub fn new(cidr: Cidr, picks: Picks, left: Left) -> Freeing
        ensures { (id : List ℕ) → freeing_rest id result ≡ free (what_of id cidr picks) left }
    {
        Freeing {
            cidr,
            picks,
            left,
            stage: Stage::Reads,
        }
    }

    /// The next call.
    #[tactic(auto, using(crate::proofs::FreeingLemmas::asks_lowering))]
    pub fn call(&self, alloc: Global, id: &str) -> Result<Call, AllocError>
        ensures { IfOk result (λ call. next_call (freeing_rest id.now self.now) ≡ Some call) }
    {
        match &self.stage {
            Stage::Reads => Ok(Call::Get(Key::Block(self.cidr))),
            Stage::Writes(freed) => Ok(Call::Update(
                Record::Block(freed.block.clone()?),
                freed.revision,
            )),
            Stage::Lowers(_, lowering) => lowering.call(alloc, id),
        }
    }

    /// Where the reply leads.
    pub fn took(
        &self,
        alloc: Global,
        id: &str,
        hearing: &Heard,
    ) -> Result<FreeingTurned, AllocError>
        requires { MayHear (freeing_rest id.now self.now) (said hearing.now.reply) }
        ensures { IfOk result (λ turned. freeing_leaves id.now self.now turned
            ≡ after_reply (freeing_rest id.now self.now) hearing.now.moment (said hearing.now.reply)) }
    {
        match &self.stage {
            Stage::Reads => {
                let goes = self.read(id, hearing)?;
                Ok(FreeingTurned { goes })
            }
            Stage::Writes(freed) => {
                let goes = self.written(&freed.amount, hearing);
                Ok(FreeingTurned { goes })
            }
            Stage::Lowers(_, lowering) => {
                let goes = Goes::Lower(lowering.took(alloc, id, hearing)?);
                Ok(FreeingTurned { goes })
            }
        }
    }

    fn read(&self, id: &str, hearing: &Heard) -> Result<Goes, AllocError>
        requires { MayHear (freeing_at id.now self.now.cidr self.now.picks self.now.left Reads) (said hearing.now.reply) }
        ensures { IfOk result (λ goes. freeing_goes id.now self.now goes
            ≡ after_reply (freeing_at id.now self.now.cidr self.now.picks self.now.left Reads) hearing.now.moment (said hearing.now.reply)) }
    {
        match block_in(&hearing.reply) {
            None => Ok(Goes::Ends(Outcome::Went(self.left, 0))),
            Some((revision, found)) => self.found(id, revision, found),
        }
    }

    #[tactic(auto, using(crate::proofs::FreeingLemmas::frees_none))]
    fn found(&self, id: &str, revision: u64, found: &Block) -> Result<Goes, AllocError>
        requires { found.now.sequence < 2 ^ 62 }
        ensures { IfOk result (λ goes. freeing_goes id.now self.now goes
            ≡ freeing_found id.now self.now.cidr self.now.picks self.now.left (Some (revision, found.now))) }
    {
        let mut block = found.next()?;
        let count = freed_in(&mut block, id, self.picks);
        if count == 0 {
            return Ok(Goes::Ends(Outcome::Went(self.left, 0)));
        }
        let freed = Freed::of(block, revision, count);
        Ok(Goes::To(Stage::Writes(freed)))
    }

    #[tactic(auto, using(crate::proofs::TryLaws::again_goes))]
    fn written(&self, amount: &Amount, hearing: &Heard) -> Goes
        ensures { (id : List ℕ) → freeing_goes id self.now result
            ≡ freeing_written id self.now.cidr self.now.picks self.now.left amount.now (said hearing.now.reply) }
    {
        match WriteEnd::of(&hearing.reply) {
            WriteEnd::Took(_) => Goes::To(Stage::Lowers(
                amount.get(),
                Lowering::new(self.cidr, Amount::of(amount.get()), self.left),
            )),
            WriteEnd::Lost => match after_lost(self.left) {
                Ok(left) => Goes::Again(left),
                Err(why) => Goes::Ends(Outcome::Stops(self.left, why)),
            },
            WriteEnd::Full => Goes::Ends(Outcome::Stops(self.left, Stop::NoRoom)),
            WriteEnd::Spent => Goes::Ends(Outcome::Stops(self.left, Stop::NoRevisions)),
        }
    }

    /// Goes where a reply led. Takes no memory.
    pub fn go(&mut self, turned: FreeingTurned) -> Option<Outcome<u32>>
        ensures answer { (id : List ℕ) → result ≡ answer_in (freeing_leaves id self.old turned) }
        ensures on { IfNone result ((id : List ℕ) → freeing_rest id self.new ≡ freeing_leaves id self.old turned) }
    {
        match turned.goes {
            Goes::To(stage) => {
                self.stage = stage;
                None
            }
            Goes::Again(left) => {
                self.left = left;
                self.stage = Stage::Reads;
                None
            }
            Goes::Lower(turned) => lowered(&mut self.stage, turned),
            Goes::Ends(outcome) => Some(outcome),
        }
    }
}

impl Freed {
    fn of(block: Block, revision: u64, count: u32) -> Freed
        requires { 0 < count }
        ensures block { result.block ≡ block }
        ensures revision { result.revision ≡ revision }
        ensures amount { result.amount ≡ count }
    {
        Freed {
            block,
            revision,
            amount: Amount::of(count),
        }
    }
}

/// The lowering goes where a reply led it.
fn lowered(stage: &mut Stage, turned: LoweringTurned) -> Option<Outcome<u32>>
    ensures answer { (id : List ℕ) (cidr : CidrValue) (picks : Picking) (left : Left) → result ≡ answer_in (lowers_leaves id cidr picks left stage.old turned) }
    ensures on { IfNone result ((id : List ℕ) (cidr : CidrValue) (picks : Picking) (left : Left) → freeing_at id cidr picks left stage.new ≡ lowers_leaves id cidr picks left stage.old turned) }
{
    match stage {
        Stage::Lowers(amount, lowering) => match lowering.go(turned) {
            Some(outcome) => Some(with_amount(outcome, *amount)),
            None => None,
        },
        _ => None,
    }
}

/// What the whole came to, where the lowering came to this.
fn with_amount(outcome: Outcome<()>, amount: u32) -> Outcome<u32>
    ensures { result ≡ amount_in amount outcome }
{
    match outcome {
        Outcome::Went(left, ()) => Outcome::Went(left, amount),
        Outcome::Stops(left, why) => Outcome::Stops(left, why),
    }
}

/// Frees what is picked of the handle's, and answers how many ordinals that were.
fn freed_in(block: &mut Block, id: &str, picks: Picks) -> u32
    ensures freed { block.new ≡ block_without (picked id.now picks) block.old }
    ensures count { result ≡ count_by (picked id.now picks) block.old.allocations }
{
    let which = match picks {
        Picks::All => Which::Owned(id),
        Picks::Stamped { ordinal, stamp } => Which::Stamped(ordinal, id, stamp),
    };
    block.free(&which) as u32
}
