ghost use Rattle.std.specs.Prelude.{◌≡◌, ◌<◌, ℕ, List, Some, IfOk, IfNone};
ghost use Rattle.ipam_records.specs.Hearing.{MayHear};
ghost use Rattle.ipam_records.specs.Said.{said};
ghost use Rattle.ipam_records.specs.Word.{next_call, after_reply, answer_in};
ghost use Rattle.ipam_model.specs.Counting.{credit_of, lower, lowering};
ghost use Rattle.ipam_parts.specs.Lowering.{lowering_at, lowering_written, lowering_rest, lowering_goes, lowering_leaves};
ghost use Rattle.ipam_parts.specs.declared.lowering.Stage.TheVariants.{Reads, Writes};

use crate::amount::Amount;
use crate::left::after_lost;
use crate::reading::{handle_in, revision_in};
use crate::write_end::WriteEnd;
use ipam_addr::Cidr;
use ipam_block::Handle;
use ipam_model::{Left, Outcome, Stop};
use ipam_records::{Call, Heard, Key, Record};
use ipam_text::Text;
use std::alloc::{AllocError, Global};

/// A handle's count of a block is lowered, by as much as the handle is known to have: the call that
/// is made next. The handle's id is lent to each call.
pub struct Lowering {
    cidr: Cidr,
    amount: Amount,
    left: Left,
    stage: Stage,
}

impl Drop for Lowering {
    fn drop(self) {
        let Lowering {
            cidr: _,
            amount: _,
            left: _,
            stage: _,
        } = self;
    }
}

#[derive(Drop)]
enum Stage {
    /// The handle is read.
    Reads,
    Writes(Lowered),
}

/// The handle as it is to be written, at the revision at which it was found. One without counts is
/// deleted.
#[derive(Drop)]
struct Lowered {
    handle: Handle,
    revision: u64,
}

/// Where a reply leads.
#[derive(Drop)]
enum Goes {
    Writes(Lowered),
    /// A race was lost, and this is left.
    Again(Left),
    Ends(Outcome<()>),
}

/// Where a reply led.
#[derive(Drop)]
pub struct LoweringTurned {
    goes: Goes,
}

impl Lowering {
    /// The lowering of a handle's count of this block by this amount. `left` bounds the races that
    /// it may lose. The handle's id is given at each call.
    #[tactic(auto, using(crate::proofs::LoweringLemmas::begins))]
    pub fn new(cidr: Cidr, amount: Amount, left: Left) -> Lowering
        ensures { (id : List ℕ) → lowering_rest id result ≡ lower (credit_of id cidr amount) left }
    {
        Lowering {
            cidr,
            amount,
            left,
            stage: Stage::Reads,
        }
    }

    /// The next call.
    pub fn call(&self, alloc: Global, id: &str) -> Result<Call, AllocError>
        ensures { IfOk result (λ call. next_call (lowering_rest id.now self.now) ≡ Some call) }
    {
        match &self.stage {
            Stage::Reads => Ok(Call::Get(Key::Handle(Text::copied(alloc, id)?))),
            Stage::Writes(lowered) => lowered.call(alloc),
        }
    }

    /// Where the reply leads.
    pub fn took(
        &self,
        alloc: Global,
        id: &str,
        hearing: &Heard,
    ) -> Result<LoweringTurned, AllocError>
        requires { MayHear (lowering_rest id.now self.now) (said hearing.now.reply) }
        ensures { IfOk result (λ turned. lowering_leaves id.now self.now turned
            ≡ after_reply (lowering_rest id.now self.now) hearing.now.moment (said hearing.now.reply)) }
    {
        match &self.stage {
            Stage::Reads => {
                let goes = Goes::Writes(self.read(alloc, id, hearing)?);
                Ok(LoweringTurned { goes })
            }
            Stage::Writes(_) => {
                let goes = self.written(hearing);
                Ok(LoweringTurned { goes })
            }
        }
    }

    #[tactic(auto, using(crate::proofs::LoweringLemmas::is_within))]
    fn read(&self, alloc: Global, id: &str, hearing: &Heard) -> Result<Lowered, AllocError>
        requires { MayHear (lowering_at id.now self.now.cidr self.now.amount self.now.left Reads) (said hearing.now.reply) }
        ensures { IfOk result (λ lowered. lowering_at id.now self.now.cidr self.now.amount self.now.left (Writes lowered)
            ≡ after_reply (lowering_at id.now self.now.cidr self.now.amount self.now.left Reads) hearing.now.moment (said hearing.now.reply)) }
    {
        let mut handle = handle_in(alloc, id, &hearing.reply)?;
        let revision = revision_in(&hearing.reply).unwrap_or(0);
        handle.lower(self.cidr, self.amount.get());
        Ok(Lowered { handle, revision })
    }

    #[tactic(auto, using(crate::proofs::TryLaws::again_goes))]
    fn written(&self, hearing: &Heard) -> Goes
        ensures { (id : List ℕ) → lowering_goes id self.now result
            ≡ lowering_written id self.now.cidr self.now.amount self.now.left (said hearing.now.reply) }
    {
        match WriteEnd::of(&hearing.reply) {
            WriteEnd::Took(_) => Goes::Ends(Outcome::Went(self.left, ())),
            WriteEnd::Lost => match after_lost(self.left) {
                Ok(left) => Goes::Again(left),
                Err(why) => Goes::Ends(Outcome::Stops(self.left, why)),
            },
            WriteEnd::Full => Goes::Ends(Outcome::Stops(self.left, Stop::NoRoom)),
            WriteEnd::Spent => Goes::Ends(Outcome::Stops(self.left, Stop::NoRevisions)),
        }
    }

    /// Goes where a reply led. Takes no memory.
    pub fn go(&mut self, turned: LoweringTurned) -> Option<Outcome<()>>
        ensures answer { (id : List ℕ) → result ≡ answer_in (lowering_leaves id self.old turned) }
        ensures on { IfNone result ((id : List ℕ) → lowering_rest id self.new ≡ lowering_leaves id self.old turned) }
    {
        match turned.goes {
            Goes::Writes(lowered) => {
                self.stage = Stage::Writes(lowered);
                None
            }
            Goes::Again(left) => {
                self.left = left;
                self.stage = Stage::Reads;
                None
            }
            Goes::Ends(outcome) => Some(outcome),
        }
    }
}

impl Lowered {
    fn call(&self, alloc: Global) -> Result<Call, AllocError>
        ensures { IfOk result (λ call. call ≡ lowering self.now.handle self.now.revision) }
    {
        if self.handle.is_empty() {
            let id = Text::copied(alloc, self.handle.id())?;
            return Ok(Call::Delete(Key::Handle(id), self.revision));
        }
        let handle = self.handle.clone()?;
        Ok(Call::Update(Record::Handle(handle), self.revision))
    }
}
