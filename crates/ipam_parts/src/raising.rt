ghost use Rattle.std.specs.Prelude.{◌≡◌, ℕ, List, Some, IfOk, IfNone};
ghost use Rattle.ipam_records.specs.Hearing.{MayHear};
ghost use Rattle.ipam_records.specs.Said.{said};
ghost use Rattle.ipam_records.specs.Word.{next_call, after_reply, answer_in};
ghost use Rattle.ipam_model.specs.Counting.{raise};
ghost use Rattle.ipam_parts.specs.Raising.{raising_at, raising_written, raising_rest, raising_goes, raising_leaves};
ghost use Rattle.ipam_parts.specs.declared.raising.Stage.TheVariants.{Reads};

use crate::left::after_lost;
use crate::reading::{handle_in, revision_in};
use crate::write_end::WriteEnd;
use ipam_addr::Cidr;
use ipam_block::{Handle, RaiseFault};
use ipam_model::{Left, Outcome, Stop};
use ipam_records::{Call, Heard, Key, Record};
use ipam_text::Text;
use std::alloc::{AllocError, Global};

/// A handle's count of a block is raised by one: the call that is made next. The handle's id is
/// lent to each call.
pub struct Raising {
    cidr: Cidr,
    left: Left,
    stage: Stage,
}

impl Drop for Raising {
    fn drop(self) {
        let Raising {
            cidr: _,
            left: _,
            stage: _,
        } = self;
    }
}

#[derive(Drop)]
enum Stage {
    /// The handle is read.
    Reads,
    Writes(Raised),
}

/// The handle as it is to be written, at the revision at which it was found.
#[derive(Drop)]
struct Raised {
    handle: Handle,
    revision: Option<u64>,
}

/// Where a reply leads.
#[derive(Drop)]
enum Goes {
    Writes(Raised),
    /// A race was lost, and this is left.
    Again(Left),
    Ends(Outcome<()>),
}

/// Where a reply led.
#[derive(Drop)]
pub struct RaisingTurned {
    goes: Goes,
}

impl Raising {
    /// The raising of a handle's count of this block by one. `left` bounds the races that it may
    /// lose. The handle's id is given at each call.
    #[tactic(auto, using(crate::proofs::RaisingLemmas::begins))]
    pub fn new(cidr: Cidr, left: Left) -> Raising
        ensures { (id : List ℕ) → raising_rest id result ≡ raise id cidr left }
    {
        Raising {
            cidr,
            left,
            stage: Stage::Reads,
        }
    }

    /// The next call.
    pub fn call(&self, alloc: Global, id: &str) -> Result<Call, AllocError>
        ensures { IfOk result (λ call. next_call (raising_rest id.now self.now) ≡ Some call) }
    {
        match &self.stage {
            Stage::Reads => Ok(Call::Get(Key::Handle(Text::copied(alloc, id)?))),
            Stage::Writes(raised) => {
                let new = Record::Handle(raised.handle.clone()?);
                Ok(match raised.revision {
                    Some(revision) => Call::Update(new, revision),
                    None => Call::Create(new),
                })
            }
        }
    }

    /// Where the reply leads.
    pub fn took(
        &self,
        alloc: Global,
        id: &str,
        hearing: &Heard,
    ) -> Result<RaisingTurned, AllocError>
        ensures { IfOk result (λ turned. raising_leaves id.now self.now turned
            ≡ after_reply (raising_rest id.now self.now) hearing.now.moment (said hearing.now.reply)) }
    {
        match &self.stage {
            Stage::Reads => {
                let goes = self.read(alloc, id, hearing)?;
                Ok(RaisingTurned { goes })
            }
            Stage::Writes(_) => {
                let goes = self.written(hearing);
                Ok(RaisingTurned { goes })
            }
        }
    }

    fn read(&self, alloc: Global, id: &str, hearing: &Heard) -> Result<Goes, AllocError>
        ensures { IfOk result (λ goes. raising_goes id.now self.now goes
            ≡ after_reply (raising_at id.now self.now.cidr self.now.left Reads) hearing.now.moment (said hearing.now.reply)) }
    {
        let mut handle = handle_in(alloc, id, &hearing.reply)?;
        let revision = revision_in(&hearing.reply);
        match handle.raise(self.cidr, 1) {
            Ok(()) => Ok(Goes::Writes(Raised { handle, revision })),
            Err(RaiseFault::CountFull) => Ok(Goes::Ends(Outcome::Stops(
                self.left,
                Stop::CountAtLimit(hearing.moment),
            ))),
            Err(RaiseFault::Memory) => Err(AllocError),
        }
    }

    #[tactic(auto, using(crate::proofs::TryLaws::again_goes))]
    fn written(&self, hearing: &Heard) -> Goes
        ensures { (id : List ℕ) → raising_goes id self.now result
            ≡ raising_written id self.now.cidr self.now.left (said hearing.now.reply) }
    {
        match WriteEnd::of(&hearing.reply) {
            WriteEnd::Took(_) => Goes::Ends(Outcome::Went(self.left, ())),
            WriteEnd::Lost => match after_lost(self.left) {
                Ok(left) => Goes::Again(left),
                Err(why) => Goes::Ends(Outcome::Stops(self.left, why)),
            },
            WriteEnd::Full => Goes::Ends(Outcome::Stops(self.left, Stop::NoRoom)),
            WriteEnd::Spent => Goes::Ends(Outcome::Stops(self.left, Stop::NoRevisions)),
        }
    }

    /// Goes where a reply led. Takes no memory.
    pub fn go(&mut self, turned: RaisingTurned) -> Option<Outcome<()>>
        ensures answer { (id : List ℕ) → result ≡ answer_in (raising_leaves id self.old turned) }
        ensures on { IfNone result ((id : List ℕ) → raising_rest id self.new ≡ raising_leaves id self.old turned) }
    {
        match turned.goes {
            Goes::Writes(raised) => {
                self.stage = Stage::Writes(raised);
                None
            }
            Goes::Again(left) => {
                self.left = left;
                self.stage = Stage::Reads;
                None
            }
            Goes::Ends(outcome) => Some(outcome),
        }
    }
}
