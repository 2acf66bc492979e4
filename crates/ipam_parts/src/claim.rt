ghost use Rattle.std.specs.Prelude.{◌≡◌, ◌≤◌, ◌<◌, ◌^◌, ℕ, List, Option, Some, None, IfOk, IfSome, IfNone, IsSome};
ghost use Rattle.ipam_addr.specs.Shape.{CidrValue};
ghost use Rattle.ipam_addr.specs.Width.{cidr_size};
ghost use Rattle.ipam_block.specs.declared.limits.TheConstants.{ADDRESSES_MAX};
ghost use Rattle.ipam_records.specs.declared.record.Record.TheVariants as record_of;
ghost use Rattle.ipam_records.specs.Hearing.{MayHear};
ghost use Rattle.ipam_records.specs.Said.{said, Can};
ghost use Rattle.ipam_records.specs.Word.{next_call, after_reply, answer_in};
ghost use Rattle.ipam_model.specs.Affinities.{BlockRead, affinity, claim, claim_found, claiming};
ghost use Rattle.ipam_model.specs.Reads.{affinity_said};
ghost use Rattle.ipam_parts.specs.Claim.{lent_block, claim_at, writing_at, claim_rest, claim_leaves, claim_goes};

use crate::found::{BlockCidr, FoundBlock};
use crate::write_end::WriteEnd;
use ipam_addr::Cidr;
use ipam_block::{Affinity, Block, State};
use ipam_model::ClaimAnswer;
use ipam_records::{Call, Heard, Key, Procedure, Record, Reply};
use ipam_text::Text;
use std::alloc::{AllocError, Global};

/// The call that a claim makes next.
#[derive(Clone, Copy)]
enum Stage {
    /// The affinity is read.
    Looks,
    Writes(Writing),
}

/// What a claim writes next.
#[derive(Clone, Copy)]
enum Writing {
    /// The affinity was missing, and is created.
    Creates,
    /// It was to be deleted at this revision, and is taken back.
    TakesBack(u64),
    /// The block is written. The affinity has this revision.
    Claims(u64),
    /// The affinity is confirmed at this revision.
    Confirms(u64),
}

/// Where a reply leads.
#[derive(Clone, Copy)]
enum Goes {
    To(Stage),
    Answers(ClaimAnswer),
}

/// Where a reply led a claim.
#[derive(Drop)]
pub struct ClaimTurned {
    goes: Goes,
}

/// A claim of a block by a node. The block was read before. A lost race ends the claim.
pub struct ClaimProc {
    node: Text,
    cidr: BlockCidr,
    read: Option<FoundBlock>,
    stage: Stage,
}

impl Drop for ClaimProc {
    fn drop(self) {
        let ClaimProc {
            node: _,
            cidr: _,
            read: _,
            stage: _,
        } = self;
    }
}

impl ClaimProc {
    /// A claim of the block of this CIDR, as it was read with its revision, or found missing.
    pub fn new(
        alloc: Global,
        node: &str,
        cidr: Cidr,
        read: Option<(u64, &Block)>,
    ) -> Result<ClaimProc, AllocError>
        requires small { cidr_size cidr ≤ ADDRESSES_MAX }
        requires counted { IfSome (lent_block read) (λ found. found.1.sequence < 2 ^ 62) }
        ensures { IfOk result (λ p. claim_rest p ≡ claim node.now cidr (lent_block read.entry)) }
    {
        let node = Text::copied(alloc, node)?;
        let read = copied(read)?;
        Ok(ClaimProc {
            node,
            cidr: BlockCidr::of(cidr),
            read,
            stage: Stage::Looks,
        })
    }

    fn affinity(&self, state: State) -> Result<Record, AllocError>
        ensures { IfOk result (λ new. new ≡ record_of.Affinity (affinity self.now.node self.now.cidr state)) }
    {
        let node = self.node.clone()?;
        Ok(Record::Affinity(Affinity {
            node,
            cidr: self.cidr.get(),
            state,
        }))
    }

    /// The write of the block: as it was read with the node, or a fresh one.
    fn claiming(&self, alloc: Global) -> Result<Call, AllocError>
        ensures { IfOk result (λ call. call ≡ claiming self.now.node self.now.cidr self.now.read) }
    {
        let node = Some(self.node.as_str());
        match &self.read {
            None => {
                let block = Block::fresh(alloc, self.cidr.get(), node)?;
                Ok(Call::Create(Record::Block(block)))
            }
            Some(found) => {
                let mut block = found.next()?;
                block.set_affinity(node)?;
                Ok(Call::Update(Record::Block(block), found.revision()))
            }
        }
    }

    fn write(&self, alloc: Global, writing: Writing) -> Result<Call, AllocError>
        ensures { IfOk result (λ call. next_call (writing_at self.now.node self.now.cidr self.now.read writing) ≡ Some call) }
    {
        match writing {
            Writing::Creates => Ok(Call::Create(self.affinity(State::Pending)?)),
            Writing::TakesBack(revision) => {
                Ok(Call::Update(self.affinity(State::Pending)?, revision))
            }
            Writing::Claims(_) => self.claiming(alloc),
            Writing::Confirms(revision) => {
                Ok(Call::Update(self.affinity(State::Confirmed)?, revision))
            }
        }
    }
}

impl Procedure for ClaimProc {
    type Turned = ClaimTurned;

    type Answer = ClaimAnswer;

    ghost rest = { claim_rest };

    ghost leaves = { claim_leaves };

    ghost fits = { λ p turned. Unit {0} };

    #[tactic(auto, unfolding(ipam_model::specs::Affinities::claim))]
    fn call(&self, alloc: Global) -> Result<Call, AllocError> {
        match self.stage {
            Stage::Looks => Ok(Call::Get(Key::Affinity(self.node.clone()?, self.cidr.get()))),
            Stage::Writes(writing) => self.write(alloc, writing),
        }
    }

    #[tactic(auto, unfolding(ipam_model::specs::Affinities::claim))]
    fn took(&self, _alloc: Global, hearing: &Heard) -> Result<ClaimTurned, AllocError> {
        let goes = match self.stage {
            Stage::Looks => Goes::To(found(&hearing.reply)),
            Stage::Writes(writing) => written(writing, &hearing.reply),
        };
        Ok(ClaimTurned { goes })
    }

    #[tactic(auto, using(crate::proofs::StageLemmas::goes_on))]
    fn go(&mut self, turned: ClaimTurned) -> Option<ClaimAnswer> {
        match turned.goes {
            Goes::To(stage) => {
                self.stage = stage;
                None
            }
            Goes::Answers(answer) => Some(answer),
        }
    }
}

fn copied(read: Option<(u64, &Block)>) -> Result<Option<FoundBlock>, AllocError>
    requires { IfSome (lent_block read) (λ found. found.1.sequence < 2 ^ 62) }
    ensures { IfOk result (λ copy. copy ≡ lent_block read.entry) }
{
    match read {
        None => Ok(None),
        Some((revision, block)) => Ok(Some(FoundBlock::of(revision, block)?)),
    }
}

/// Where the affinity that was read leads. One that is to be deleted is taken back.
fn found(reply: &Reply) -> Stage
    ensures { (node : List ℕ) (cidr : CidrValue) (read : BlockRead)
        → claim_at node cidr read result ≡ claim_found node cidr read (affinity_said (said reply.now)) }
{
    match reply {
        Reply::Found(revision, Record::Affinity(affinity)) => match affinity.state {
            State::PendingDeletion => Stage::Writes(Writing::TakesBack(*revision)),
            State::Pending | State::Confirmed => Stage::Writes(Writing::Claims(*revision)),
        },
        _ => Stage::Writes(Writing::Creates),
    }
}

/// Where a write leads that was answered so.
fn written(writing: Writing, reply: &Reply) -> Goes
    ensures { (node : List ℕ) (cidr : CidrValue) (read : BlockRead) (moment : ℕ)
        → claim_goes node cidr read result ≡ after_reply (writing_at node cidr read writing) moment (said reply.now) }
{
    match WriteEnd::of(reply) {
        WriteEnd::Took(revision) => took(writing, revision),
        WriteEnd::Lost => Goes::Answers(ClaimAnswer::Lost),
        WriteEnd::Full => Goes::Answers(ClaimAnswer::Full),
        WriteEnd::Spent => Goes::Answers(ClaimAnswer::Spent),
    }
}

/// Where a write leads that took this revision.
fn took(writing: Writing, revision: u64) -> Goes
    ensures { (node : List ℕ) (cidr : CidrValue) (read : BlockRead) (moment : ℕ)
        → claim_goes node cidr read result ≡ after_reply (writing_at node cidr read writing) moment (Can revision) }
{
    match writing {
        Writing::Creates | Writing::TakesBack(_) => {
            Goes::To(Stage::Writes(Writing::Claims(revision)))
        }
        Writing::Claims(kept) => Goes::To(Stage::Writes(Writing::Confirms(kept))),
        Writing::Confirms(_) => Goes::Answers(ClaimAnswer::Confirmed),
    }
}
