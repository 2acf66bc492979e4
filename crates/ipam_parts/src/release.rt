ghost use Rattle.std.specs.Prelude.{◌≡◌, ◌≤◌, ◌<◌, ◌^◌, ◌==◌, ℕ, List, Bool, Option, Some, None, IfOk, IfSome, IfNone, IsSome, option_map};
ghost use Rattle.ipam_addr.specs.Width.{cidr_size};
ghost use Rattle.ipam_block.specs.declared.limits.TheConstants.{ADDRESSES_MAX};
ghost use Rattle.ipam_records.specs.declared.key.Key.TheVariants as key_of;
ghost use Rattle.ipam_records.specs.declared.record.Record.TheVariants as record_of;
ghost use Rattle.ipam_block.specs.declared.state.State.TheVariants.{PendingDeletion};
ghost use Rattle.ipam_records.specs.Hearing.{MayHear};
ghost use Rattle.ipam_records.specs.Said.{said, Can};
ghost use Rattle.ipam_records.specs.Word.{next_call, after_reply, answer_in};
ghost use Rattle.ipam_block.specs.Operations.{affine_to, next_block};
ghost use Rattle.ipam_model.specs.Affinities.{affinity, baring, other_node, release, release_stops};
ghost use Rattle.ipam_model.specs.Reads.{affinity_said};
ghost use Rattle.ipam_model.specs.Step.{as_word};
ghost use Rattle.ipam_parts.specs.declared.release.Stage.TheVariants.{Reads, Writes};
ghost use Rattle.ipam_parts.specs.Release.{tie_of, release_again, stage_at_mark, release_at, release_rest, release_leaves, release_goes};

use crate::found::{BlockCidr, FoundBlock, found_block};
use crate::left::{after_lost, all_left};
use crate::write_end::WriteEnd;
use ipam_addr::Cidr;
use ipam_block::{Affinity, Block, State};
use ipam_model::{LOST_RACES_MAX, Left, ReleaseAnswer};
use ipam_records::{Call, Heard, Key, Procedure, Record, Reply};
use ipam_text::Text;
use std::alloc::{AllocError, Global};
use std::mem;

/// What a release has seen: the revision of its mark, and the block as it was read after it.
#[derive(Drop)]
struct Marked {
    mark: u64,
    read: Option<FoundBlock>,
}

/// The call that a release makes next.
#[derive(Drop)]
enum Stage {
    Reads(Reading),
    Writes(Writing),
}

#[derive(Drop)]
enum Reading {
    /// The affinity is read.
    Affinity,
    /// The block is read. The mark has this revision.
    Block(u64),
    /// The affinity is read again.
    Again(Marked),
}

#[derive(Drop)]
enum Writing {
    /// The affinity is marked for deletion at this revision.
    Marks(u64),
    /// The block is written without the node.
    Bares(Marked),
    /// The affinity is deleted by its mark.
    Deletes(u64),
}

/// Where a reply leads.
#[derive(Drop)]
enum Goes {
    To(Stage),
    /// The affinity was found at its mark.
    AtMark,
    /// A race was lost, and this is left.
    Again(Left),
    Answers(ReleaseAnswer),
}

/// Where a reply led a release.
#[derive(Drop)]
pub struct ReleaseTurned {
    goes: Goes,
}

/// The release of a node's affinity to a block.
pub struct ReleaseAffinityProc {
    node: Text,
    cidr: BlockCidr,
    left: Left,
    stage: Stage,
}

impl Drop for ReleaseAffinityProc {
    fn drop(self) {
        let ReleaseAffinityProc {
            node: _,
            cidr: _,
            left: _,
            stage: _,
        } = self;
    }
}

impl ReleaseAffinityProc {
    /// The release of the node's affinity to the block of this CIDR.
    #[tactic(auto, using(crate::proofs::ReleaseLemmas::begins))]
    pub fn new(alloc: Global, node: &str, cidr: Cidr) -> Result<ReleaseAffinityProc, AllocError>
        requires { cidr_size cidr ≤ ADDRESSES_MAX }
        ensures { IfOk result (λ p. release_rest p ≡ release node.now cidr) }
    {
        let node = Text::copied(alloc, node)?;
        Ok(ReleaseAffinityProc {
            node,
            cidr: BlockCidr::of(cidr),
            left: all_left(),
            stage: Stage::Reads(Reading::Affinity),
        })
    }

    fn key(&self) -> Result<Key, AllocError>
        ensures { IfOk result (λ key. key ≡ key_of.Affinity self.now.node self.now.cidr) }
    {
        Ok(Key::Affinity(self.node.clone()?, self.cidr.get()))
    }

    /// The affinity as it is marked for deletion.
    fn marked(&self) -> Result<Record, AllocError>
        ensures { IfOk result (λ new. new ≡ record_of.Affinity (affinity self.now.node self.now.cidr PendingDeletion)) }
    {
        let node = self.node.clone()?;
        Ok(Record::Affinity(Affinity {
            node,
            cidr: self.cidr.get(),
            state: State::PendingDeletion,
        }))
    }

    /// The write of the block: as it was read without the node, or a fresh one.
    fn baring(&self, alloc: Global, read: &Option<FoundBlock>) -> Result<Call, AllocError>
        ensures { IfOk result (λ call. call ≡ baring self.now.node self.now.cidr read.now) }
    {
        match read {
            None => {
                let block = Block::fresh(alloc, self.cidr.get(), None)?;
                Ok(Call::Create(Record::Block(block)))
            }
            Some(found) => Ok(Call::Update(
                Record::Block(bared(found, &self.node)?),
                found.revision(),
            )),
        }
    }

    fn read(&self, reading: &Reading) -> Result<Call, AllocError>
        ensures { IfOk result (λ call. next_call (release_at (tie_of self.now) self.now.left (Reads reading.now)) ≡ Some call) }
    {
        match reading {
            Reading::Affinity | Reading::Again(_) => Ok(Call::Get(self.key()?)),
            Reading::Block(_) => Ok(Call::Get(Key::Block(self.cidr.get()))),
        }
    }

    fn write(&self, alloc: Global, writing: &Writing) -> Result<Call, AllocError>
        ensures { IfOk result (λ call. next_call (release_at (tie_of self.now) self.now.left (Writes writing.now)) ≡ Some call) }
    {
        match writing {
            Writing::Marks(revision) => Ok(Call::Update(self.marked()?, *revision)),
            Writing::Bares(marked) => self.baring(alloc, &marked.read),
            Writing::Deletes(mark) => Ok(Call::Delete(self.key()?, *mark)),
        }
    }

    /// Where what was read leads.
    #[tactic(auto, using(crate::proofs::ReleaseLemmas::read_counted))]
    fn after_read(&self, reading: &Reading, hearing: &Heard) -> Result<Goes, AllocError>
        requires heard { MayHear (release_at (tie_of self.now) self.now.left (Reads reading.now)) (said hearing.now.reply) }
        requires here { self.now.stage ≡ Reads reading.now }
        ensures { IfOk result (λ goes. release_goes self.now goes
            ≡ after_reply (release_at (tie_of self.now) self.now.left (Reads reading.now)) hearing.now.moment (said hearing.now.reply)) }
    {
        match reading {
            Reading::Affinity => Ok(match affinity_in(&hearing.reply) {
                None => Goes::Answers(ReleaseAnswer::NoAffinity(hearing.moment)),
                Some(revision) => Goes::To(Stage::Writes(Writing::Marks(revision))),
            }),
            Reading::Block(mark) => {
                let read = found_block(&hearing.reply)?;
                let mark = *mark;
                Ok(Goes::To(Stage::Reads(Reading::Again(Marked { mark, read }))))
            }
            Reading::Again(marked) => Ok(match affinity_in(&hearing.reply) {
                Some(revision) if revision == marked.mark => Goes::AtMark,
                _ => self.lost(),
            }),
        }
    }

    /// Where a lost race leads.
    #[tactic(auto, using(crate::proofs::TryLaws::lost_goes))]
    fn lost(&self) -> Goes
        ensures { release_goes self.now result ≡ as_word release_stops (release_again (tie_of self.now) self.now.left) }
    {
        match after_lost(self.left) {
            Ok(left) => Goes::Again(left),
            Err(_) => Goes::Answers(ReleaseAnswer::Again(LOST_RACES_MAX)),
        }
    }

    /// Where a write leads that was answered so.
    fn after_write(&self, writing: &Writing, hearing: &Heard) -> Goes
        ensures { release_goes self.now result
            ≡ after_reply (release_at (tie_of self.now) self.now.left (Writes writing.now)) hearing.now.moment (said hearing.now.reply) }
    {
        match WriteEnd::of(&hearing.reply) {
            WriteEnd::Took(revision) => took(writing, revision),
            WriteEnd::Lost => self.lost(),
            WriteEnd::Full => Goes::Answers(ReleaseAnswer::Full),
            WriteEnd::Spent => Goes::Answers(ReleaseAnswer::Spent),
        }
    }
}

impl Procedure for ReleaseAffinityProc {
    type Turned = ReleaseTurned;

    type Answer = ReleaseAnswer;

    ghost rest = { release_rest };

    ghost leaves = { release_leaves };

    ghost fits = { λ p turned. Unit {0} };

    fn call(&self, alloc: Global) -> Result<Call, AllocError> {
        match &self.stage {
            Stage::Reads(reading) => self.read(reading),
            Stage::Writes(writing) => self.write(alloc, writing),
        }
    }

    fn took(&self, _alloc: Global, hearing: &Heard) -> Result<ReleaseTurned, AllocError> {
        let goes = match &self.stage {
            Stage::Reads(reading) => self.after_read(reading, hearing)?,
            Stage::Writes(writing) => self.after_write(writing, hearing),
        };
        Ok(ReleaseTurned { goes })
    }

    fn go(&mut self, turned: ReleaseTurned) -> Option<ReleaseAnswer> {
        match turned.goes {
            Goes::To(stage) => {
                self.stage = stage;
                None
            }
            Goes::AtMark => {
                let stage = mem::replace(&mut self.stage, Stage::Reads(Reading::Affinity));
                self.stage = at_mark(stage);
                None
            }
            Goes::Again(left) => {
                self.left = left;
                self.stage = Stage::Reads(Reading::Affinity);
                None
            }
            Goes::Answers(answer) => Some(answer),
        }
    }
}

/// Where a write leads that took this revision.
fn took(writing: &Writing, revision: u64) -> Goes
    ensures { (p : ReleaseAffinityProc) (moment : ℕ) → release_goes p result
        ≡ after_reply (release_at (tie_of p) p.left (Writes writing.now)) moment (Can revision) }
{
    match writing {
        Writing::Marks(_) => Goes::To(Stage::Reads(Reading::Block(revision))),
        Writing::Bares(marked) => Goes::To(Stage::Writes(Writing::Deletes(marked.mark))),
        Writing::Deletes(_) => Goes::Answers(ReleaseAnswer::Released),
    }
}

/// The stage after the second read, where the affinity was at its mark.
fn at_mark(stage: Stage) -> Stage
    ensures { result ≡ stage_at_mark stage }
{
    match stage {
        Stage::Reads(Reading::Again(marked)) => Stage::Writes(Writing::Bares(marked)),
        other => other,
    }
}

/// The next write of the block, without this node.
fn bared(found: &FoundBlock, node: &Text) -> Result<Block, AllocError>
    ensures { IfOk result (λ b. b ≡ affine_to (other_node node.now found.now.1.node) (next_block found.now.1)) }
{
    let mut block = found.next()?;
    let is_of_node = match found.block().node() {
        Some(held) => held == node.as_str(),
        None => false,
    };
    if is_of_node {
        block.set_affinity(None)?;
    }
    Ok(block)
}

/// The revision of the affinity that was found.
fn affinity_in(reply: &Reply) -> Option<u64>
    ensures { result ≡ option_map (λ found. found.0) (affinity_said (said reply.now)) }
{
    match reply {
        Reply::Found(revision, Record::Affinity(_)) => Some(*revision),
        _ => None,
    }
}
