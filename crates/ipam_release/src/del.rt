ghost use Rattle.std.specs.Prelude.{◌≡◌, ◌∷◌, ℕ, List, map, IfOk, IfNone};
ghost use Rattle.ipam_records.specs.Hearing.{MayHear};
ghost use Rattle.ipam_records.specs.Said.{said};
ghost use Rattle.ipam_records.specs.Word.{next_call, after_reply, answer_in};
ghost use Rattle.ipam_model.specs.Reads.{handle_said};
ghost use Rattle.ipam_model.specs.Remove.{del_word, del_stops, del_blocks};
ghost use Rattle.ipam_model.specs.Step.{all_left as every_try, as_word, stop_answer};
ghost use Rattle.ipam_release.specs.Del.{blocks_left, del_rest, del_leaves, del_goes, del_at, frees_leaves, parts_at, parts_leaves};

use ipam_addr::Cidr;
use ipam_model::{DelAnswer, LOST_RACES_MAX, Left, Outcome, Stop};
use ipam_parts::{Freeing, FreeingTurned, Picks, all_left, first_of, lost_so_far};
use ipam_records::{Call, Heard, Key, Procedure, Record, Reply};
use ipam_text::Text;
use std::alloc::{AllocError, Global};
use std::collections::VecDeque;

/// A DEL of a handle: all that it holds is freed, block by block.
pub struct DelProc {
    id: Text,
    stage: Stage,
}

impl Drop for DelProc {
    fn drop(self) {
        let DelProc { id: _, stage: _ } = self;
    }
}

/// The call that a DEL makes next.
#[derive(Drop)]
enum Stage {
    /// The handle is read.
    Reads,
    Frees(Frees),
}

/// What the handle holds in a block is freed, and then in each of the others. The handle was read
/// at the moment.
#[derive(Drop)]
struct Frees {
    moment: u64,
    freeing: Freeing,
    blocks: VecDeque<Cidr>,
}

/// Where a reply leads.
#[derive(Drop)]
enum Goes {
    To(Stage),
    /// The freeing goes on.
    Frees(FreeingTurned),
    Answers(DelAnswer),
}

/// Where a reply led a DEL.
#[derive(Drop)]
pub struct DelTurned {
    goes: Goes,
}

impl DelProc {
    /// A DEL of the handle of this id.
    pub fn new(alloc: Global, handle: &str) -> Result<DelProc, AllocError>
        ensures { IfOk result (λ p. del_rest p ≡ del_word handle.now) }
    {
        let id = Text::copied(alloc, handle)?;
        let stage = Stage::Reads;
        Ok(DelProc { id, stage })
    }
}

impl Procedure for DelProc {
    type Turned = DelTurned;

    type Answer = DelAnswer;

    ghost rest = { del_rest };

    ghost leaves = { del_leaves };

    ghost fits = { λ p turned. Unit {0} };

    #[tactic(auto, using(crate::proofs::DelLemmas::asks))]
    fn call(&self, alloc: Global) -> Result<Call, AllocError> {
        match &self.stage {
            Stage::Reads => Ok(Call::Get(Key::Handle(self.id.clone()?))),
            Stage::Frees(frees) => frees.freeing.call(alloc, self.id.as_str()),
        }
    }

    fn took(&self, alloc: Global, hearing: &Heard) -> Result<DelTurned, AllocError> {
        match &self.stage {
            Stage::Reads => {
                let goes = begun(hearing.moment, blocks_in(alloc, &hearing.reply)?);
                Ok(DelTurned { goes })
            }
            Stage::Frees(frees) => {
                let goes = Goes::Frees(frees.took(alloc, self.id.as_str(), hearing)?);
                Ok(DelTurned { goes })
            }
        }
    }

    fn go(&mut self, turned: DelTurned) -> Option<DelAnswer> {
        match turned.goes {
            Goes::To(stage) => {
                self.stage = stage;
                None
            }
            Goes::Frees(turned) => freed(&mut self.stage, turned),
            Goes::Answers(answer) => Some(answer),
        }
    }
}

impl Frees {
    #[tactic(auto, using(crate::proofs::DelLemmas::begins))]
    fn new(moment: u64, cidr: Cidr, left: Left, blocks: VecDeque<Cidr>) -> Frees
        ensures { (id : List ℕ) → parts_at id result ≡ blocks_left id moment (cidr ∷ blocks.items) left }
    {
        let freeing = Freeing::new(cidr, Picks::All, left);
        Frees {
            moment,
            freeing,
            blocks,
        }
    }

    #[tactic(auto, using(crate::proofs::DelLemmas::may_hear, crate::proofs::DelLemmas::hears))]
    fn took(&self, alloc: Global, id: &str, hearing: &Heard) -> Result<FreeingTurned, AllocError>
        requires { MayHear (parts_at id.now self.now) (said hearing.now.reply) }
        ensures { IfOk result (λ turned. parts_leaves id.now self.now turned
            ≡ after_reply (parts_at id.now self.now) hearing.now.moment (said hearing.now.reply)) }
    {
        let turned = self.freeing.took(alloc, id, hearing)?;
        Ok(turned)
    }

    /// The freeing goes where a reply led it, and once it has come to an end, to the next block.
    #[tactic(auto, using(crate::proofs::DelLemmas::stops, crate::proofs::DelLemmas::goes_on))]
    fn go(&mut self, turned: FreeingTurned) -> Option<DelAnswer>
        ensures answer { (id : List ℕ) → result ≡ answer_in (parts_leaves id self.old turned) }
        ensures on { IfNone result ((id : List ℕ) → parts_at id self.new ≡ parts_leaves id self.old turned) }
    {
        match self.freeing.go(turned) {
            None => None,
            Some(Outcome::Stops(left, why)) => Some(stopped(left, why)),
            Some(Outcome::Went(left, _)) => self.next(left),
        }
    }

    /// Goes to the next block, or answers where there is none.
    #[tactic(auto, using(crate::proofs::DelLemmas::begins, crate::proofs::DelLemmas::none_left))]
    fn next(&mut self, left: Left) -> Option<DelAnswer>
        ensures answer { (id : List ℕ) → result ≡ answer_in (blocks_left id self.old.moment self.old.blocks.items left) }
        ensures on { IfNone result ((id : List ℕ) → parts_at id self.new ≡ blocks_left id self.old.moment self.old.blocks.items left) }
    {
        match first_of(&mut self.blocks) {
            Some(cidr) => {
                self.freeing = Freeing::new(cidr, Picks::All, left);
                None
            }
            None => Some(DelAnswer::Deleted(self.moment)),
        }
    }
}

/// The freeing goes where a reply led it.
fn freed(stage: &mut Stage, turned: FreeingTurned) -> Option<DelAnswer>
    ensures answer { (id : List ℕ) → result ≡ answer_in (frees_leaves id stage.old turned) }
    ensures on { IfNone result ((id : List ℕ) → del_at id stage.new ≡ frees_leaves id stage.old turned) }
{
    match stage {
        Stage::Frees(frees) => frees.go(turned),
        Stage::Reads => None,
    }
}

/// Where the read of the handle leads, with these blocks.
#[tactic(auto, using(crate::proofs::DelLemmas::none_left))]
fn begun(moment: u64, blocks: VecDeque<Cidr>) -> Goes
    ensures { (p : DelProc) → del_goes p result ≡ blocks_left p.id moment blocks.items every_try }
{
    let mut blocks = blocks;
    match first_of(&mut blocks) {
        Some(cidr) => {
            let frees = Frees::new(moment, cidr, all_left(), blocks);
            Goes::To(Stage::Frees(frees))
        }
        None => Goes::Answers(DelAnswer::Deleted(moment)),
    }
}

/// The blocks that the handle has a count of, where it was found.
fn blocks_in(alloc: Global, reply: &Reply) -> Result<VecDeque<Cidr>, AllocError>
    ensures { IfOk result (λ blocks. (id : List ℕ) → blocks.items ≡ map (λ count. count.0) (handle_said id (said reply.now)).counts) }
{
    match reply {
        Reply::Found(_, Record::Handle(handle)) => blocks_of(alloc, handle.blocks()),
        _ => Ok(VecDeque::new(alloc)),
    }
}

fn blocks_of(alloc: Global, counts: &[(Cidr, u32)]) -> Result<VecDeque<Cidr>, AllocError>
    ensures { IfOk result (λ blocks. blocks.items ≡ map (λ count. count.0) counts.now) }
{
    let mut blocks = VecDeque::new(alloc);
    for count in counts {
        blocks.push_back(count.0)?;
    }
    Ok(blocks)
}

/// What is answered where a freeing stopped.
fn stopped(left: Left, why: Stop) -> DelAnswer
    ensures { result ≡ stop_answer del_stops left why }
{
    match why {
        Stop::OutOfTries => DelAnswer::Again(LOST_RACES_MAX),
        Stop::OutOfClaims => DelAnswer::Again(lost_so_far(left)),
        Stop::NoRoom | Stop::CountAtLimit(_) | Stop::NoRevisions => DelAnswer::Spent,
    }
}
