ghost use Rattle.std.specs.Prelude.{◌≡◌, [], Some, IfOk, IfNone};
ghost use Rattle.ipam_records.specs.Hearing.{MayHear};
ghost use Rattle.ipam_records.specs.Said.{said};
ghost use Rattle.ipam_records.specs.Word.{next_call, after_reply, answer_in};
ghost use Rattle.ipam_model.specs.Remove.{collect_stops};
ghost use Rattle.ipam_model.specs.Step.{stop_answer};
ghost use Rattle.ipam_collect.specs.Frees.{done_of, leaks_left, frees_at, frees_leaves};
ghost use Rattle.ipam_collect.specs.Tally.{finished, id_in};

use crate::tally::Tally;
use ipam_model::{CollectAnswer, Collected, LOST_RACES_MAX, Left, Outcome, Stop};
use ipam_parts::{Freeing, FreeingTurned, lost_so_far};
use ipam_records::{Call, Heard};
use std::alloc::{AllocError, Global};

/// The leaks are freed, one after the other. The blocks were listed at the moments.
#[derive(Drop)]
pub struct Frees {
    b1: u64,
    b2: u64,
    tally: Tally,
    freeing: Freeing,
}

impl Frees {
    /// The freeing of the first of the leaks that are left, which is this one.
    pub(crate) fn new(b1: u64, b2: u64, tally: Tally, freeing: Freeing) -> Frees
        ensures b1 { result.b1 ≡ b1 }
        ensures b2 { result.b2 ≡ b2 }
        ensures tally { result.tally ≡ tally }
        ensures freeing { result.freeing ≡ freeing }
    {
        Frees {
            b1,
            b2,
            tally,
            freeing,
        }
    }

    /// The handle of the leak that is being freed.
    fn id(&self) -> &str
        ensures { result.now ≡ id_in self.now.tally.1 }
    {
        match self.tally.first() {
            Some(leak) => leak.handle(),
            None => "",
        }
    }

    #[tactic(auto, using(crate::proofs::FreesLemmas::asks))]
    pub(crate) fn call(&self, alloc: Global) -> Result<Call, AllocError>
        ensures { IfOk result (λ call. next_call (frees_at self.now) ≡ Some call) }
    {
        let call = self.freeing.call(alloc, self.id())?;
        Ok(call)
    }

    #[tactic(auto, using(crate::proofs::FreesLemmas::may_hear, crate::proofs::FreesLemmas::hears))]
    pub(crate) fn took(&self, alloc: Global, hearing: &Heard) -> Result<FreeingTurned, AllocError>
        requires { MayHear (frees_at self.now) (said hearing.now.reply) }
        ensures { IfOk result (λ turned. frees_leaves self.now turned
            ≡ after_reply (frees_at self.now) hearing.now.moment (said hearing.now.reply)) }
    {
        let turned = self.freeing.took(alloc, self.id(), hearing)?;
        Ok(turned)
    }

    /// The freeing goes where a reply led it, and once it has come to an end, to the next leak.
    pub(crate) fn go(&mut self, turned: FreeingTurned) -> Option<CollectAnswer>
        ensures answer { result ≡ answer_in (frees_leaves self.old turned) }
        ensures on { IfNone result (frees_at self.new ≡ frees_leaves self.old turned) }
    {
        match self.freeing.go(turned) {
            None => None,
            Some(Outcome::Stops(left, why)) => Some(stopped(left, why)),
            Some(Outcome::Went(left, amount)) => self.next(left, amount > 0),
        }
    }

    /// Goes to the next leak, or answers where there is none.
    fn next(&mut self, left: Left, freed: bool) -> Option<CollectAnswer>
        ensures answer { result ≡ answer_in (leaks_left self.old.b1 self.old.b2 (finished freed self.old.tally.0 self.old.tally.1) left) }
        ensures on { IfNone result (frees_at self.new ≡ leaks_left self.old.b1 self.old.b2 (finished freed self.old.tally.0 self.old.tally.1) left) }
    {
        self.tally.finish(freed);
        match self.tally.first() {
            Some(leak) => {
                self.freeing = leak.freeing(left);
                None
            }
            None => Some(CollectAnswer::Collected(self.collected())),
        }
    }

    /// What was collected, once no leak is left.
    fn collected(&mut self) -> Collected
        requires { self.old.tally.1 ≡ [] }
        ensures { result ≡ done_of self.old.b1 self.old.b2 self.old.tally.0 }
    {
        Collected {
            b1: self.b1,
            b2: self.b2,
            items: self.tally.take_items(),
        }
    }
}

/// What is answered where a freeing stopped.
fn stopped(left: Left, why: Stop) -> CollectAnswer
    ensures { result ≡ stop_answer collect_stops left why }
{
    match why {
        Stop::OutOfTries => CollectAnswer::Again(LOST_RACES_MAX),
        Stop::OutOfClaims => CollectAnswer::Again(lost_so_far(left)),
        Stop::NoRoom | Stop::CountAtLimit(_) | Stop::NoRevisions => CollectAnswer::Spent,
    }
}
