ghost use Rattle.std.specs.Prelude.{◌≡◌, ◌||◌, true, Some, None, IfOk, IfNone, IfSome};
ghost use Rattle.ipam_addr.specs.declared.address.Family.TheVariants.{V6};
ghost use Rattle.ipam_records.specs.Hearing.{MayHear};
ghost use Rattle.ipam_records.specs.Said.{said};
ghost use Rattle.ipam_records.specs.Word.{next_call, after_reply, answer_in, bound};
ghost use Rattle.ipam_model.specs.declared.request.AddRequest.{AddRequest as Asking};
ghost use Rattle.ipam_model.specs.Add.{add_word, after_stop, is_refusal, refuse, serve};
ghost use Rattle.ipam_model.specs.Step.{all_left as every_try};
ghost use Rattle.ipam_assign.specs.Adding.{turn_family, turn_gifts, first_turn, add_on, family_then, add_part, add_at, add_rest, serves_leaves, refuses_leaves, add_goes, add_leaves, freed_to};
ghost use Rattle.ipam_assign.specs.declared.add.Turn.{Turn as Taking};
ghost use Rattle.ipam_assign.specs.Grant.{gift_in, outcome_as};

use crate::grant::{Grant, Obtained};
use crate::serving::{Serving, ServingTurned};
use crate::spare::Spare;
use crate::stopping::add_stopped;
use ipam_addr::Family;
use ipam_model::{AddAnswer, AddRequest, Left, Outcome, Stop};
use ipam_parts::{Freeing, FreeingTurned, all_left};
use ipam_records::{Call, Heard, Procedure};
use std::alloc::{AllocError, Global};
use std::mem;

/// An ADD without an address: an address of each family that is wanted, IPv4 first. Where IPv6 has
/// none, that of IPv4 is freed.
pub struct AddProc {
    request: AddRequest,
    turn: Turn,
    stage: Stage,
}

impl Drop for AddProc {
    fn drop(self) {
        let AddProc {
            request: _,
            turn: _,
            stage: _,
        } = self;
    }
}

/// Which of the wanted families is served.
#[derive(Clone, Copy)]
enum Turn {
    /// The only one.
    Only(Family),
    /// IPv4, and IPv6 after it.
    First,
    /// IPv6, after what was given of IPv4.
    Second(Grant),
}

#[derive(Drop)]
enum Stage {
    Serves(Serving),
    /// What was given is freed, and this is answered.
    Refuses(Freeing, AddAnswer),
}

/// Where a reply leads.
#[derive(Drop)]
enum Goes {
    Serve(ServingTurned),
    Free(FreeingTurned),
}

/// Where a reply led an ADD without an address.
#[derive(Drop)]
pub struct AddTurned {
    goes: Goes,
}

impl AddProc {
    /// The ADD that the request asks for, of one family at least.
    pub fn new(add: &AddRequest) -> Result<AddProc, AllocError>
        requires { (add.now.ipv4 || add.now.ipv6) ≡ true }
        ensures { IfOk result (λ p. add_rest p ≡ add_word add.now) }
    {
        let request = add.clone()?;
        let turn = turn_for(request.ipv4, request.ipv6);
        let begun = AddProc::begun(request, turn);
        Ok(begun)
    }

    fn begun(request: AddRequest, turn: Turn) -> AddProc
        ensures request { result.request ≡ request }
        ensures turn { result.turn ≡ turn }
        ensures stage { (asking : Asking) → add_part asking turn result.stage
            ≡ bound (serve asking (turn_family turn) every_try) (family_then asking turn) }
    {
        let stage = serving_stage(family_of(&turn), all_left());
        AddProc {
            request,
            turn,
            stage,
        }
    }

    /// What follows the rounds of a family.
    fn after_served(&mut self, outcome: Outcome<Obtained>) -> Option<AddAnswer>
        ensures answer { result ≡ answer_in (add_at (family_then self.old.request self.old.turn (outcome_as outcome))) }
        ensures on { IfNone result (add_rest self.new ≡ add_at (family_then self.old.request self.old.turn (outcome_as outcome))) }
    {
        match outcome {
            Outcome::Went(left, Obtained::Gave(grant, spare)) => self.gave(left, grant, spare),
            Outcome::Went(left, Obtained::Refused(answer)) => self.refuses(left, answer),
            Outcome::Stops(left, why) => self.stops(left, why),
        }
    }

    fn gave(&mut self, left: Left, grant: Grant, spare: Spare) -> Option<AddAnswer>
        ensures answer { result ≡ answer_in (add_at (add_on self.old.request self.old.turn (gift_in grant) left)) }
        ensures on { IfNone result (add_rest self.new ≡ add_at (add_on self.old.request self.old.turn (gift_in grant) left)) }
    {
        match self.turn {
            Turn::Only(_) => Some(AddAnswer::Added(spare.one(grant.given()))),
            Turn::First => {
                self.turn = Turn::Second(grant);
                serve_next(&mut self.stage, left);
                None
            }
            Turn::Second(first) => Some(AddAnswer::Added(spare.two(first.given(), grant.given()))),
        }
    }

    /// Goes to this answer, by way of freeing what was given to the first family.
    fn refuses(&mut self, left: Left, answer: AddAnswer) -> Option<AddAnswer>
        ensures answer { result ≡ answer_in (add_at (refuse self.old.request (turn_gifts self.old.turn) answer left)) }
        ensures on { IfNone result (add_rest self.new ≡ add_at (refuse self.old.request (turn_gifts self.old.turn) answer left)) }
    {
        match self.turn {
            Turn::Second(first) => {
                let freeing = first.freeing(left);
                self.stage = Stage::Refuses(freeing, answer);
                None
            }
            _ => Some(answer),
        }
    }

    fn stops(&mut self, left: Left, why: Stop) -> Option<AddAnswer>
        ensures answer { result ≡ answer_in (add_at (after_stop self.old.request (turn_gifts self.old.turn) left why)) }
        ensures on { IfNone result (add_rest self.new ≡ add_at (after_stop self.old.request (turn_gifts self.old.turn) left why)) }
    {
        let answer = add_stopped(left, why);
        if is_refusal(why) {
            self.refuses(left, answer)
        } else {
            Some(answer)
        }
    }
}

fn turn_for(ipv4: bool, ipv6: bool) -> Turn
    ensures { result ≡ first_turn ipv4 ipv6 }
{
    if ipv4 && ipv6 {
        Turn::First
    } else if ipv6 {
        Turn::Only(Family::V6)
    } else {
        Turn::Only(Family::V4)
    }
}

fn family_of(turn: &Turn) -> Family
    ensures { result ≡ turn_family turn.now }
{
    match turn {
        Turn::Only(family) => *family,
        Turn::First => Family::V4,
        Turn::Second(_) => Family::V6,
    }
}

/// Whether what was given is freed where a part stops so.
fn is_refusal(why: Stop) -> bool
    ensures { result ≡ is_refusal why }
{
    match why {
        Stop::OutOfTries | Stop::OutOfClaims | Stop::NoRevisions => false,
        Stop::NoRoom | Stop::CountAtLimit(_) => true,
    }
}

fn serving_stage(family: Family, left: Left) -> Stage
    ensures { (asking : Asking) (turn : Taking) → add_part asking turn result
        ≡ bound (serve asking family left) (family_then asking turn) }
{
    Stage::Serves(Serving::new(family, left))
}

/// IPv6 is served next, with so much left.
fn serve_next(stage: &mut Stage, left: Left)
    ensures { (asking : Asking) (turn : Taking) → add_part asking turn stage.new
        ≡ bound (serve asking V6 left) (family_then asking turn) }
{
    *stage = serving_stage(Family::V6, left);
}

/// The rounds go where a reply led them, and come to something in the end.
fn serve_goes(stage: &mut Stage, turned: ServingTurned) -> Option<Outcome<Obtained>>
    ensures ended { IfSome result (λ outcome. (asking : Asking) (turn : Taking)
        → family_then asking turn (outcome_as outcome) ≡ serves_leaves asking turn stage.old turned) }
    ensures on { IfNone result ((asking : Asking) (turn : Taking)
        → add_part asking turn stage.new ≡ serves_leaves asking turn stage.old turned) }
    ensures asks { IfNone result ((asking : Asking) (turn : Taking)
        → None ≡ answer_in (add_at (serves_leaves asking turn stage.old turned))) }
{
    match stage {
        Stage::Serves(serving) => serving.go(turned),
        _ => None,
    }
}

/// The freeing goes where a reply led it. Behind it the answer is given.
fn free_goes(stage: &mut Stage, turned: FreeingTurned) -> Option<AddAnswer>
    ensures ended { (asking : Asking) (turn : Taking) → result ≡ answer_in (add_at (refuses_leaves asking turn stage.old turned)) }
    ensures on { IfNone result ((asking : Asking) (turn : Taking)
        → add_part asking turn stage.new ≡ refuses_leaves asking turn stage.old turned) }
{
    match stage {
        Stage::Refuses(freeing, answer) => match freeing.go(turned) {
            None => None,
            Some(outcome) => Some(freed(outcome, answer)),
        },
        _ => None,
    }
}

/// What is answered where the freeing came to this.
fn freed(outcome: Outcome<u32>, answer: &mut AddAnswer) -> AddAnswer
    ensures { Some result ≡ answer_in (freed_to answer.old outcome) }
{
    match outcome {
        Outcome::Went(_, _) => mem::replace(answer, AddAnswer::Spent),
        Outcome::Stops(left, why) => add_stopped(left, why),
    }
}

impl Procedure for AddProc {
    type Turned = AddTurned;

    type Answer = AddAnswer;

    ghost rest = { add_rest };

    ghost leaves = { add_leaves };

    ghost fits = { λ p turned. Unit {0} };

    #[tactic(auto, using(crate::proofs::AddLemmas::asks_serving, crate::proofs::AddLemmas::asks_freeing))]
    fn call(&self, alloc: Global) -> Result<Call, AllocError> {
        match &self.stage {
            Stage::Serves(serving) => serving.call(alloc, &self.request),
            Stage::Refuses(freeing, _) => {
                freeing.call(alloc, self.request.attributes.handle.as_str())
            }
        }
    }

    #[tactic(auto, using(crate::proofs::AddLemmas::may_hear_freeing))]
    fn took(&self, alloc: Global, hearing: &Heard) -> Result<AddTurned, AllocError> {
        match &self.stage {
            Stage::Serves(serving) => {
                let goes = Goes::Serve(serving.took(alloc, &self.request, hearing)?);
                Ok(AddTurned { goes })
            }
            Stage::Refuses(freeing, _) => {
                let id = self.request.attributes.handle.as_str();
                let goes = Goes::Free(freeing.took(alloc, id, hearing)?);
                Ok(AddTurned { goes })
            }
        }
    }

    #[tactic(auto, using(crate::proofs::AddLemmas::stage_goes_on))]
    fn go(&mut self, turned: AddTurned) -> Option<AddAnswer> {
        match turned.goes {
            Goes::Serve(turned) => match serve_goes(&mut self.stage, turned) {
                None => None,
                Some(outcome) => self.after_served(outcome),
            },
            Goes::Free(turned) => free_goes(&mut self.stage, turned),
        }
    }
}
