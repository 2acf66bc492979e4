ghost use Rattle.std.specs.Prelude.{◌≡◌, ◌+◌, ◌≤◌, Some, None, IfOk, IfNone, IfSome};
ghost use Rattle.ipam_addr.specs.Width.{cidr_size};
ghost use Rattle.ipam_block.specs.declared.limits.TheConstants.{ADDRESSES_MAX};
ghost use Rattle.ipam_records.specs.Hearing.{MayHear};
ghost use Rattle.ipam_records.specs.Said.{said};
ghost use Rattle.ipam_records.specs.Word.{next_call, after_reply, answer_in};
ghost use Rattle.ipam_choice.specs.Picked.{pick_as, rank_as, ranked_as};
ghost use Rattle.ipam_choice.specs.Viewed.{asked_of as viewed};
ghost use Rattle.ipam_parts.specs.Reading.{lent_block};
ghost use Rattle.ipam_model.specs.declared.request.AddRequest.{AddRequest as Asking};
ghost use Rattle.ipam_model.specs.declared.part.Left.{Left as TheLeft};
ghost use Rattle.ipam_model.specs.Add.{asked_of, name_in_place, serve, take_in, follow_rank};
ghost use Rattle.ipam_model.specs.Assigning.{after_claim, claim_for, target_in};
ghost use Rattle.ipam_model.specs.Step.{part_then};
ghost use Rattle.ipam_assign.specs.Picked.{FitsPick, FitsRanked, IsTakeable, IsClaimable};
ghost use Rattle.ipam_assign.specs.Scanning.{learn};
ghost use Rattle.ipam_assign.specs.Serving.{Going, going, next_for, then_next, round_at, after_scan, serving_at, serving_rest, anew, scans_leaves, claims_leaves, assigns_leaves, serving_goes, serving_leaves, assign_ended, outcome_in};

use crate::assigning::{Assigning, AssigningTurned};
use crate::claiming::claimed;
use crate::grant::{Grant, Obtained, Spot};
use crate::rounds::Rounds;
use crate::scanning::{Learned, Scanned, Scanning};
use crate::spare::Spare;
use crate::usable::names_for;
use ipam_addr::{Cidr, Family};
use ipam_block::Block;
use ipam_choice::{Candidate, Picked, Rank, Wanted};
use ipam_model::{AddAnswer, AddRequest, Assigned, ClaimAnswer, Left, Outcome, Scan, Stop};
use ipam_parts::{ClaimProc, ClaimTurned};
use ipam_records::{Call, Heard, Procedure};
use ipam_text::Text;
use std::alloc::{AllocError, Global};

/// The rounds of one family of an ADD: what was read is scanned, and by what is picked an address
/// is assigned or a block is claimed. The request is lent to each call.
#[derive(Drop)]
pub struct Serving {
    family: Family,
    rounds: Rounds,
    left: Left,
    step: Step,
}

#[derive(Drop)]
enum Step {
    Scans(Scanning),
    Claims(ClaimProc),
    Assigns(Spot, Assigning),
}

/// Where a reply leads.
#[derive(Drop)]
enum Goes {
    To(Step),
    Learned(Learned),
    Claim(ClaimTurned),
    /// With memory to tell of the address, where it is assigned.
    Assign(AssigningTurned, Spare),
    Refuses(AddAnswer),
}

/// Where a reply led.
#[derive(Drop)]
pub struct ServingTurned {
    goes: Goes,
}

impl Serving {
    /// Before the first round, with so much left.
    #[tactic(auto, using(crate::proofs::ServingLemmas::begins))]
    pub fn new(family: Family, left: Left) -> Serving
        ensures { (request : Asking) → serving_rest request result ≡ serve request family left }
    {
        let begun = Serving::begun(family, left);
        begun
    }

    fn begun(family: Family, left: Left) -> Serving
        ensures family { result.family ≡ family }
        ensures more { result.rounds.more ≡ left.races + left.claims }
        ensures left { result.left ≡ left }
        ensures step { result.step ≡ anew }
    {
        let mut step = Step::Scans(Scanning::new());
        begin_round(&mut step);
        Serving {
            family,
            rounds: Rounds::of(left),
            left,
            step,
        }
    }

    /// The next call.
    #[tactic(auto, using(crate::proofs::ServingLemmas::asks_scan, crate::proofs::ServingLemmas::asks_claim, crate::proofs::ServingLemmas::asks_assign, crate::proofs::ServingLemmas::claim_goes_on))]
    pub fn call(&self, alloc: Global, request: &AddRequest) -> Result<Call, AllocError>
        ensures { IfOk result (λ call. next_call (serving_rest request.now self.now) ≡ Some call) }
    {
        match &self.step {
            Step::Scans(scanning) => Ok(scanning.call()),
            Step::Claims(claim) => claim.call(alloc),
            Step::Assigns(_, assigning) => {
                assigning.call(alloc, request.attributes.handle.as_str())
            }
        }
    }

    /// Where the reply leads.
    #[tactic(auto, using(crate::proofs::ServingLemmas::may_hear_claim, crate::proofs::ServingLemmas::may_hear_assign))]
    pub fn took(
        &self,
        alloc: Global,
        request: &AddRequest,
        hearing: &Heard,
    ) -> Result<ServingTurned, AllocError>
        requires { MayHear (serving_rest request.now self.now) (said hearing.now.reply) }
        ensures { IfOk result (λ turned. serving_leaves request.now self.now turned
            ≡ after_reply (serving_rest request.now self.now) hearing.now.moment (said hearing.now.reply)) }
    {
        match &self.step {
            Step::Scans(scanning) => {
                let wanted = wanted_of(request, self.family);
                match scanning.took(alloc, &wanted, hearing)? {
                    Scanned::Learned(learned) => Ok(ServingTurned {
                        goes: Goes::Learned(learned),
                    }),
                    Scanned::Chosen(scan, picked) => {
                        let goes = self.picked(alloc, request, scan, &picked)?;
                        Ok(ServingTurned { goes })
                    }
                }
            }
            Step::Claims(claim) => {
                let goes = Goes::Claim(claim.took(alloc, hearing)?);
                Ok(ServingTurned { goes })
            }
            Step::Assigns(_, assigning) => {
                let spare = Spare::new(alloc)?;
                let id = request.attributes.handle.as_str();
                let goes = Goes::Assign(assigning.took(alloc, id, hearing)?, spare);
                Ok(ServingTurned { goes })
            }
        }
    }

    /// Where what was picked leads.
    fn picked(
        &self,
        alloc: Global,
        request: &AddRequest,
        scan: Scan,
        picked: &Picked,
    ) -> Result<Goes, AllocError>
        requires family { scan.family ≡ self.now.family }
        requires fits { FitsPick (pick_as picked.now) }
        ensures { IfOk result (λ goes. serving_goes request.now self.now goes
            ≡ after_scan (going request.now self.now) self.now.left (scan, pick_as picked.now)) }
    {
        match picked {
            Picked::Nothing => Ok(Goes::Refuses(AddAnswer::Exhausted(scan))),
            Picked::NoPool(place) => {
                let name = name_in(alloc, names_for(scan.family, request), *place)?;
                Ok(Goes::Refuses(AddAnswer::NoPool(name, scan.p)))
            }
            Picked::Slot(candidate) => self.at_slot(alloc, request, scan, candidate),
        }
    }

    /// Where a slot leads: an address of its block is assigned, or it is claimed first.
    fn at_slot(
        &self,
        alloc: Global,
        request: &AddRequest,
        scan: Scan,
        candidate: &Candidate,
    ) -> Result<Goes, AllocError>
        requires { FitsRanked (ranked_as candidate.now) }
        ensures { IfOk result (λ goes. serving_goes request.now self.now goes
            ≡ follow_rank (round_at (going request.now self.now) scan) self.now.left candidate.now.slot (rank_as candidate.now.rank)) }
    {
        match candidate.rank {
            Rank::Own(listed, ordinal) => {
                self.takes(request, scan, listed.revision, listed.block, ordinal)
            }
            Rank::Unconfirmed(listed) => {
                let read = Some((listed.revision, listed.block));
                self.claims(alloc, request, candidate.slot, read)
            }
            Rank::Unclaimed(None) => self.claims(alloc, request, candidate.slot, None),
            Rank::Unclaimed(Some(listed)) => {
                let read = Some((listed.revision, listed.block));
                self.claims(alloc, request, candidate.slot, read)
            }
            Rank::Foreign(listed, ordinal) => {
                self.takes(request, scan, listed.revision, listed.block, ordinal)
            }
        }
    }

    fn takes(
        &self,
        request: &AddRequest,
        scan: Scan,
        revision: u64,
        block: &Block,
        ordinal: u16,
    ) -> Result<Goes, AllocError>
        requires { IsTakeable block.now ordinal }
        ensures { IfOk result (λ goes. serving_goes request.now self.now goes
            ≡ take_in (round_at (going request.now self.now) scan) self.now.left (target_in (revision, block.now) ordinal)) }
    {
        let attributes = &request.attributes;
        let assigning = Assigning::new(revision, block, ordinal, attributes, self.left)?;
        let spot = Spot::of(scan, block, ordinal);
        Ok(Goes::To(Step::Assigns(spot, assigning)))
    }

    fn claims(
        &self,
        alloc: Global,
        request: &AddRequest,
        cidr: Cidr,
        read: Option<(u64, &Block)>,
    ) -> Result<Goes, AllocError>
        requires small { cidr_size cidr ≤ ADDRESSES_MAX }
        requires counted { IsClaimable (lent_block read) }
        ensures { IfOk result (λ goes. serving_goes request.now self.now goes
            ≡ part_then (claim_for request.now.node cidr (lent_block read.entry) self.now.left) (then_next (going request.now self.now))) }
    {
        let claim = ClaimProc::new(alloc, request.node.as_str(), cidr, read)?;
        Ok(Goes::To(Step::Claims(claim)))
    }

    /// Goes where a reply led. Takes no memory.
    pub fn go(&mut self, turned: ServingTurned) -> Option<Outcome<Obtained>>
        ensures answer { (request : Asking) → outcome_in result ≡ answer_in (serving_leaves request self.old turned) }
        ensures on { IfNone result ((request : Asking) → serving_rest request self.new ≡ serving_leaves request self.old turned) }
    {
        match turned.goes {
            Goes::To(step) => {
                self.step = step;
                None
            }
            Goes::Learned(learned) => {
                scan_goes(&mut self.step, learned);
                None
            }
            Goes::Claim(turned) => match claim_goes(&mut self.step, turned) {
                None => None,
                Some(answer) => self.after_claim(answer),
            },
            Goes::Assign(turned, spare) => match assign_goes(&mut self.step, turned) {
                None => None,
                Some((spot, outcome)) => self.after_assign(spot, outcome, spare),
            },
            Goes::Refuses(answer) => Some(Outcome::Went(self.left, Obtained::Refused(answer))),
        }
    }

    /// Begins the next round, with so much left, where there is one more.
    fn next_round(&mut self, now: Left) -> Option<Outcome<Obtained>>
        ensures answer { (request : Asking) → outcome_in result ≡ answer_in (next_for (going request self.old) now) }
        ensures on { IfNone result ((request : Asking) → serving_rest request self.new ≡ next_for (going request self.old) now) }
    {
        match self.rounds.next() {
            None => Some(Outcome::Stops(now, Stop::OutOfTries)),
            Some(rounds) => {
                self.rounds = rounds;
                self.left = now;
                begin_round(&mut self.step);
                None
            }
        }
    }

    fn after_claim(&mut self, answer: ClaimAnswer) -> Option<Outcome<Obtained>>
        ensures answer { (request : Asking) → outcome_in result
            ≡ answer_in (part_then (after_claim self.old.left answer) (then_next (going request self.old))) }
        ensures on { IfNone result ((request : Asking) → serving_rest request self.new
            ≡ part_then (after_claim self.old.left answer) (then_next (going request self.old))) }
    {
        match claimed(self.left, answer) {
            Outcome::Went(now, ()) => self.next_round(now),
            Outcome::Stops(left, why) => Some(Outcome::Stops(left, why)),
        }
    }

    fn after_assign(
        &mut self,
        spot: Spot,
        outcome: Outcome<Option<Assigned>>,
        spare: Spare,
    ) -> Option<Outcome<Obtained>>
        ensures answer { (request : Asking) → outcome_in result ≡ answer_in (assign_ended (going request self.old) spot outcome) }
        ensures on { IfNone result ((request : Asking) → serving_rest request self.new
            ≡ assign_ended (going request self.old) spot outcome) }
    {
        match outcome {
            Outcome::Went(left, Some(done)) => {
                let grant = Grant::of(spot, done);
                Some(Outcome::Went(left, Obtained::Gave(grant, spare)))
            }
            Outcome::Went(left, None) => self.next_round(left),
            Outcome::Stops(left, why) => Some(Outcome::Stops(left, why)),
        }
    }
}

fn begin_round(step: &mut Step)
    ensures { step.new ≡ anew }
{
    *step = Step::Scans(Scanning::new());
}

/// What the request wants of the family.
fn wanted_of(request: &AddRequest, family: Family) -> Wanted<'_>
    ensures { viewed result ≡ asked_of request.now family }
{
    Wanted {
        node: request.node.as_str(),
        family,
        names: names_for(family, request),
        labels: request.labels.as_slice(),
        one_address: false,
    }
}

/// A copy of the name at the place.
fn name_in(alloc: Global, names: &[Text], place: usize) -> Result<Text, AllocError>
    ensures { IfOk result (λ name. name ≡ name_in_place names.now place) }
{
    match names.get(place) {
        Some(name) => name.clone(),
        None => Text::copied(alloc, ""),
    }
}

/// The reads go on with what was learned.
fn scan_goes(step: &mut Step, learned: Learned)
    ensures { (g : Going) (left : TheLeft) → serving_at g left step.new ≡ scans_leaves g left step.old learned }
{
    match step {
        Step::Scans(scanning) => scanning.go(learned),
        _ => {}
    }
}

/// The claim goes where a reply led it, and is answered in the end.
fn claim_goes(step: &mut Step, turned: ClaimTurned) -> Option<ClaimAnswer>
    ensures ended { IfSome result (λ answer. (g : Going) (left : TheLeft)
        → claims_leaves g left step.old turned ≡ part_then (after_claim left answer) (then_next g)) }
    ensures on { IfNone result ((g : Going) (left : TheLeft) → serving_at g left step.new ≡ claims_leaves g left step.old turned) }
    ensures asks { IfNone result ((g : Going) (left : TheLeft) → None ≡ answer_in (claims_leaves g left step.old turned)) }
{
    match step {
        Step::Claims(claim) => claim.go(turned),
        _ => None,
    }
}

/// The assignment goes where a reply led it, and comes to something in the end.
fn assign_goes(
    step: &mut Step,
    turned: AssigningTurned,
) -> Option<(Spot, Outcome<Option<Assigned>>)>
    ensures ended { IfSome result (λ e. (g : Going) (left : TheLeft)
        → assigns_leaves g left step.old turned ≡ assign_ended g e.0 e.1) }
    ensures on { IfNone result ((g : Going) (left : TheLeft) → serving_at g left step.new ≡ assigns_leaves g left step.old turned) }
    ensures asks { IfNone result ((g : Going) (left : TheLeft) → None ≡ answer_in (assigns_leaves g left step.old turned)) }
{
    match step {
        Step::Assigns(spot, assigning) => match assigning.go(turned) {
            Some(outcome) => Some((*spot, outcome)),
            None => None,
        },
        _ => None,
    }
}
