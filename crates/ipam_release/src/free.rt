ghost use Rattle.std.specs.Prelude.{◌≡◌, ◌≤◌, ◌-◌, IfOk, IfNone};
ghost use Rattle.ipam_addr.specs.Holding.{Holds};
ghost use Rattle.ipam_addr.specs.Width.{cidr_size};
ghost use Rattle.ipam_block.specs.declared.limits.TheConstants.{ADDRESSES_MAX};
ghost use Rattle.ipam_records.specs.Hearing.{MayHear};
ghost use Rattle.ipam_records.specs.Said.{said};
ghost use Rattle.ipam_records.specs.Word.{next_call, after_reply, answer_in};
ghost use Rattle.ipam_model.specs.Remove.{free_word, free_stops, freed_answer};
ghost use Rattle.ipam_model.specs.Step.{stop_answer};
ghost use Rattle.ipam_release.specs.Free.{free_rest, free_leaves, free_answer_of};

use ipam_addr::{Addr, Cidr};
use ipam_model::{FreeAnswer, LOST_RACES_MAX, Left, Outcome, Stop};
use ipam_parts::{Freeing, FreeingTurned, Picks, all_left, lost_so_far};
use ipam_records::{Call, Heard, Procedure};
use ipam_text::Text;
use std::alloc::{AllocError, Global};

/// The freeing of one assignment: of an address that is recorded to a handle with a stamp.
pub struct FreeProc {
    id: Text,
    freeing: Freeing,
}

impl Drop for FreeProc {
    fn drop(self) {
        let FreeProc { id: _, freeing: _ } = self;
    }
}

/// Where a reply led the freeing of one assignment.
#[derive(Drop)]
pub struct FreeTurned {
    freeing: FreeingTurned,
}

impl FreeProc {
    /// The freeing of the address in the block of this CIDR, where the handle holds it with the
    /// stamp.
    #[tactic(auto, using(crate::proofs::FreeLemmas::begins))]
    pub fn new(
        alloc: Global,
        address: Addr,
        cidr: Cidr,
        handle: &str,
        stamp: u64,
    ) -> Result<FreeProc, AllocError>
        requires own { Holds cidr address }
        requires small { cidr_size cidr ≤ ADDRESSES_MAX }
        ensures { IfOk result (λ p. free_rest p
            ≡ free_word (record { address = address; handle = handle.now; stamp = stamp }) cidr) }
    {
        let id = Text::copied(alloc, handle)?;
        let ordinal = ordinal_in(cidr, address);
        let freeing = Freeing::new(cidr, Picks::Stamped { ordinal, stamp }, all_left());
        Ok(FreeProc { id, freeing })
    }
}

impl Procedure for FreeProc {
    type Turned = FreeTurned;

    type Answer = FreeAnswer;

    ghost rest = { free_rest };

    ghost leaves = { free_leaves };

    ghost fits = { λ p turned. Unit {0} };

    #[tactic(auto, using(crate::proofs::FreeLemmas::asks))]
    fn call(&self, alloc: Global) -> Result<Call, AllocError> {
        self.freeing.call(alloc, self.id.as_str())
    }

    #[tactic(auto, using(crate::proofs::FreeLemmas::may_hear, crate::proofs::FreeLemmas::hears))]
    fn took(&self, alloc: Global, hearing: &Heard) -> Result<FreeTurned, AllocError> {
        let freeing = self.freeing.took(alloc, self.id.as_str(), hearing)?;
        Ok(FreeTurned { freeing })
    }

    #[tactic(auto, using(crate::proofs::FreeLemmas::ends, crate::proofs::FreeLemmas::goes_on))]
    fn go(&mut self, turned: FreeTurned) -> Option<FreeAnswer> {
        match self.freeing.go(turned.freeing) {
            Some(outcome) => Some(answer_of(outcome)),
            None => None,
        }
    }
}

/// Where the address lies in the block.
fn ordinal_in(cidr: Cidr, address: Addr) -> u16
    requires own { Holds cidr address }
    requires small { cidr_size cidr ≤ ADDRESSES_MAX }
    ensures { result ≡ address.number - cidr.base }
{
    (address.number - cidr.base().number) as u16
}

/// What is answered where the freeing came to this.
fn answer_of(outcome: Outcome<u32>) -> FreeAnswer
    ensures { result ≡ free_answer_of outcome }
{
    match outcome {
        Outcome::Went(_, amount) => answer_of_amount(amount),
        Outcome::Stops(left, why) => stopped(left, why),
    }
}

fn answer_of_amount(amount: u32) -> FreeAnswer
    ensures { result ≡ freed_answer amount }
{
    match amount {
        0 => FreeAnswer::Gone,
        _ => FreeAnswer::Freed,
    }
}

/// What is answered where the freeing stopped.
fn stopped(left: Left, why: Stop) -> FreeAnswer
    ensures { result ≡ stop_answer free_stops left why }
{
    match why {
        Stop::OutOfTries => FreeAnswer::Again(LOST_RACES_MAX),
        Stop::OutOfClaims => FreeAnswer::Again(lost_so_far(left)),
        Stop::NoRoom | Stop::CountAtLimit(_) | Stop::NoRevisions => FreeAnswer::Spent,
    }
}
