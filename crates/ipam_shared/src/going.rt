//! Step by step to an answer, whatever it is that goes on.
ghost use Rattle.std.specs.Prelude.{◌<◌, ℕ, ◌⊎◌, IfOk, IfSome, IfNone, OnOk, OnErr};
ghost use Rattle.ipam_model.specs.declared.answer.Answer.{Answer as OneAnswer};

use ipam_model::Answer;
use std::alloc::AllocError;

/// What begins in a `K`, goes on by steps, and comes to an answer.
pub(crate) trait Going<K> {
    // it may begin
    ghost may: { Self → K → Type 0 };

    // it began in the one, and that made the other of it
    ghost begins: { Self → (start now : K) → Type 0 };

    // beginning in the one found no memory, and that left the other
    ghost unbegun: { Self → (start now : K) → Type 0 };

    // it may go on
    ghost runs: { Self → K → Type 0 };

    // from the one it came to the other by steps
    ghost goes: { Self → (start now : K) → Type 0 };

    // from the one it came to the other, with an answer
    ghost ends: { Self → (start now : K) → OneAnswer → Type 0 };

    // from the one it came to the other, and there a step found no memory
    ghost wants: { Self → (start now : K) → Type 0 };

    // it was stopped in the one, and that made the other of it
    ghost stops: { Self → (last now : K) → Type 0 };

    // how many steps there may still be
    ghost left: { Self → K → ℕ };

    /// Begins. On `Err` it found no memory.
    fn begin(&self, kept: &mut K) -> Result<(), AllocError>
        requires { may self.now kept.old }
        ensures begins { OnOk result (begins self.now kept.old kept.new) }
        ensures runs { OnOk result (runs self.now kept.new) }
        ensures goes { OnOk result (goes self.now kept.new kept.new) }
        ensures unbegun { OnErr result (unbegun self.now kept.old kept.new) };

    /// Makes one step; with the answer, once there is one. On `Err` it found no memory.
    fn step(&self, kept: &mut K) -> Result<Option<Answer>, AllocError>
        requires { runs self.now kept.old }
        ensures runs { IfOk result (λ told. IfNone told (runs self.now kept.new)) }
        ensures fewer { IfOk result (λ told. IfNone told (left self.now kept.new < left self.now kept.old)) }
        ensures goes { IfOk result (λ told. IfNone told ((start : K) → goes self.now start kept.old → goes self.now start kept.new)) }
        ensures ends { IfOk result (λ told. IfSome told (λ answer. (start : K) → goes self.now start kept.old → ends self.now start kept.new answer)) }
        ensures wants { OnErr result ((start : K) → goes self.now start kept.old → wants self.now start kept.new) };

    /// Stops. Takes no memory.
    fn stop(&self, kept: &mut K)
        ensures { stops self.now kept.old kept.new };
}

/// Begins, and goes on up to the answer. On `Err` beginning found no memory; or a step found none, and there
/// it was stopped.
pub(crate) fn run<K, G: Going<K>>(going: &G, kept: &mut K) -> Result<Answer, AllocError>
    requires { G.may going.now kept.old }
    ensures ended { IfOk result (λ answer. (begun : K) × G.begins going.now kept.old begun × G.ends going.now begun kept.new answer) }
    ensures wants { OnErr result (G.unbegun going.now kept.old kept.new
        ⊎ ((begun last : K) × G.begins going.now kept.old begun × G.wants going.now begun last × G.stops going.now last kept.new)) }
{
    going.begin(kept)?;
    match go_on(going, kept) {
        Ok(answer) => Ok(answer),
        Err(AllocError) => {
            going.stop(kept);
            Err(AllocError)
        }
    }
}

/// Goes on up to the answer. On `Err` a step found no memory.
fn go_on<K, G: Going<K>>(going: &G, kept: &mut K) -> Result<Answer, AllocError>
    requires runs { G.runs going.now kept.old }
    requires goes { G.goes going.now kept.old kept.old }
    ensures ended { IfOk result (G.ends going.now kept.old kept.new) }
    ensures wants { OnErr result (G.wants going.now kept.old kept.new) }
{
    loop {
        if let Some(answer) = going.step(kept)? {
            return Ok(answer);
        }
    }
}
