ghost use Rattle.std.specs.Prelude.{◌≡◌, IsSome, IfOk, IfNone};
ghost use Rattle.ipam_records.specs.Said.{said};
ghost use Rattle.ipam_records.specs.Word.{Word, next_call, after_reply, answer_in};
ghost use Rattle.ipam_records.specs.Hearing.{MayHear};

use crate::call::{Call, Heard};
use std::alloc::{AllocError, Global};

/// Something that makes calls to the datastore, one after the other, and comes to an answer.
///
/// It means a word: its answer, or the next call and what follows each reply. A reply is taken in
/// two steps: `took` decides what it leads to and may want memory, and `go` goes there.
pub trait Procedure {
    /// What a reply led to.
    type Turned;

    type Answer;

    /// What is left of the procedure.
    ghost rest: { Self → Word Self.Answer };

    /// What is left of it once it goes where a reply led.
    ghost leaves: { Self → Self.Turned → Word Self.Answer };

    /// The procedure may go there.
    ghost fits: { Self → Self.Turned → Type 0 };

    /// The next call.
    fn call(&self, alloc: Global) -> Result<Call, AllocError>
        requires { IsSome (next_call (rest self.now)) }
        ensures { IfOk result (λ call. next_call (rest self.now) ≡ Some call) };

    /// Where the reply leads.
    fn took(&self, alloc: Global, hearing: &Heard) -> Result<Self::Turned, AllocError>
        requires { MayHear (rest self.now) (said hearing.now.reply) }
        ensures leaves { IfOk result (λ turned. leaves self.now turned
            ≡ after_reply (rest self.now) hearing.now.moment (said hearing.now.reply)) }
        ensures fits { IfOk result (fits self.now) };

    /// Goes where a reply led, and answers once no call is left. Takes no memory.
    fn go(&mut self, turned: Self::Turned) -> Option<Self::Answer>
        requires { fits self.old turned }
        ensures answer { result ≡ answer_in (leaves self.old turned) }
        ensures on { IfNone result (rest self.new ≡ leaves self.old turned) };
}
