// What passes of one lock work over.
ghost use Rattle.std.specs.Prelude.{◌≡◌, IfSome};
ghost use Rattle.atomic_table.specs.Seated.{TableId};
ghost use Rattle.ipam_model.specs.SoundRequest.{IsSoundRequest};

use ipam_addr::Addr;
use ipam_keeper::Keeper;
use ipam_model::{Answer, Entry, Request};
use ipam_shared::{Pass, Shared};
use std::alloc::Global;
use std::sync::Wait;

/// What a turn came to.
#[derive(Clone, Copy)]
pub enum Turned {
    /// Nothing was done.
    Nothing,
    /// A call was made that was not the last one.
    Goes,
    /// The answer is this address, and no other.
    Added(Addr),
    Deleted,
    Checked,
    /// There is another answer.
    Answered,
}

/// What passes of one lock work over. Threads are started for any of these, so that it is shown apart from
/// them that a shared cluster may be used by many.
pub trait Team {
    /// The lock whose passes these are.
    ghost id: { Self → TableId };

    /// Splits off another pass, where there is one left.
    fn split_off(&self, pass: &mut Pass) -> Option<Pass>
        requires { pass.old.lock ≡ id self.now }
        ensures own { pass.new.lock ≡ pass.old.lock }
        ensures other { IfSome result (λ other. other.lock ≡ id self.now) };

    /// Joins the other pass, where nothing runs in its slot.
    fn take_back(&self, into: &mut Pass, other: Pass)
        requires into { into.old.lock ≡ id self.now }
        requires other { other.lock ≡ id self.now }
        ensures { into.new.lock ≡ into.old.lock };

    /// Begins the request, and says whether it runs.
    fn begins<R: Wait>(&self, rt: &R, alloc: Global, pass: &mut Pass, request: &Request) -> bool
        requires lock { pass.old.lock ≡ id self.now }
        requires sound { IsSoundRequest request.now }
        ensures { pass.new.lock ≡ pass.old.lock };

    /// One turn of what runs.
    fn turned<R: Wait>(&self, rt: &R, alloc: Global, pass: &mut Pass) -> Turned
        requires { pass.old.lock ≡ id self.now }
        ensures { pass.new.lock ≡ pass.old.lock };

    /// Whether a settling goes well.
    fn settles<R: Wait>(&self, rt: &R, pass: &mut Pass) -> bool
        requires { pass.old.lock ≡ id self.now }
        ensures { pass.new.lock ≡ pass.old.lock };
}

impl<D: Keeper> Team for Shared<D> {
    ghost id = { λ shared. shared };

    fn split_off(&self, pass: &mut Pass) -> Option<Pass> {
        self.split(pass)
    }

    fn take_back(&self, into: &mut Pass, other: Pass) {
        if !other.running() {
            self.join(into, other);
        }
    }

    fn begins<R: Wait>(&self, rt: &R, alloc: Global, pass: &mut Pass, request: &Request) -> bool {
        match self.begin(rt, alloc, pass, request) {
            Ok(entry) => {
                drop(entry);
                true
            }
            Err(_) => false,
        }
    }

    fn turned<R: Wait>(&self, rt: &R, alloc: Global, pass: &mut Pass) -> Turned {
        match self.turn(rt, alloc, pass) {
            Ok(entry) => {
                let turned = turned_in(&entry);
                drop(entry);
                turned
            }
            Err(_) => Turned::Nothing,
        }
    }

    fn settles<R: Wait>(&self, rt: &R, pass: &mut Pass) -> bool {
        self.settle(rt, pass).is_ok()
    }
}

fn turned_in(entry: &Entry) -> Turned {
    let Entry::Called(called) = entry else {
        return Turned::Goes;
    };
    match &called.answer {
        None => Turned::Goes,
        Some(Answer::Added(given)) => match given.as_slice() {
            [one] => Turned::Added(one.address),
            _ => Turned::Answered,
        },
        Some(Answer::Deleted(_)) => Turned::Deleted,
        Some(Answer::Checked) => Turned::Checked,
        Some(_) => Turned::Answered,
    }
}
