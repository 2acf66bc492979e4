//! `unreserve NAME`: a reservation is taken back.
ghost use Rattle.std.specs.Prelude.{◌≡◌, ◌≢◌, IfOk, Result};
ghost use Rattle.ipam_records.specs.Sound.{IsName};
ghost use Rattle.ipam_model.specs.declared.request.Admin.TheVariants.{Unreserve};
ghost use Rattle.ipam_model.specs.declared.request.Request.TheVariants.{Admin as Changes};
ghost use Rattle.ipam_model.specs.Alone.{alone_over};
ghost use Rattle.ipam_model.specs.History.{Base};
ghost use Rattle.ipam_model.specs.SoundRequest.{IsSoundRequest};
ghost use Rattle.ipam_shared.specs.declared.kept.KeptFault.{KeptFault as Fault};
ghost use Rattle.ipam_shared.specs.Solo.{HasNoGrace};
ghost use Rattle.ipam_commands.specs.declared.outcome.ChangeOutcome.{ChangeOutcome as Outcome};
ghost use Rattle.ipam_commands.specs.Changing.{ChangeEnds, ChangeWrites, IsChange, IsNotThere, unreserve_line};
ghost use Rattle.ipam_commands.specs.Telling.{Writes};

use crate::changing::{MakesChange, tell_change};
use crate::outcome::ChangeOutcome;
use crate::status::Status;
use ipam_io::Sink;
use ipam_keeper::Keeper;
use ipam_model::{Admin, Request};
use ipam_text::Text;
use std::alloc::{AllocError, Global};

/// Removes the reservation of this name, as a request that runs by itself over the keeper's rows, and writes
/// what came of it. By itself the request has one refusal alone: that no reservation has the name.
pub fn unreserve<K: Sink, D: Keeper>(
    alloc: Global,
    sink: &mut K,
    keeper: &mut D,
    name: &str,
) -> Status
    requires { IsName name.now }
    ensures unreserved { (came : Result Outcome Fault)
        × ChangeEnds (Changes (Unreserve name.now)) came (D.rows keeper.old) (D.rows keeper.new) (D.faults keeper.old) (D.faults keeper.new)
        × ChangeWrites unreserve_line (λ text own. Writes (K.written sink.old) (K.written sink.new)
        (K.write_faults sink.old) (K.write_faults sink.new) text own result) (result ≢ Status.NoMemory) came }
    ensures one_refusal { (base : Base) → IsNotThere name.now (alone_over base (Changes (Unreserve name.now))).0 }
    ensures rest { K.write_rest sink.new ≡ K.write_rest sink.old }
{
    tell_change(alloc, &Unreserving { alloc, name }, sink, keeper)
}

/// The removal of the reservation of this name.
#[derive(Drop)]
struct Unreserving<'a> {
    alloc: Global,
    name: &'a str,
}

impl<'a> MakesChange for Unreserving<'a> {
    ghost wants = { λ _. Unit {0} };

    ghost may = { λ unreserving. IsName unreserving.name.now };

    ghost asks = { λ unreserving. Changes (Unreserve unreserving.name.now) };

    ghost says = { λ _. unreserve_line };

    fn request(&self) -> Result<Request, AllocError> {
        unreserve_request(self.alloc, self.name)
    }

    fn line(&self, found: ChangeOutcome) -> &'static str {
        found.line("unreserved\n", "no reservation\n")
    }
}

fn unreserve_request(alloc: Global, name: &str) -> Result<Request, AllocError>
    requires { IsName name.now }
    ensures request { IfOk result (λ request. request ≡ Changes (Unreserve name.now)) }
    ensures sound { IfOk result IsSoundRequest }
    ensures no_grace { IfOk result HasNoGrace }
    ensures change { IfOk result IsChange }
{
    let name = Text::copied(alloc, name)?;
    Ok(Request::Admin(Admin::Unreserve(name)))
}
