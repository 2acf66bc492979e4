//! `release NODE CIDR`: a node gives up a block.
ghost use Rattle.std.specs.Prelude.{◌≡◌, ◌≢◌, IfOk, Result};
ghost use Rattle.ipam_records.specs.Sound.{IsName};
ghost use Rattle.ipam_model.specs.declared.request.Request.TheVariants.{Release};
ghost use Rattle.ipam_model.specs.SoundRequest.{IsSoundRequest};
ghost use Rattle.ipam_shared.specs.declared.kept.KeptFault.{KeptFault as Fault};
ghost use Rattle.ipam_shared.specs.Solo.{HasNoGrace};
ghost use Rattle.ipam_commands.specs.declared.outcome.ChangeOutcome.{ChangeOutcome as Outcome};
ghost use Rattle.ipam_commands.specs.Changing.{ChangeEnds, ChangeWrites, IsChange, release_line};
ghost use Rattle.ipam_commands.specs.Telling.{Writes};

use crate::changing::{MakesChange, tell_change};
use crate::outcome::ChangeOutcome;
use crate::status::Status;
use ipam_addr::Cidr;
use ipam_io::Sink;
use ipam_keeper::Keeper;
use ipam_model::Request;
use ipam_text::Text;
use std::alloc::{AllocError, Global};

/// Releases the node's affinity to the block, as a request that runs by itself over the keeper's rows, and
/// writes what came of it.
pub fn release<K: Sink, D: Keeper>(
    alloc: Global,
    sink: &mut K,
    keeper: &mut D,
    node: &str,
    block: Cidr,
) -> Status
    requires { IsName node.now }
    ensures released { (came : Result Outcome Fault)
        × ChangeEnds (Release node.now block) came (D.rows keeper.old) (D.rows keeper.new) (D.faults keeper.old) (D.faults keeper.new)
        × ChangeWrites release_line (λ text own. Writes (K.written sink.old) (K.written sink.new)
        (K.write_faults sink.old) (K.write_faults sink.new) text own result) (result ≢ Status.NoMemory) came }
    ensures rest { K.write_rest sink.new ≡ K.write_rest sink.old }
{
    tell_change(alloc, &Releasing { alloc, node, block }, sink, keeper)
}

/// The release of this node's affinity to this block.
#[derive(Drop)]
struct Releasing<'a> {
    alloc: Global,
    node: &'a str,
    block: Cidr,
}

impl<'a> MakesChange for Releasing<'a> {
    ghost wants = { λ _. Unit {0} };

    ghost may = { λ releasing. IsName releasing.node.now };

    ghost asks = { λ releasing. Release releasing.node.now releasing.block };

    ghost says = { λ _. release_line };

    fn request(&self) -> Result<Request, AllocError> {
        release_request(self.alloc, self.node, self.block)
    }

    fn line(&self, found: ChangeOutcome) -> &'static str {
        found.line("released\n", "no affinity\n")
    }
}

fn release_request(alloc: Global, node: &str, block: Cidr) -> Result<Request, AllocError>
    requires { IsName node.now }
    ensures request { IfOk result (λ request. request ≡ Release node.now block) }
    ensures sound { IfOk result IsSoundRequest }
    ensures no_grace { IfOk result HasNoGrace }
    ensures change { IfOk result IsChange }
{
    let node = Text::copied(alloc, node)?;
    let _sound = block.base();
    Ok(Request::Release(node, block))
}
