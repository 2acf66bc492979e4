ghost use Rattle.std.specs.Prelude.{◌≡◌, None, IfOk};
ghost use Rattle.ipam_model.specs.Affinities.{release};
ghost use Rattle.ipam_model.specs.Told.{of_release};
ghost use Rattle.ipam_cluster.specs.Running.{running_rest, running_grace, telling};

use crate::absent::AbsentRelease;
use crate::running::{Kept, Running};
use ipam_addr::{Cidr, allows_size};
use ipam_parts::ReleaseAffinityProc;
use std::alloc::{AllocError, Global};

/// The release of the affinity, which none can have where the CIDR is too large for a block.
#[tactic(auto, unfolding(crate::specs::Running::telling, crate::specs::Running::running_rest, crate::specs::Running::running_grace), using(crate::proofs::AbsentLemmas::block_sized, crate::proofs::AbsentLemmas::too_large))]
pub(crate) fn release_of(alloc: Global, node: &str, cidr: Cidr) -> Result<Running, AllocError>
    ensures word { IfOk result (λ p. running_rest p ≡ telling of_release (release node.now cidr)) }
    ensures grace { IfOk result (λ p. running_grace p ≡ None) }
{
    if allows_size(cidr.family(), cidr.prefix()) {
        Ok(Running {
            kept: Kept::Release(ReleaseAffinityProc::new(alloc, node, cidr)?),
        })
    } else {
        Ok(Running {
            kept: Kept::Absent(AbsentRelease::new(alloc, node, cidr)?),
        })
    }
}
