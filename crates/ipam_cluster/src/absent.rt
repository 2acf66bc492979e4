ghost use Rattle.std.specs.Prelude.{◌≡◌, ◌<◌, IfOk};
ghost use Rattle.ipam_addr.specs.Width.{cidr_size};
ghost use Rattle.ipam_block.specs.declared.limits.TheConstants.{ADDRESSES_MAX};
ghost use Rattle.ipam_model.specs.Affinities.{release};

use ipam_addr::Cidr;
use ipam_model::ReleaseAnswer;
use ipam_records::{Call, Heard, Key, Procedure};
use ipam_text::Text;
use std::alloc::{AllocError, Global};

/// The release of a node's affinity to a CIDR that is too large for a block. No node has one, so its
/// one read decides.
pub struct AbsentRelease {
    node: Text,
    cidr: Cidr,
    ghost large: { ADDRESSES_MAX < cidr_size cidr },
}

impl Drop for AbsentRelease {
    fn drop(self) {
        let AbsentRelease { node: _, cidr: _ } = self;
    }
}

/// The read of a release that finds no affinity.
#[derive(Clone, Copy)]
pub struct AbsentTurned {
    moment: u64,
}

impl AbsentRelease {
    ghost use Rattle.ipam_cluster.specs.Absent.{absent_rest};

    /// The release of the node's affinity to this CIDR.
    pub fn new(alloc: Global, node: &str, cidr: Cidr) -> Result<AbsentRelease, AllocError>
        requires { ADDRESSES_MAX < cidr_size cidr }
        ensures { IfOk result (λ p. absent_rest p ≡ release node.now cidr) }
    {
        let node = Text::copied(alloc, node)?;
        Ok(AbsentRelease { node, cidr })
    }
}

impl Procedure for AbsentRelease {
    ghost use Rattle.ipam_cluster.specs.Absent.{absent_rest, absent_leaves};

    type Turned = AbsentTurned;

    type Answer = ReleaseAnswer;

    ghost rest = { absent_rest };

    ghost leaves = { absent_leaves };

    ghost fits = { λ p turned. Unit {0} };

    #[tactic(auto, using(crate::proofs::AbsentLemmas::absent_asks))]
    fn call(&self, _alloc: Global) -> Result<Call, AllocError> {
        Ok(Call::Get(Key::Affinity(self.node.clone()?, self.cidr)))
    }

    #[tactic(auto, using(crate::proofs::AbsentLemmas::absent_hears))]
    fn took(&self, _alloc: Global, hearing: &Heard) -> Result<AbsentTurned, AllocError> {
        let moment = hearing.moment;
        Ok(AbsentTurned { moment })
    }

    fn go(&mut self, turned: AbsentTurned) -> Option<ReleaseAnswer> {
        Some(ReleaseAnswer::NoAffinity(turned.moment))
    }
}
