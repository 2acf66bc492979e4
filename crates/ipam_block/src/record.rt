ghost use Rattle.std.specs.Prelude.{◌≡◌, IfOk};

use crate::state::State;
use ipam_addr::Cidr;
use ipam_text::Text;
use std::alloc::AllocError;

/// The affinity of a node to the block of this CIDR.
pub struct Affinity {
    /// The name of the node.
    pub node: Text,
    /// The CIDR of the block.
    pub cidr: Cidr,
    /// How far the claim has come.
    pub state: State,
}

impl Drop for Affinity {
    fn drop(self) {
        let Affinity {
            node: _,
            cidr: _,
            state: _,
        } = self;
    }
}

impl Affinity {
    /// A copy with this state.
    pub fn with(&self, state: State) -> Result<Affinity, AllocError>
        ensures { IfOk result (λ a. a ≡ record self.now { state = state }) }
    {
        let node = self.node.clone()?;
        Ok(Affinity {
            node,
            cidr: self.cidr,
            state,
        })
    }
}

impl Clone for Affinity {
    ghost is_clone = { λ old new. new ≡ old };

    fn clone(&self) -> Result<Affinity, AllocError> {
        self.with(self.state)
    }
}
