//! Attributes as a key of a map.
ghost use Rattle.std.specs.Cmp;
ghost use Rattle.std.specs.Cmp.Rules.{hashing};
ghost use Rattle.std.specs.Hash as fed;
ghost use Rattle.std.proofs.Common.{rules};
ghost use Rattle.ipam_block_text.specs.Attributes.{are_same, are_same_equiv};

use ipam_block::Attributes;
use std::hash::{Hash, Hasher};
use std::marker::Model;

/// Attributes that are looked for by their handle and their pairs. A block has at most 4,096, which is
/// also a bound on what handles cost that are chosen to have one hash.
#[derive(Drop)]
pub(crate) struct AttributesKey<'a> {
    pub own: &'a Attributes,
}

impl<'a> Model for AttributesKey<'a> {
    ghost use Rattle.ipam_block.specs.declared.allocation.Attributes.{Attributes};

    ghost Value = { Attributes };

    ghost view = { λ k. k.own.now };
}

impl<'a> PartialEq for AttributesKey<'a> {
    ghost eq = { are_same };

    ghost laws = { Cmp.partial_equiv_from_equiv are_same_equiv };

    fn eq(&self, other: &AttributesKey<'a>) -> bool {
        let pairs = self.own.secondary.as_slice();
        self.own.handle == other.own.handle && pairs == other.own.secondary.as_slice()
    }
}

impl<'a> Eq for AttributesKey<'a> {
    ghost laws = { are_same_equiv };
}

impl<'a> Hash for AttributesKey<'a> {
    ghost hash_input = { λ a. fed.str a.handle };

    ghost respects_eq = { Prim.search (hashing, rules) };

    fn hash<H: Hasher>(&self, state: &mut H) {
        self.own.handle.as_str().hash(state);
    }
}
