ghost use Rattle.std.specs.Prelude.{◌≡◌, ◌↔◌, IsTrue};
ghost use Rattle.ipam_select.specs.Formula.{formula, every};
ghost use Rattle.ipam_select.specs.Admitting.{admits};
ghost use Rattle.ipam_select.specs.Every.{is_every};
ghost use Rattle.ipam_select.specs.Sound.{is_sound, IsReadOfSome};

use crate::selector::Selector;
use ipam_text::Text;
use std::alloc::{AllocError, Global};
use std::marker::Model;

/// A selector with what its copies are made in, which contracts see as the formula that it stands
/// for.
pub struct NodeSelector {
    selector: Selector,
    alloc: Global,
}

impl Drop for NodeSelector {
    fn drop(self) {
        let NodeSelector {
            selector: _,
            alloc: _,
        } = self;
    }
}

impl Model for NodeSelector {
    ghost use Rattle.ipam_select.specs.Formula.{Formula, formula};
    ghost use Rattle.ipam_select.specs.Stored.{coded_formula};

    ghost Value = { Formula };

    ghost coded = { coded_formula };

    ghost view = { λ s. formula s.selector };
}

impl NodeSelector {
    /// The nodes that the selector names. Takes no memory.
    pub fn new(alloc: Global, selector: Selector) -> NodeSelector
        ensures { result ≡ formula selector }
    {
        NodeSelector { selector, alloc }
    }

    /// All nodes, which takes no memory.
    pub fn all(alloc: Global) -> NodeSelector
        ensures { result ≡ every }
    {
        NodeSelector::new(alloc, Selector::All)
    }

    /// The selector itself.
    pub fn selector(&self) -> &Selector
        ensures { formula result.now ≡ self.now }
    {
        &self.selector
    }

    /// Whether this is `All`.
    pub fn is_all(&self) -> bool
        ensures { result ≡ is_every self.now }
    {
        match &self.selector {
            Selector::All => true,
            _ => false,
        }
    }

    /// Whether a node with these labels is one that the selector means.
    pub fn admits(&self, labels: &[(Text, Text)]) -> bool
        ensures { result ≡ admits self.now labels.now }
    {
        self.selector.admits(labels)
    }

    /// Whether some text is read as this selector.
    pub fn is_sound(&self) -> bool
        ensures exact { IsTrue result ↔ IsReadOfSome self.now }
        ensures value { result ≡ is_sound self.now }
    {
        self.selector.is_sound()
    }
}

impl Clone for NodeSelector {
    ghost is_clone = { λ old new. new ≡ old };

    fn clone(&self) -> Result<NodeSelector, AllocError> {
        let selector = self.selector.copy(self.alloc)?;
        Ok(NodeSelector::new(self.alloc, selector))
    }
}
