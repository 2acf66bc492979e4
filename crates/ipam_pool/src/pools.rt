ghost use Rattle.std.specs.Prelude.{◌≡◌};

use ipam_addr::Cidr;
use ipam_select::NodeSelector;
use ipam_text::Text;
use std::alloc::AllocError;
use std::error::Error;
use std::fmt;

/// Which requests a pool gives addresses to.
#[derive(Clone, Copy, Debug, PartialEq, Eq)]
pub enum Mode {
    /// All that it is there for.
    Automatic,
    /// Those that name it or ask for an address in it.
    Manual,
}

/// A CIDR whose addresses are given out, cut into slots of one size.
pub struct Pool {
    /// The name. No other pool of the same table has it.
    pub name: Text,
    /// The addresses of the pool. No other pool of the same table has any of them.
    pub cidr: Cidr,
    /// The prefix of each of its slots.
    pub size: u8,
    /// Whether no address of it is to be given any more. What is recorded stays.
    pub disabled: bool,
    /// Whether a request must name the pool, or ask for an address in it, to be given one.
    pub mode: Mode,
    /// Which nodes it is for.
    pub selector: NodeSelector,
}

impl Drop for Pool {
    fn drop(self) {
        let Pool {
            name: _,
            cidr: _,
            size: _,
            disabled: _,
            mode: _,
            selector: _,
        } = self;
    }
}

impl Pool {
    /// Sets what a change of the pool may set: its name, CIDR and size stay.
    pub(crate) fn set_rules(&mut self, disabled: bool, mode: Mode, selector: NodeSelector)
        ensures value { self.new ≡ record self.old { disabled = disabled; mode = mode; selector = selector } }
    {
        self.disabled = disabled;
        self.mode = mode;
        self.selector = selector;
    }
}

impl Clone for Pool {
    ghost is_clone = { λ old new. new ≡ old };

    fn clone(&self) -> Result<Pool, AllocError> {
        let name = self.name.clone()?;
        let selector = self.selector.clone()?;
        Ok(Pool {
            name,
            cidr: self.cidr,
            size: self.size,
            disabled: self.disabled,
            mode: self.mode,
            selector,
        })
    }
}

/// Why a pool is not added to a table.
#[derive(Clone, Copy, Debug, PartialEq, Eq)]
pub enum PoolRefusal {
    /// A pool of the name is there.
    NameTaken,
    /// The pool at this place shares addresses with it, and none before.
    Overlap(usize),
    /// The family has no slots of the size.
    Size,
    /// The pool is smaller than one slot.
    Prefix,
    /// The table is full.
    TooMany,
    /// There is no memory for one more.
    Memory,
}

impl fmt::Display for PoolRefusal {
    ghost use Rattle.std.specs.Prelude.{Some};
    ghost use Rattle.ipam_pool.specs.Printed.{refusal_text};

    ghost output = { λ refusal. Some (refusal_text refusal) };

    fn fmt<W: fmt::Write>(&self, f: &mut fmt::Formatter<W>) -> fmt::Result {
        match self {
            PoolRefusal::NameTaken => f.write_str("a pool of this name exists"),
            PoolRefusal::Overlap(place) => write!(f, "overlaps the pool at place {place}"),
            PoolRefusal::Size => f.write_str("slot size out of range"),
            PoolRefusal::Prefix => f.write_str("prefix longer than the slot size"),
            PoolRefusal::TooMany => f.write_str("too many pools"),
            PoolRefusal::Memory => f.write_str("out of memory"),
        }
    }
}

impl Error for PoolRefusal {}

/// No pool of the table has the name.
#[derive(Clone, Copy, Debug, PartialEq, Eq)]
pub struct NoSuchPool;

impl fmt::Display for NoSuchPool {
    ghost use Rattle.std.specs.Prelude.{Some};
    ghost use Rattle.ipam_pool.specs.Printed.{no_such_pool_text};

    ghost output = { λ _. Some no_such_pool_text };

    fn fmt<W: fmt::Write>(&self, f: &mut fmt::Formatter<W>) -> fmt::Result {
        f.write_str("no pool of this name")
    }
}

impl Error for NoSuchPool {}
