ghost use Rattle.std.specs.Prelude.{◌≡◌, ◌&&◌, ◌||◌, not, position};
ghost use Rattle.std.specs.List.{list_any};
ghost use Rattle.ipam_addr.specs.Text.{cidr_reading};
ghost use Rattle.ipam_model.specs.Usable.{is_name_of, is_cidr_read, is_same_cidr, is_enabled, is_pool_asked, is_usable, is_known, is_automatic, names_none, unknown_name};

use crate::confirmed::Confirmed;
use ipam_addr::{Cidr, Family, read_cidr};
use ipam_pool::{Mode, Pool, PoolTable, Reserved};
use ipam_records::{Config, Listing};
use ipam_text::Text;

/// What a request says about one family.
#[derive(Clone, Copy)]
pub struct Wanted<'a> {
    /// The node that the address is for.
    pub node: &'a str,
    /// The family that the address is to have.
    pub family: Family,
    /// The pools of the family that are named, by their names or CIDRs. None means any.
    pub names: &'a [Text],
    /// The labels of the node.
    pub labels: &'a [(Text, Text)],
    /// Whether one address is asked for, and no other.
    pub one_address: bool,
}

/// What was read.
#[derive(Clone, Copy)]
pub struct View<'a> {
    /// How addresses are given out.
    pub config: Config,
    /// The table of all pools.
    pub pools: &'a PoolTable,
    /// The addresses that the reservations hold.
    pub reserved: &'a Reserved,
    /// The affinities of all nodes.
    pub affinities: Listing<'a>,
    /// The blocks of all nodes and of none.
    pub blocks: Listing<'a>,
}

/// What is known once the blocks are listed, with the node's confirmed affinities in place of all
/// that were listed.
#[derive(Clone, Copy)]
pub struct Known<'a, 's> {
    /// How addresses are given out.
    pub config: Config,
    /// The table of all pools.
    pub pools: &'s PoolTable,
    /// The addresses that the reservations hold.
    pub reserved: &'s Reserved,
    /// The blocks whose affinity to the node is confirmed.
    pub confirmed: &'s Confirmed,
    /// The blocks of all nodes and of none.
    pub blocks: Listing<'a>,
}

impl Wanted<'_> {
    ghost use Rattle.ipam_choice.specs.Viewed.{asked_of};

    /// The place of the first name that no enabled pool of the family has. Takes no memory.
    pub(crate) fn unknown_name(&self, pools: &[Pool]) -> Option<usize>
        ensures { result ≡ unknown_name (asked_of self.now) pools.now }
    {
        self.names
            .iter()
            .position(|name| !self.is_known(pools, name))
    }

    fn is_known(&self, pools: &[Pool], name: &Text) -> bool
        ensures { result ≡ is_known (asked_of self.now) pools.now name.now }
    {
        pools
            .iter()
            .any(|pool| self.is_enabled(pool) && is_name_of(pool, name))
    }

    /// Whether addresses may be taken from the pool. Takes no memory.
    pub fn may_use(&self, pool: &Pool) -> bool
        ensures { result ≡ is_usable (asked_of self.now) pool.now }
    {
        self.is_enabled(pool) && pool.selector.admits(self.labels) && self.is_meant(pool)
    }

    // Whether the names and the mode of the pool allow it.
    fn is_meant(&self, pool: &Pool) -> bool
        ensures { result ≡ ((names_none (asked_of self.now) || is_pool_asked (asked_of self.now) pool.now)
            && (is_automatic pool.now.mode || is_pool_asked (asked_of self.now) pool.now || self.now.one_address)) }
    {
        if self.names.is_empty() {
            pool.mode == Mode::Automatic || self.one_address
        } else {
            self.is_named(pool)
        }
    }

    fn is_named(&self, pool: &Pool) -> bool
        ensures { result ≡ is_pool_asked (asked_of self.now) pool.now }
    {
        self.names.iter().any(|name| is_name_of(pool, name))
    }

    fn is_enabled(&self, pool: &Pool) -> bool
        ensures { result ≡ is_enabled (asked_of self.now) pool.now }
    {
        !pool.disabled && self.family == pool.cidr.family()
    }
}

// Whether the name is the pool's, or its CIDR in whichever spelling.
fn is_name_of(pool: &Pool, name: &Text) -> bool
    ensures { result ≡ is_name_of pool.now name.now }
{
    pool.name == *name || is_text_of(pool.cidr, name)
}

fn is_text_of(cidr: Cidr, text: &Text) -> bool
    ensures { result ≡ is_cidr_read cidr (cidr_reading text.now) }
{
    match read_cidr(text.as_bytes()) {
        Ok(read) => is_same(cidr, read),
        Err(_) => false,
    }
}

fn is_same(cidr: Cidr, other: Cidr) -> bool
    ensures { result ≡ is_same_cidr cidr other }
{
    cidr.cmp(&other).is_eq()
}
