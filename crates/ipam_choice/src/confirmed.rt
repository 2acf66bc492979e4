ghost use Rattle.std.specs.Prelude.{◌≡◌, ◌||◌, false, IfOk, OnOk};
ghost use Rattle.ipam_model.specs.Usable.{is_same_cidr};
ghost use Rattle.ipam_choice.specs.Confirmed.{confirmed_in, is_there};
ghost use Rattle.std.specs.List.{list_any};
ghost use Rattle.ipam_addr.specs.Shape.{CidrValue};
ghost use Rattle.ipam_records.specs.Listing.{rows_of};
ghost use Rattle.ipam_model.specs.Choice.{is_confirmed_for};

use ipam_addr::Cidr;
use ipam_block::State;
use ipam_records::{Listing, Record};
use std::alloc::{AllocError, Global};
use std::collections::BTreeSet;

/// The blocks whose affinity to a node is confirmed.
#[derive(Drop)]
pub struct Confirmed {
    cidrs: BTreeSet<Cidr>,
}

impl Confirmed {
    ghost use Rattle.ipam_choice.specs.Confirmed.{has_confirmed};

    /// The blocks whose affinity to the node is confirmed among these.
    pub fn of(alloc: Global, node: &str, affinities: &Listing) -> Result<Confirmed, AllocError>
        ensures { IfOk result (λ confirmed. (cidr : CidrValue) → has_confirmed confirmed cidr
            ≡ list_any (is_confirmed_for node.now cidr) (rows_of affinities.now)) }
    {
        let mut confirmed = Confirmed::none(alloc);
        for page in affinities.pages() {
            confirmed.add_page(node, page)?;
        }
        Ok(confirmed)
    }

    fn none(alloc: Global) -> Confirmed
        ensures { (cidr : CidrValue) → has_confirmed result cidr ≡ false }
    {
        Confirmed {
            cidrs: BTreeSet::new(alloc),
        }
    }

    fn add_page(&mut self, node: &str, page: &[(u64, Record)]) -> Result<(), AllocError>
        ensures { OnOk result ((cidr : CidrValue) → has_confirmed self.new cidr
            ≡ (has_confirmed self.old cidr || list_any (is_confirmed_for node.now cidr) page.now)) }
    {
        for row in page {
            self.add_confirmed(node, &row.1)?;
        }
        Ok(())
    }

    fn add_confirmed(&mut self, node: &str, kept: &Record) -> Result<(), AllocError>
        ensures { OnOk result ((other : CidrValue) → has_confirmed self.new other
            ≡ (has_confirmed self.old other || is_there (confirmed_in node.now kept.now) other)) }
    {
        match confirmed_cidr(node, kept) {
            Some(cidr) => self.add(cidr),
            None => Ok(()),
        }
    }

    fn add(&mut self, cidr: Cidr) -> Result<(), AllocError>
        ensures { OnOk result ((other : CidrValue) → has_confirmed self.new other
            ≡ (has_confirmed self.old other || is_same_cidr cidr other)) }
    {
        match self.cidrs.insert(cidr) {
            Ok(_) => Ok(()),
            Err(_) => Err(AllocError),
        }
    }

    /// Whether the block's affinity is confirmed.
    pub fn has(&self, cidr: Cidr) -> bool
        ensures { result ≡ has_confirmed self.now cidr }
    {
        self.cidrs.contains(&cidr)
    }
}

// The block of the affinity, where it is a confirmed one of the node.
fn confirmed_cidr(node: &str, kept: &Record) -> Option<Cidr>
    ensures { result ≡ confirmed_in node.now kept.now }
{
    match kept {
        Record::Affinity(affinity) => {
            if affinity.node.as_str() == node && affinity.state == State::Confirmed {
                Some(affinity.cidr)
            } else {
                None
            }
        }
        _ => None,
    }
}
