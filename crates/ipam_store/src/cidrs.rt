ghost use Rattle.std.specs.Prelude.{◌≡◌, ◌+◌, ◌<◌, ◌≤◌, length, IfOk, IfErr};
ghost use Rattle.std.specs.Vec.{vec_len, vec_capacity};
ghost use Rattle.ipam_block.specs.Order.{cidr_cmp};
ghost use Rattle.ipam_records.specs.Places.{IsFoundAt, IsGapAt};
ghost use Rattle.ipam_store.specs.CidrLists.{CidrsAscend, with_cidr, without_cidr};

use ipam_addr::Cidr;

/// Where the CIDR is, or where it would go.
fn place(cidrs: &[Cidr], cidr: Cidr) -> Result<usize, usize>
    requires { CidrsAscend cidrs.now }
    ensures found { IfOk result (IsFoundAt (λ other. cidr_cmp other cidr) cidrs.now) }
    ensures absent { IfErr result (IsGapAt (λ other. cidr_cmp other cidr) cidrs.now) }
{
    cidrs.binary_search_by(|other| other.cmp(&cidr))
}

/// Puts the CIDR in at its place, unless it is there. Takes no memory.
pub(crate) fn insert(cidrs: &mut Vec<Cidr>, cidr: Cidr)
    requires ascend { CidrsAscend cidrs.old.items }
    requires room { vec_len cidrs.old < vec_capacity cidrs.old }
    ensures items { cidrs.new.items ≡ with_cidr cidr cidrs.old.items }
    ensures ascend { CidrsAscend cidrs.new.items }
    ensures some { 1 ≤ length cidrs.new.items }
    ensures grows { vec_len cidrs.new ≤ vec_len cidrs.old + 1 }
    ensures capacity { vec_capacity cidrs.new ≡ vec_capacity cidrs.old }
{
    if let Err(place) = place(cidrs, cidr) {
        if cidrs.insert(place, cidr).is_err() {
            unreachable!()
        }
    }
}

/// Takes the CIDR out, if it is there.
pub(crate) fn remove(cidrs: &mut Vec<Cidr>, cidr: Cidr)
    requires { CidrsAscend cidrs.old.items }
    ensures items { cidrs.new.items ≡ without_cidr cidr cidrs.old.items }
    ensures ascend { CidrsAscend cidrs.new.items }
    ensures fewer { vec_len cidrs.new ≤ vec_len cidrs.old }
    ensures capacity { vec_capacity cidrs.new ≡ vec_capacity cidrs.old }
{
    if let Ok(place) = place(cidrs, cidr) {
        cidrs.remove(place);
    }
}
