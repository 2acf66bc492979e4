//! What the blocks of a pool, of a node, or all of them come to.
ghost use Rattle.std.specs.Prelude.{◌≡◌, ◌<◌, ◌^◌, length, sum_by};
ghost use Rattle.ipam_show.specs.Scopes.{amount_for, amount_of, block_sum, is_of_node, is_taken, is_within};

use crate::counting::BlockCount;
use ipam_addr::Cidr;

/// Which blocks count.
#[derive(Clone, Copy)]
pub enum Scope<'a> {
    /// All of them.
    All,
    /// The blocks of the pool of this CIDR.
    Pool(Cidr),
    /// The blocks of the pool of this CIDR that have a node.
    Taken(Cidr),
    /// The blocks of this node.
    Node(&'a str),
}

/// Whether the block counts.
pub(crate) fn is_within(scope: &Scope<'_>, count: &BlockCount) -> bool
    ensures { result ≡ is_within scope.now count.now }
{
    match scope {
        Scope::All => true,
        Scope::Pool(cidr) => cidr.contains(count.cidr.base()),
        Scope::Taken(cidr) => is_taken(*cidr, count),
        Scope::Node(node) => is_of_node(node, count),
    }
}

fn is_taken(cidr: Cidr, count: &BlockCount) -> bool
    ensures { result ≡ is_taken cidr count.now }
{
    cidr.contains(count.cidr.base()) && count.node.is_some()
}

/// Whether the block is affine to the node.
pub fn is_of_node(node: &str, count: &BlockCount) -> bool
    ensures { result ≡ is_of_node node.now count.now }
{
    match &count.node {
        Some(name) => name.as_str() == node,
        None => false,
    }
}

/// Which of the addresses of a block are counted.
#[derive(Clone, Copy)]
pub enum Amount {
    /// All of them.
    Size,
    /// Those that are assigned.
    Used,
    /// Those that could still be given.
    Free,
    /// Those that are neither.
    Reserved,
}

/// How many such addresses the blocks that count have.
pub fn amount_sum(amount: Amount, scope: &Scope<'_>, counts: &[BlockCount]) -> u64
    requires { length counts.now < 2 ^ 32 }
    ensures sum { result ≡ sum_by (amount_for amount (is_within scope.now)) counts.now }
    ensures small { result < 2 ^ 48 }
{
    let mut total = 0u64;
    for count in counts {
        total += u64::from(amount_for(amount, scope, count));
    }
    total
}

fn amount_for(amount: Amount, scope: &Scope<'_>, count: &BlockCount) -> u16
    ensures { result ≡ amount_for amount (is_within scope.now) count.now }
{
    if is_within(scope, count) {
        amount_of(amount, count)
    } else {
        0
    }
}

fn amount_of(amount: Amount, count: &BlockCount) -> u16
    ensures { result ≡ amount_of amount count.now }
{
    match amount {
        Amount::Size => count.size,
        Amount::Used => count.used,
        Amount::Free => count.free,
        Amount::Reserved => count
            .size
            .saturating_sub(count.used)
            .saturating_sub(count.free),
    }
}

/// How many blocks count.
pub fn block_sum(scope: &Scope<'_>, counts: &[BlockCount]) -> u64
    requires { length counts.now < 2 ^ 32 }
    ensures { result ≡ block_sum (is_within scope.now) counts.now }
{
    let mut total = 0u64;
    for count in counts {
        if is_within(scope, count) {
            total += 1;
        }
    }
    total
}
