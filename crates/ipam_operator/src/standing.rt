//! What stands in two reports.
ghost use Rattle.std.specs.Prelude.{◌≡◌};
ghost use Rattle.std.specs.List.{filter};
ghost use Rattle.ipam_model.specs.Usable.{is_same_cidr};
ghost use Rattle.ipam_operator.specs.Standing.{has_affinity, has_excess, is_same_affinity, is_same_excess, standing};

use ipam_addr::Cidr;
use ipam_commands::{Excess, Report};
use ipam_text::{Seq, Text};

/// The second report, with those of its counts and affinities alone that the first one has too.
pub(crate) fn standing(first: &Report, second: Report) -> Report
    ensures { result ≡ standing first.now second }
{
    let Report {
        excess,
        stale,
        stray,
        blocks,
        owners,
        handles,
    } = second;
    Report {
        excess: Seq::of(standing_excess(first.excess.as_slice(), excess.into_vec())),
        stale: Seq::of(standing_affinities(first.stale.as_slice(), stale.into_vec())),
        stray: Seq::of(standing_affinities(first.stray.as_slice(), stray.into_vec())),
        blocks,
        owners,
        handles,
    }
}

fn standing_excess(first: &[Excess], second: Vec<Excess>) -> Vec<Excess>
    ensures { result.items ≡ filter (has_excess first.now) second.items }
{
    let mut second = second;
    second.retain(|one| has_excess(first, one));
    second
}

fn has_excess(first: &[Excess], one: &Excess) -> bool
    ensures { result ≡ has_excess first.now one.now }
{
    first.iter().any(|other| is_same_excess(one, other))
}

fn is_same_excess(one: &Excess, other: &Excess) -> bool
    ensures { result ≡ is_same_excess one.now other.now }
{
    one.handle.as_str() == other.handle.as_str()
        && is_same_cidr(one.cidr, other.cidr)
        && one.count == other.count
        && one.owned == other.owned
}

fn standing_affinities(first: &[(Text, Cidr)], second: Vec<(Text, Cidr)>) -> Vec<(Text, Cidr)>
    ensures { result.items ≡ filter (has_affinity first.now) second.items }
{
    let mut second = second;
    second.retain(|one| has_affinity(first, one));
    second
}

fn has_affinity(first: &[(Text, Cidr)], one: &(Text, Cidr)) -> bool
    ensures { result ≡ has_affinity first.now one.now }
{
    first.iter().any(|other| is_same_affinity(one, other))
}

fn is_same_affinity(one: &(Text, Cidr), other: &(Text, Cidr)) -> bool
    ensures { result ≡ is_same_affinity one.now other.now }
{
    one.0.as_str() == other.0.as_str() && is_same_cidr(one.1, other.1)
}

fn is_same_cidr(one: Cidr, other: Cidr) -> bool
    ensures { result ≡ is_same_cidr one other }
{
    one.cmp(&other).is_eq()
}
