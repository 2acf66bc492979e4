ghost use Rattle.std.specs.Prelude.{◌≡◌, ℕ, ◌+◌, ◌<◌, ◌≤◌, ◌||◌, ◌∷◌, length, All, IsNone, IsTrue, IfOk, IfSome, OnOk, slice_index_or};
ghost use Rattle.std.specs.List.{list_any};
ghost use Rattle.std.specs.List.Sorted.{IsNonDecreasingBy};
ghost use Rattle.ipam_addr.specs.Holding.{holds_address};
ghost use Rattle.ipam_pool.specs.Spans.{span_holds, spans_hold, IsOrdered, IsMerged, IsFirstGap, AllHeld};
ghost use Rattle.ipam_pool.specs.Sweep.{Sweeps};
ghost use Rattle.ipam_pool.specs.Union.{address_at, is_in_union};
ghost use Rattle.ipam_pool.specs.declared.spans.Span.{Span};

use crate::reservations::Reservation;
use ipam_addr::{Cidr, Family};
use std::alloc::{AllocError, Global};

/// All numbers from the first to the last.
#[derive(Clone, Copy)]
pub struct Span {
    first: u128,
    last: u128,
}

/// The least number from `from` to `last` that no span has.
pub(crate) fn first_gap(spans: &[Span], from: u128, last: u128) -> Option<u128>
    requires merged { IsMerged spans.now }
    requires order { from ≤ last }
    ensures found { IfSome result (IsFirstGap spans.now from last) }
    ensures none { IsNone result → AllHeld spans.now from last }
{
    let place = ends_below(spans, from);
    if place == spans.len() || from < spans[place].first {
        return Some(from);
    }
    let end = spans[place].last;
    if end < last { Some(end + 1) } else { None }
}

// How many spans end below the number. They are the first ones.
fn ends_below(spans: &[Span], number: u128) -> usize
    requires { IsMerged spans.now }
    ensures within { result ≤ length spans.now }
    ensures before { (k : ℕ) (d : Span) → k < result
        → (slice_index_or spans.now k d).last < number }
    ensures behind { (k : ℕ) (d : Span) → result ≤ k → k < length spans.now
        → number ≤ (slice_index_or spans.now k d).last }
{
    spans.partition_point(|span| span.last < number)
}

/// The addresses of the family that the reservations hold, as spans that ascend and do not touch.
pub(crate) fn union_of(
    alloc: Global,
    list: &[Reservation],
    family: Family,
) -> Result<Vec<Span>, AllocError>
    ensures merged { IfOk result (λ v. IsMerged v.items) }
    ensures union { IfOk result (λ v. (n : ℕ)
        → spans_hold v.items n ≡ is_in_union list.now (address_at family n)) }
{
    let mut spans = Vec::new(alloc);
    for reservation in list {
        push_spans(&mut spans, reservation.cidrs(), family)?;
    }
    spans.sort_unstable_by_key(|span| span.first);
    merged(alloc, spans.as_slice())
}

// Appends the spans of those CIDRs that are of the family.
fn push_spans(spans: &mut Vec<Span>, cidrs: &[Cidr], family: Family) -> Result<(), AllocError>
    requires { All IsOrdered spans.old.items }
    ensures ordered { OnOk result (All IsOrdered spans.new.items) }
    ensures held { OnOk result ((n : ℕ) → spans_hold spans.new.items n
        ≡ (spans_hold spans.old.items n
        || list_any (λ c. holds_address c (address_at family n)) cidrs.now)) }
{
    for cidr in cidrs {
        push_span(spans, *cidr, family)?;
    }
    Ok(())
}

// Appends the span of the CIDR, if that is of the family.
fn push_span(spans: &mut Vec<Span>, cidr: Cidr, family: Family) -> Result<(), AllocError>
    requires { All IsOrdered spans.old.items }
    ensures ordered { OnOk result (All IsOrdered spans.new.items) }
    ensures held { OnOk result ((n : ℕ) → spans_hold spans.new.items n
        ≡ (spans_hold spans.old.items n || holds_address cidr (address_at family n))) }
{
    if cidr.family() != family {
        return Ok(());
    }
    spans.push(span_of(cidr))?;
    Ok(())
}

fn span_of(cidr: Cidr) -> Span
    ensures ordered { IsOrdered result }
    ensures held { (n : ℕ) → span_holds result n ≡ holds_address cidr (address_at cidr.family n) }
{
    Span {
        first: cidr.base().number,
        last: cidr.last().number,
    }
}

// Spans that hold these numbers and do not touch, from spans by ascending first number.
fn merged(alloc: Global, spans: &[Span]) -> Result<Vec<Span>, AllocError>
    requires ordered { All IsOrdered spans.now }
    requires ascending { IsNonDecreasingBy (λ s. s.first) spans.now }
    ensures merged { IfOk result (λ v. IsMerged v.items) }
    ensures held { IfOk result (λ v. (n : ℕ) → spans_hold v.items n ≡ spans_hold spans.now n) }
{
    match spans {
        [first, rest @ ..] => swept(alloc, *first, rest),
        [] => Ok(Vec::new(alloc)),
    }
}

fn swept(alloc: Global, first: Span, rest: &[Span]) -> Result<Vec<Span>, AllocError>
    requires ordered { All IsOrdered (first ∷ rest.now) }
    requires ascending { IsNonDecreasingBy (λ s. s.first) (first ∷ rest.now) }
    ensures merged { IfOk result (λ v. IsMerged v.items) }
    ensures held { IfOk result (λ v. (n : ℕ)
        → spans_hold v.items n ≡ (span_holds first n || spans_hold rest.now n)) }
{
    let mut done = Vec::new(alloc);
    let mut current = first;
    for span in rest {
        current = current_after(&mut done, current, *span)?;
    }
    done.push(current)?;
    Ok(done)
}

// The span that may still grow after this one: both where they touch, and else this one, in which
// case the one before is done.
fn current_after(done: &mut Vec<Span>, current: Span, span: Span) -> Result<Span, AllocError>
    requires sound { Sweeps done.old.items current }
    requires ordered { IsOrdered span }
    requires ascending { current.first ≤ span.first }
    ensures sound { IfOk result (λ o. Sweeps done.new.items o) }
    ensures ascending { IfOk result (λ o. o.first ≤ span.first) }
    ensures held { IfOk result (λ o. (n : ℕ) → (spans_hold done.new.items n || span_holds o n)
        ≡ ((spans_hold done.old.items n || span_holds current n) || span_holds span n)) }
{
    if span.first.saturating_sub(1) <= current.last {
        return Ok(Span {
            first: current.first,
            last: current.last.max(span.last),
        });
    }
    done.push(current)?;
    Ok(span)
}
