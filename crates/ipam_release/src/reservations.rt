ghost use Rattle.std.specs.Prelude.{◌≡◌, not, filter, ◌++◌, [], ◌∷◌, IfOk};
ghost use Rattle.std.specs.List.{list_any};
ghost use Rattle.ipam_model.specs.Admin.{is_named, with_reservation, reserve_changed, unreserve_changed};
ghost use Rattle.ipam_release.specs.Change.{changed_to, reservation_in};

use crate::change::Change;
use ipam_pool::{MOST_RESERVATIONS, Reservation};
use ipam_records::Record;
use ipam_text::{Seq, Text};
use std::alloc::{AllocError, Global};

/// Replaces the reservation of this name, or appends it.
pub(crate) fn reserve(
    alloc: Global,
    list: &[Reservation],
    new: &Reservation,
) -> Result<Change, AllocError>
    ensures { IfOk result (λ change. changed_to change ≡ reserve_changed list.now new.now) }
{
    if is_there(list, new.name()) {
        return Ok(Change::Becomes(Record::Reservations(replaced(alloc, list, new)?)));
    }
    if list.len() >= MOST_RESERVATIONS {
        return Ok(Change::Refuses(7, Text::copied(alloc, new.name())?));
    }
    Ok(Change::Becomes(Record::Reservations(appended(alloc, list, new)?)))
}

/// Removes the reservation of this name.
pub(crate) fn unreserve(
    alloc: Global,
    list: &[Reservation],
    name: &Text,
) -> Result<Change, AllocError>
    ensures { IfOk result (λ change. changed_to change ≡ unreserve_changed list.now name.now) }
{
    if !is_there(list, name.as_str()) {
        return Ok(Change::Refuses(8, name.clone()?));
    }
    Ok(Change::Becomes(Record::Reservations(without(alloc, list, name.as_str())?)))
}

fn is_there(list: &[Reservation], name: &str) -> bool
    ensures { result ≡ list_any (is_named name.now) list.now }
{
    list.iter().any(|other| other.name() == name)
}

/// The list with the reservation in the place of that of its name.
fn replaced(
    alloc: Global,
    list: &[Reservation],
    new: &Reservation,
) -> Result<Seq<Reservation>, AllocError>
    ensures { IfOk result (λ changed. changed ≡ with_reservation new.now list.now) }
{
    let mut changed = Seq::new(alloc);
    for other in list {
        changed.push(chosen(other, new)?)?;
    }
    Ok(changed)
}

/// The new reservation, where the other has its name.
fn chosen(other: &Reservation, new: &Reservation) -> Result<Reservation, AllocError>
    ensures { IfOk result (λ r. r ≡ reservation_in new.now other.now) }
{
    if other.name() == new.name() {
        return new.clone();
    }
    other.clone()
}

/// The list with the reservation after it.
fn appended(
    alloc: Global,
    list: &[Reservation],
    new: &Reservation,
) -> Result<Seq<Reservation>, AllocError>
    ensures { IfOk result (λ changed. changed ≡ list.now ++ new.now ∷ []) }
{
    let mut changed = copied(alloc, list)?;
    changed.push(new.clone()?)?;
    Ok(changed)
}

fn copied(alloc: Global, list: &[Reservation]) -> Result<Seq<Reservation>, AllocError>
    ensures { IfOk result (λ copy. copy ≡ list.now) }
{
    let mut copy = Seq::new(alloc);
    for reservation in list {
        copy.push(reservation.clone()?)?;
    }
    Ok(copy)
}

/// The list without the reservation of this name.
fn without(alloc: Global, list: &[Reservation], name: &str) -> Result<Seq<Reservation>, AllocError>
    ensures { IfOk result (λ changed. changed ≡ filter (λ r. not (is_named name.now r)) list.now) }
{
    let mut changed = Seq::new(alloc);
    for other in list {
        if other.name() != name {
            changed.push(other.clone()?)?;
        }
    }
    Ok(changed)
}
