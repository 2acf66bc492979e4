// The steps on the table of a lock that make a pass of one, and one of two.
ghost use Rattle.std.specs.Prelude.{◌≡◌, ◌≢◌, ◌+◌, ◌<◌, ◌≤◌, [], ◌∷◌, IfSome, IfNone};
ghost use Rattle.turn_lock.specs.declared.limits.TheConstants.{SPLIT_TURNS};
ghost use Rattle.turn_lock.specs.Histories.{NoneBy};
ghost use Rattle.turn_lock.specs.Moves.{IsIdle, sparing, worn, kept_part, new_part, both, Learned};
ghost use Rattle.turn_lock.specs.Passes.{IsDesk, IsSameSeat};

use crate::booked::Booked;
use crate::desk::{Desk, Seat};
use crate::limits::{MOST_PASSES, NEXT};
use crate::plays::{Cut, DrawNumber, Glue, Learn};

// A seat with a number of its own, where one is left.
pub(crate) fn split_off<T: Booked>(desk: &Desk<T>, seat: &mut Seat<T>) -> Option<(u8, Seat<T>)>
    requires desk { IsDesk desk.now.table_id × (seat.old.table_id ≡ desk.now.table_id) }
    requires seat { IsIdle seat.old.me.0 × (seat.old.me.1 ≡ []) }
    requires able { (SPLIT_TURNS < seat.old.me.0.left) × (seat.old.me.0.made < MOST_PASSES) }
    ensures same { IsSameSeat seat.old seat.new }
    ensures worn { IfNone result (seat.new.me ≡ (worn seat.old.me.0, [])) }
    ensures number { IfSome result (λ r. (r.0 < MOST_PASSES) × (seat.old.me.0.made ≤ r.0) × NoneBy T.by r.0 seat.old.me.0.seen) }
    ensures split { IfSome result (λ r. (seat.new.me ≡ (kept_part (sparing r.0 seat.old.me.0), [])) × (r.1.me ≡ (new_part (sparing r.0 seat.old.me.0), [])) × (r.1.table_id ≡ seat.old.table_id)) }
{
    let number = desk.fetch_add::<DrawNumber>(seat, NEXT, 1);
    if number >= u64::from(MOST_PASSES) {
        return None;
    }
    let other = desk.split_seat::<Cut>(seat);
    Some((number as u8, other))
}

// The other's numbers and turns to draw are the seat's, which then sees the whole history.
pub(crate) fn absorb<T: Booked>(desk: &Desk<T>, seat: &mut Seat<T>, other: Seat<T>)
    requires desk { IsDesk desk.now.table_id × (seat.old.table_id ≡ desk.now.table_id) × (other.table_id ≡ desk.now.table_id) }
    requires seat { IsIdle seat.old.me.0 × (seat.old.me.1 ≡ []) }
    requires other { IsIdle other.me.0 × (other.me.1 ≡ []) }
    ensures same { IsSameSeat seat.old seat.new }
    ensures learned { Learned T.stands T.by (both seat.old.me.0 other.me.0, []) seat.new.me }
{
    desk.join_seat::<Glue>(seat, other);
    desk.load::<Learn>(seat, 0);
}
