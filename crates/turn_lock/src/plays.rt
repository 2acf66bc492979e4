// What each step on the table tells, and how views are cut and joined.
ghost use Rattle.std.specs.Prelude.{List, []};
ghost use Rattle.turn_lock.specs.Moves.{drew, looked, counted, passed_on, rang, numbered, learned, kept_part, new_part, both, spent};

use crate::booked::Booked;
use crate::view::View;
use atomic_table::{Join, Play, Split, TableRule};
use std::marker::{Brand, PhantomData};
use std::snapshot::Snapshot;

/// The rule of a lock's table.
pub struct InTurn;

impl<T: Booked> TableRule<T, View<T::Origin, T::Entry>, Snapshot<T>> for InTurn {
    ghost use Rattle.turn_lock.specs.Rule.{Kept};
    ghost use Rattle.turn_lock.specs.Moves.{first_view};

    ghost holds = { λ k s. Kept T.stands T.by (T.start k.value) s };

    ghost first = { λ k. first_view (T.start k.value) };
}

pub(crate) struct Draw;

impl<T: Booked> Play<T, View<T::Origin, T::Entry>> for Draw {
    ghost then = { drew };
}

pub(crate) struct Look;

impl<T: Booked> Play<T, View<T::Origin, T::Entry>> for Look {
    ghost then = { looked T.stands T.by };
}

// The entries that a step added. Each call picks them.
pub(crate) trait Added<E> {
    ghost added: { List E };
}

impl<E> Added<E> for Brand {
    ghost added = { [] };
}

pub(crate) struct Count<A> {
    added: PhantomData<A>,
}

impl<T: Booked, A: Added<T::Entry>> Play<T, View<T::Origin, T::Entry>> for Count<A> {
    ghost then = { counted A.added };
}

pub(crate) struct PassOn;

impl<T: Booked> Play<T, View<T::Origin, T::Entry>> for PassOn {
    ghost then = { passed_on };
}

pub(crate) struct Ring;

impl<T: Booked> Play<T, View<T::Origin, T::Entry>> for Ring {
    ghost then = { rang };
}

pub(crate) struct DrawNumber;

impl<T: Booked> Play<T, View<T::Origin, T::Entry>> for DrawNumber {
    ghost then = { numbered T.stands T.by };
}

pub(crate) struct Cut;

impl<O, E> Split<View<O, E>> for Cut {
    ghost left = { kept_part };

    ghost right = { new_part };
}

pub(crate) struct Glue;

impl<O, E> Join<View<O, E>> for Glue {
    ghost both = { both };

    ghost spent = { spent };
}

pub(crate) struct Learn;

impl<T: Booked> Play<T, View<T::Origin, T::Entry>> for Learn {
    ghost then = { learned T.stands T.by };
}
