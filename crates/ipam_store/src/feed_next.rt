ghost use Rattle.std.specs.Prelude.{◌≡◌, IfOk, Some};
ghost use Rattle.std.specs.List.Sorted.{IsStrictlySortedBy};
ghost use Rattle.ipam_store.specs.Route.{route_cmp};
ghost use Rattle.ipam_store.specs.Turned.{change_of, if_change};

use crate::change::{Change, change_meant};
use crate::route::{Route, has_route};
use ipam_records::Write;
use std::alloc::AllocError;
use std::marker::Model;

/// A change that is to be made, and its route once more, for the list of routes.
#[derive(Drop)]
pub(crate) struct NextChange {
    change: Change,
    route: Route,
}

impl Model for NextChange {
    ghost use Rattle.std.specs.Prelude.{◌≡◌};
    ghost use Rattle.ipam_store.specs.declared.change.Change.{Change};

    ghost Value = { Change };

    ghost view = { λ next. next.change };

    ghost invariant = { λ next. next.route ≡ next.change.route };
}

impl NextChange {
    fn of(change: Change) -> Result<NextChange, AllocError>
        ensures { IfOk result (λ next. next ≡ change) }
    {
        let route = change.route.clone()?;
        Ok(NextChange { change, route })
    }

    /// The change, and its route once more.
    pub(crate) fn into_parts(self) -> (Change, Route)
        ensures change { result.0 ≡ self }
        ensures route { result.1 ≡ self.route }
    {
        (self.change, self.route)
    }
}

/// What the write changes of these routes.
pub(crate) fn next_change(routes: &[Route], write: &Write) -> Result<Option<NextChange>, AllocError>
    requires { IsStrictlySortedBy route_cmp routes.now }
    ensures { IfOk result (λ next. next ≡ change_of routes.now write.now) }
{
    match change_meant(write)? {
        Some(change) => if_change(routes, change),
        None => Ok(None),
    }
}

/// The change, unless the routes are so already.
fn if_change(routes: &[Route], change: Change) -> Result<Option<NextChange>, AllocError>
    requires { IsStrictlySortedBy route_cmp routes.now }
    ensures { IfOk result (λ next. next ≡ if_change routes.now (Some change)) }
{
    let there = has_route(routes, &change.route);
    if there == change.up {
        return Ok(None);
    }
    Ok(Some(NextChange::of(change)?))
}
