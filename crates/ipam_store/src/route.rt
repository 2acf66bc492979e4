ghost use Rattle.std.specs.Prelude.{◌≡◌, ◌++◌, ◌<◌, ◌≤◌, ◌+◌, length, IfOk, IfErr, OnOk};
ghost use Rattle.std.specs.List.Sorted.{IsStrictlySortedBy};
ghost use Rattle.std.specs.Vec.{vec_len, vec_capacity};
ghost use Rattle.ipam_records.specs.Places.{IsFoundAt, IsGapAt};
ghost use Rattle.ipam_store.specs.Route.{route_of, routes_of, route_cmp, has_route};
ghost use Rattle.ipam_store.specs.Turned.{turned, with_route, without_route};

use ipam_addr::Cidr;
use ipam_block::State;
use ipam_records::Record;
use ipam_text::Text;
use std::alloc::AllocError;
use std::cmp::Ordering;

/// A node, and the CIDR of a block in which its addresses lie.
pub struct Route {
    pub node: Text,
    pub cidr: Cidr,
}

impl Drop for Route {
    fn drop(self) {
        let Route { node: _, cidr: _ } = self;
    }
}

impl Clone for Route {
    ghost is_clone = { λ old new. new ≡ old };

    fn clone(&self) -> Result<Route, AllocError> {
        let node = self.node.clone()?;
        Ok(Route {
            node,
            cidr: self.cidr,
        })
    }
}

impl Route {
    /// How the routes stand to each other: by node, then by the block.
    fn compare(&self, other: &Route) -> Ordering
        ensures { result ≡ route_cmp self.now other.now }
    {
        let blocks = self.cidr.cmp(&other.cidr);
        self.node.cmp(&other.node).then(blocks)
    }
}

/// Adds the routes of the rows after the others.
pub(crate) fn add_routes(routes: &mut Vec<Route>, rows: &[(u64, Record)]) -> Result<(), AllocError>
    ensures { OnOk result (routes.new.items ≡ routes.old.items ++ routes_of rows.now) }
{
    for row in rows {
        if let Some(route) = route_of(&row.1)? {
            routes.push(route)?;
        }
    }
    Ok(())
}

/// The route of the record, if it has one.
fn route_of(kept: &Record) -> Result<Option<Route>, AllocError>
    ensures { IfOk result (λ route. route ≡ route_of kept.now) }
{
    match kept {
        Record::Affinity(affinity) => {
            if affinity.state == State::Confirmed {
                Ok(Some(Route {
                    node: affinity.node.clone()?,
                    cidr: affinity.cidr,
                }))
            } else {
                Ok(None)
            }
        }
        _ => Ok(None),
    }
}

/// Where the route is, or where it would go.
fn place(routes: &[Route], route: &Route) -> Result<usize, usize>
    requires { IsStrictlySortedBy route_cmp routes.now }
    ensures found { IfOk result (IsFoundAt (λ other. route_cmp other route.now) routes.now) }
    ensures absent { IfErr result (IsGapAt (λ other. route_cmp other route.now) routes.now) }
{
    routes.binary_search_by(|other| other.compare(route))
}

/// Whether the route is one of these.
pub(crate) fn has_route(routes: &[Route], route: &Route) -> bool
    requires { IsStrictlySortedBy route_cmp routes.now }
    ensures { result ≡ has_route routes.now route.now }
{
    place(routes, route).is_ok()
}

/// Puts the route in at its place or takes it out. Takes no memory.
pub(crate) fn turn(routes: &mut Vec<Route>, up: bool, route: Route)
    requires ascend { IsStrictlySortedBy route_cmp routes.old.items }
    requires room { vec_len routes.old < vec_capacity routes.old }
    ensures items { routes.new.items ≡ turned up route routes.old.items }
    ensures ascend { IsStrictlySortedBy route_cmp routes.new.items }
{
    if up {
        insert(routes, route);
    } else {
        remove(routes, &route);
    }
}

/// Puts the route in at its place, unless it is there. Takes no memory.
fn insert(routes: &mut Vec<Route>, route: Route)
    requires ascend { IsStrictlySortedBy route_cmp routes.old.items }
    requires room { vec_len routes.old < vec_capacity routes.old }
    ensures items { routes.new.items ≡ with_route route routes.old.items }
    ensures ascend { IsStrictlySortedBy route_cmp routes.new.items }
{
    if let Err(place) = place(routes, &route) {
        if routes.insert(place, route).is_err() {
            unreachable!()
        }
    }
}

/// Takes the route out, if it is there.
fn remove(routes: &mut Vec<Route>, route: &Route)
    requires { IsStrictlySortedBy route_cmp routes.old.items }
    ensures items { routes.new.items ≡ without_route route.now routes.old.items }
    ensures ascend { IsStrictlySortedBy route_cmp routes.new.items }
{
    if let Ok(place) = place(routes, route) {
        routes.remove(place);
    }
}
