//! Copies of what an entry tells of.
ghost use Rattle.std.specs.Prelude.{◌≡◌, IfOk};

use ipam_model::{Admin, CollectRequest, Request};
use ipam_text::{Seq, Text};
use std::alloc::{AllocError, Global};

/// A copy of the request.
pub(crate) fn request_copied(request: &Request) -> Result<Request, AllocError>
    ensures { IfOk result (λ copy. copy ≡ request.now) }
{
    match request {
        Request::Add(add) => Ok(Request::Add(add.clone()?)),
        Request::AddThis(add, address) => Ok(Request::AddThis(add.clone()?, *address)),
        Request::Del(id) => Ok(Request::Del(id.clone()?)),
        Request::Check(id, addresses) => Ok(Request::Check(id.clone()?, addresses.clone()?)),
        Request::Release(node, cidr) => Ok(Request::Release(node.clone()?, *cidr)),
        Request::Collect(collect) => Ok(Request::Collect(collect_copied(collect)?)),
        Request::Admin(change) => Ok(Request::Admin(change_copied(change)?)),
        Request::Probe(probe) => Ok(Request::Probe(probe.clone()?)),
    }
}

fn collect_copied(collect: &CollectRequest) -> Result<CollectRequest, AllocError>
    ensures { IfOk result (λ copy. copy ≡ collect.now) }
{
    let live = collect.live.clone()?;
    let scope = scope_copied(&collect.scope)?;
    Ok(CollectRequest {
        live,
        at: collect.at,
        grace: collect.grace,
        scope,
    })
}

fn scope_copied(scope: &Option<(Text, Text)>) -> Result<Option<(Text, Text)>, AllocError>
    ensures { IfOk result (λ copy. copy ≡ scope.now) }
{
    match scope {
        Some((network, node)) => Ok(Some((network.clone()?, node.clone()?))),
        None => Ok(None),
    }
}

pub(crate) fn live_copied(alloc: Global, live: &[Text]) -> Result<Seq<Text>, AllocError>
    ensures { IfOk result (λ copy. copy ≡ live.now) }
{
    let mut copy = Seq::new(alloc);
    for id in live {
        copy.push(id.clone()?)?;
    }
    Ok(copy)
}

fn change_copied(change: &Admin) -> Result<Admin, AllocError>
    ensures { IfOk result (λ copy. copy ≡ change.now) }
{
    match change {
        Admin::Pool(pool) => Ok(Admin::Pool(pool.clone()?)),
        Admin::Disable(name, disabled) => Ok(Admin::Disable(name.clone()?, *disabled)),
        Admin::Reserve(new) => Ok(Admin::Reserve(new.clone()?)),
        Admin::Unreserve(name) => Ok(Admin::Unreserve(name.clone()?)),
        Admin::Config(config) => Ok(Admin::Config(*config)),
    }
}
