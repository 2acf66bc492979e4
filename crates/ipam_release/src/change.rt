ghost use Rattle.std.specs.Prelude.{◌≡◌, IfOk};
ghost use Rattle.ipam_records.specs.Said.{said};
ghost use Rattle.ipam_model.specs.Admin.{admin_change};
ghost use Rattle.ipam_release.specs.Change.{changed_to};

use crate::pools::{disable, put_pool};
use crate::reservations::{reserve, unreserve};
use ipam_model::Admin;
use ipam_parts::{pools_in, reservations_in};
use ipam_records::{Record, Reply};
use ipam_text::Text;
use std::alloc::{AllocError, Global};

/// What a change makes of a record.
#[derive(Drop)]
pub(crate) enum Change {
    Becomes(Record),
    /// The number of the refusal, and the name that it is about.
    Refuses(u8, Text),
}

impl Change {
    /// What the request makes of what was read.
    pub(crate) fn of(alloc: Global, request: &Admin, reply: &Reply) -> Result<Change, AllocError>
        ensures { IfOk result (λ change. changed_to change ≡ admin_change request.now (said reply.now)) }
    {
        match request {
            Admin::Pool(pool) => put_pool(alloc, pools_in(alloc, reply)?, pool),
            Admin::Disable(name, disabled) => { disable(pools_in(alloc, reply)?, name, *disabled) }
            Admin::Reserve(new) => reserve(alloc, reservations_in(reply), new),
            Admin::Unreserve(name) => unreserve(alloc, reservations_in(reply), name),
            Admin::Config(config) => Ok(Change::Becomes(Record::Config(*config))),
        }
    }
}

/// A copy of the request.
pub(crate) fn copied(request: &Admin) -> Result<Admin, AllocError>
    ensures { IfOk result (λ copy. copy ≡ request.now) }
{
    match request {
        Admin::Pool(pool) => Ok(Admin::Pool(pool.clone()?)),
        Admin::Disable(name, disabled) => Ok(Admin::Disable(name.clone()?, *disabled)),
        Admin::Reserve(new) => Ok(Admin::Reserve(new.clone()?)),
        Admin::Unreserve(name) => Ok(Admin::Unreserve(name.clone()?)),
        Admin::Config(config) => Ok(Admin::Config(*config)),
    }
}
