//! Replies are written.
ghost use Rattle.std.specs.Prelude.{◌≡◌, ◌++◌, [], map, codes, IfOk, OnOk, OnErr, string_bytes};
ghost use Rattle.serde_json.specs.Data.{put, string};
ghost use Rattle.serde_json.specs.View.{members_view, view};
ghost use Rattle.ipam_addr.specs.Text.{cidr_text_of};
ghost use Rattle.ipam_json.specs.Built.{array_of, members_from, tagged};
ghost use Rattle.ipam_session.specs.Replies.{call_reply_data, call_text, route_data, route_change_data, routes_data, changes_data, since_data, row_data, page_data, pool_usage_data, usage_data, reply_data, reply_line, with_more};

use crate::page::Page;
use crate::refusal::Refusal;
use crate::route::Since;
use ipam_addr::Cidr;
use ipam_answer_text::{answer_value, cidr_string};
use ipam_json::{tagged, two_members};
use ipam_model::Answer;
use ipam_records::{Record, key_text, to_text};
use ipam_show::PoolUsage;
use ipam_store::{Change, Route};
use ipam_text::{Seq, Text};
use serde_json::{Map, Value, put};
use std::alloc::{AllocError, Global};

/// What a line is replied.
#[derive(Drop)]
pub enum Reply {
    /// The status and the standard output of a CNI call.
    Called(u8, Text),
    /// The answer of the request that the line began or fed.
    Answered(Answer),
    /// The collection that the line began waits for its second list.
    Waiting,
    /// The collection that waited is stopped.
    Stopped,
    /// The line is refused, for this reason.
    Refused(Refusal),
    /// The datastore's revision, and all routes.
    Routes(u64, Seq<Route>),
    /// What became of the routes after the revision that the line names.
    RoutesSince(Since),
    /// A page of rows.
    Rows(Page),
    /// The datastore's revision, and what each pool is used for.
    Usage(u64, Seq<PoolUsage>),
    /// The text that this opening of the datastore has for itself.
    Opened(Text),
}

/// Appends the line of the reply, which ends by its line feed.
#[tactic(auto, unfolding(crate::specs::Replies::reply_line), using(crate::proofs::NoFloats::reply_without))]
pub fn push_reply(alloc: Global, out: &mut String, reply: &Reply) -> Result<(), AllocError>
    ensures ok { OnOk result (string_bytes out.new ≡ string_bytes out.old ++ reply_line reply.now) }
    ensures err { OnErr result (string_bytes out.new ≡ string_bytes out.old) }
{
    let json = reply_value(alloc, reply)?;
    let mut line = json.to_string(alloc)?;
    line.push_str("\n")?;
    out.push_str(line.as_str())
}

/// Appends the JSON of what a CNI call ends with, its status and its standard output, without a
/// line feed.
#[tactic(auto, unfolding(crate::specs::Replies::call_text), using(crate::proofs::NoFloats::call_without))]
pub fn push_cni_reply(
    alloc: Global,
    out: &mut String,
    status: u8,
    stdout: &str,
) -> Result<(), AllocError>
    ensures ok { OnOk result
        (string_bytes out.new ≡ string_bytes out.old ++ call_text status stdout.now) }
    ensures err { OnErr result (string_bytes out.new ≡ string_bytes out.old) }
{
    let json = call_value(alloc, status, stdout)?;
    let text = json.to_string(alloc)?;
    out.push_str(text.as_str())
}

fn reply_value(alloc: Global, reply: &Reply) -> Result<Value, AllocError>
    ensures { IfOk result (λ v. view v ≡ reply_data reply.now) }
{
    match reply {
        Reply::Called(status, stdout) => call_value(alloc, *status, stdout.as_str()),
        Reply::Answered(answer) => answered_value(alloc, answer),
        Reply::Waiting => tagged(alloc, "waiting", Value::Bool(true)),
        Reply::Stopped => tagged(alloc, "stopped", Value::Bool(true)),
        Reply::Refused(why) => text_value(alloc, "refused", why.name()),
        Reply::Routes(revision, routes) => routes_value(alloc, *revision, routes.as_slice()),
        Reply::RoutesSince(since) => since_value(alloc, since),
        Reply::Rows(page) => page_value(alloc, page),
        Reply::Usage(revision, pools) => usage_value(alloc, *revision, pools.as_slice()),
        Reply::Opened(text) => text_value(alloc, "opened", text.as_str()),
    }
}

#[tactic(auto, unfolding(crate::specs::Replies::call_reply_data))]
fn call_value(alloc: Global, status: u8, stdout: &str) -> Result<Value, AllocError>
    ensures { IfOk result (λ v. view v ≡ call_reply_data status stdout.now) }
{
    let stdout = Value::try_from_str(alloc, stdout)?;
    two_members(alloc, "status", Value::from(status), "stdout", stdout)
}

fn answered_value(alloc: Global, answer: &Answer) -> Result<Value, AllocError>
    ensures { IfOk result (λ v. view v ≡ reply_data (Reply.Answered answer.now)) }
{
    let value = answer_value(alloc, answer)?;
    tagged(alloc, "answer", value)
}

/// An object of one member, whose value is the text.
fn text_value(alloc: Global, name: &str, text: &str) -> Result<Value, AllocError>
    ensures { IfOk result (λ v. view v ≡ tagged name.now (string text.now)) }
{
    let text = Value::try_from_str(alloc, text)?;
    tagged(alloc, name, text)
}

fn since_value(alloc: Global, since: &Since) -> Result<Value, AllocError>
    ensures { IfOk result (λ v. view v ≡ since_data since.now) }
{
    match since {
        Since::Changes(revision, changes) => { changes_value(alloc, *revision, changes.as_slice()) }
        Since::Compacted(revision) => tagged(alloc, "compacted", Value::from(*revision)),
        Since::Ahead(revision) => tagged(alloc, "ahead", Value::from(*revision)),
    }
}

#[tactic(auto, unfolding(crate::specs::Replies::routes_data))]
fn routes_value(alloc: Global, revision: u64, routes: &[Route]) -> Result<Value, AllocError>
    ensures { IfOk result (λ v. view v ≡ routes_data revision routes.now) }
{
    let mut list = Vec::new(alloc);
    for route in routes {
        list.push(route_value(alloc, route)?)?;
    }
    two_members(
        alloc,
        "revision",
        Value::from(revision),
        "routes",
        Value::Array(list),
    )
}

#[tactic(auto, unfolding(crate::specs::Replies::changes_data))]
fn changes_value(alloc: Global, revision: u64, changes: &[Change]) -> Result<Value, AllocError>
    ensures { IfOk result (λ v. view v ≡ changes_data revision changes.now) }
{
    let mut list = Vec::new(alloc);
    for change in changes {
        list.push(change_value(alloc, change)?)?;
    }
    two_members(
        alloc,
        "changes",
        Value::Array(list),
        "revision",
        Value::from(revision),
    )
}

#[tactic(auto, unfolding(crate::specs::Replies::route_data))]
fn route_value(alloc: Global, route: &Route) -> Result<Value, AllocError>
    ensures { IfOk result (λ v. view v ≡ route_data route.now) }
{
    let cidr = cidr_value(alloc, route.cidr)?;
    let node = Value::try_from_str(alloc, route.node.as_str())?;
    two_members(alloc, "cidr", cidr, "node", node)
}

#[tactic(auto, unfolding(crate::specs::Replies::route_change_data))]
fn change_value(alloc: Global, change: &Change) -> Result<Value, AllocError>
    ensures { IfOk result (λ v. view v ≡ route_change_data change.now) }
{
    let mut members = Map::new(alloc);
    put_cidr(alloc, &mut members, change.route.cidr)?;
    put_text(alloc, &mut members, "node", change.route.node.as_str())?;
    put(
        &mut members,
        alloc,
        "revision",
        Value::from(change.revision),
    )?;
    put(&mut members, alloc, "up", Value::Bool(change.up))?;
    Ok(Value::Object(members))
}

#[tactic(auto, unfolding(crate::specs::Replies::page_data))]
fn page_value(alloc: Global, page: &Page) -> Result<Value, AllocError>
    ensures { IfOk result (λ v. view v ≡ page_data page.now) }
{
    let mut members = more_members(alloc, page.more)?;
    put(&mut members, alloc, "revision", Value::from(page.revision))?;
    let rows = rows_value(alloc, page.rows.as_slice())?;
    put(&mut members, alloc, "rows", rows)?;
    Ok(Value::Object(members))
}

/// The member that says that there are more rows, where there are.
fn more_members(alloc: Global, more: bool) -> Result<Map<String, Value>, AllocError>
    ensures { IfOk result (λ m. members_view m.entries ≡ members_from (with_more more [])) }
{
    let mut members = Map::new(alloc);
    if more {
        put(&mut members, alloc, "more", Value::Bool(true))?;
    }
    Ok(members)
}

fn rows_value(alloc: Global, rows: &[(u64, Record)]) -> Result<Value, AllocError>
    ensures { IfOk result (λ v. view v ≡ array_of (map row_data rows.now)) }
{
    let mut list = Vec::new(alloc);
    for row in rows {
        list.push(row_value(alloc, row.0, &row.1)?)?;
    }
    Ok(Value::Array(list))
}

#[tactic(auto, unfolding(crate::specs::Replies::row_data))]
fn row_value(alloc: Global, revision: u64, found: &Record) -> Result<Value, AllocError>
    ensures { IfOk result (λ v. view v ≡ row_data (revision, found.now)) }
{
    let mut members = Map::new(alloc);
    let body = to_text(alloc, found)?;
    put(&mut members, alloc, "body", Value::String(body))?;
    let key = found.key(alloc)?;
    let key = key_text(alloc, &key)?;
    put(&mut members, alloc, "key", Value::String(key))?;
    put(&mut members, alloc, "revision", Value::from(revision))?;
    Ok(Value::Object(members))
}

#[tactic(auto, unfolding(crate::specs::Replies::usage_data))]
fn usage_value(alloc: Global, revision: u64, pools: &[PoolUsage]) -> Result<Value, AllocError>
    ensures { IfOk result (λ v. view v ≡ usage_data revision pools.now) }
{
    let mut list = Vec::new(alloc);
    for pool in pools {
        list.push(pool_value(alloc, pool)?)?;
    }
    two_members(
        alloc,
        "pools",
        Value::Array(list),
        "revision",
        Value::from(revision),
    )
}

#[tactic(auto, unfolding(crate::specs::Replies::pool_usage_data))]
fn pool_value(alloc: Global, pool: &PoolUsage) -> Result<Value, AllocError>
    ensures { IfOk result (λ v. view v ≡ pool_usage_data pool.now) }
{
    let mut members = Map::new(alloc);
    put_text(alloc, &mut members, "addresses", pool.addresses.as_str())?;
    put(&mut members, alloc, "blocks", Value::from(pool.blocks))?;
    put_cidr(alloc, &mut members, pool.cidr)?;
    put(&mut members, alloc, "disabled", Value::Bool(pool.disabled))?;
    put(&mut members, alloc, "free", Value::from(pool.free))?;
    put_text(alloc, &mut members, "name", pool.name.as_str())?;
    put(&mut members, alloc, "reserved", Value::from(pool.reserved))?;
    put(&mut members, alloc, "used", Value::from(pool.used))?;
    Ok(Value::Object(members))
}

/// Puts a member whose value is a text.
fn put_text(
    alloc: Global,
    members: &mut Map<String, Value>,
    name: &str,
    text: &str,
) -> Result<(), AllocError>
    ensures { OnOk result (members_view members.new.entries
        ≡ put name.now (string text.now) (members_view members.old.entries)) }
{
    let value = Value::try_from_str(alloc, text)?;
    put(members, alloc, name, value)
}

fn put_cidr(alloc: Global, members: &mut Map<String, Value>, cidr: Cidr) -> Result<(), AllocError>
    ensures { OnOk result (members_view members.new.entries
        ≡ put (codes "cidr") (string (cidr_text_of cidr)) (members_view members.old.entries)) }
{
    let value = cidr_value(alloc, cidr)?;
    put(members, alloc, "cidr", value)
}

fn cidr_value(alloc: Global, cidr: Cidr) -> Result<Value, AllocError>
    ensures { IfOk result (λ v. view v ≡ string (cidr_text_of cidr)) }
{
    Ok(Value::String(cidr_string(alloc, cidr)?))
}
