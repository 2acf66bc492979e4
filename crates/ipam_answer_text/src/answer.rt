ghost use Rattle.std.specs.Prelude.{◌≡◌, ◌++◌, IfOk, OnOk, OnErr, string_bytes};
ghost use Rattle.serde_json.specs.Data.{object, string, no_members, put};
ghost use Rattle.serde_json.specs.View.{view};
ghost use Rattle.ipam_json.specs.Built.{tagged, whole_data};
ghost use Rattle.ipam_answer_text.specs.Answers.{moment_data, answer_data, answer_text, collected_data, not_affine_data, not_recorded_data, again_data};

use crate::parts::{
    added_this_value, added_value, address_string, cidr_string, items_value, ready_value,
    scan_value,
};
use ipam_addr::{Addr, Cidr};
use ipam_json::{tagged, two_members};
use ipam_model::{Answer, Collected};
use ipam_text::Text;
use serde_json::{Map, Value, put};
use std::alloc::{AllocError, Global};

/// Appends the answer's text, which is one line.
pub fn push_answer(alloc: Global, out: &mut String, answer: &Answer) -> Result<(), AllocError>
    ensures ok { OnOk result
        (string_bytes out.new ≡ string_bytes out.old ++ answer_text answer.now) }
    ensures err { OnErr result (string_bytes out.new ≡ string_bytes out.old) }
{
    let text = answer_string(alloc, answer)?;
    out.push_str(text.as_str())
}

fn answer_string(alloc: Global, answer: &Answer) -> Result<String, AllocError>
    ensures { IfOk result (λ s. string_bytes s ≡ answer_text answer.now) }
{
    let json = answer_value(alloc, answer)?;
    json.to_string(alloc)
}

/// The answer's JSON.
pub fn answer_value(alloc: Global, answer: &Answer) -> Result<Value, AllocError>
    ensures { IfOk result (λ v. view v ≡ answer_data answer.now) }
{
    match answer {
        Answer::Added(givens) => added_value(alloc, givens.as_slice()),
        Answer::AddedThis(given) => added_this_value(alloc, given),
        Answer::Exhausted(scan) => tagged(alloc, "exhausted", scan_value(alloc, scan)?),
        Answer::NoPool(name, moment) => with_text(alloc, "noPool", "name", name, "p", *moment),
        Answer::NotInPool(moment) => moment_of(alloc, "notInPool", "p", *moment),
        Answer::Taken(holder, moment) => with_text(alloc, "taken", "holder", holder, "b", *moment),
        Answer::NotAffine(cidr, moment) => not_affine(alloc, *cidr, *moment),
        Answer::Deleted(moment) => moment_of(alloc, "deleted", "k", *moment),
        Answer::Checked => Value::try_from_str(alloc, "checked"),
        Answer::NotRecorded(address, moment) => not_recorded(alloc, *address, *moment),
        Answer::Released => Value::try_from_str(alloc, "released"),
        Answer::NoAffinity(moment) => moment_of(alloc, "noAffinity", "moment", *moment),
        Answer::Collected(collected) => collected_value(alloc, collected),
        Answer::Done(revision) => moment_of(alloc, "done", "revision", *revision),
        Answer::Refused(number, name) => {
            with_text(alloc, "refused", "name", name, "number", u64::from(*number))
        }
        Answer::Again(lost, claims) => again(alloc, *lost, *claims),
        Answer::Full => Value::try_from_str(alloc, "full"),
        Answer::CountFull(moment) => moment_of(alloc, "countFull", "moment", *moment),
        Answer::Spent => Value::try_from_str(alloc, "spent"),
        Answer::Fault => Value::try_from_str(alloc, "fault"),
        Answer::Ready(scans) => ready_value(alloc, scans.as_slice()),
    }
}

/// The object of this name that holds one number.
fn moment_of(alloc: Global, name: &str, member: &str, moment: u64) -> Result<Value, AllocError>
    ensures { IfOk result (λ v. view v ≡ moment_data name.now member.now moment) }
{
    let inner = tagged(alloc, member, Value::from(moment))?;
    tagged(alloc, name, inner)
}

/// The object of this name that holds a text and a number.
fn with_text(
    alloc: Global,
    tag: &str,
    name: &str,
    text: &Text,
    counted: &str,
    number: u64,
) -> Result<Value, AllocError>
    ensures { IfOk result (λ v. view v ≡ tagged tag.now (object
        (put counted.now (whole_data number) (put name.now (string text.now) no_members)))) }
{
    let text = Value::try_from_str(alloc, text.as_str())?;
    let inner = two_members(alloc, name, text, counted, Value::from(number))?;
    tagged(alloc, tag, inner)
}

fn not_affine(alloc: Global, cidr: Cidr, moment: u64) -> Result<Value, AllocError>
    ensures { IfOk result (λ v. view v ≡ not_affine_data cidr moment) }
{
    let cidr = Value::String(cidr_string(alloc, cidr)?);
    let inner = two_members(alloc, "b", Value::from(moment), "cidr", cidr)?;
    tagged(alloc, "notAffine", inner)
}

fn not_recorded(alloc: Global, address: Addr, moment: u64) -> Result<Value, AllocError>
    ensures { IfOk result (λ v. view v ≡ not_recorded_data address moment) }
{
    let address = Value::String(address_string(alloc, address)?);
    let inner = two_members(alloc, "address", address, "moment", Value::from(moment))?;
    tagged(alloc, "notRecorded", inner)
}

fn collected_value(alloc: Global, collected: &Collected) -> Result<Value, AllocError>
    ensures { IfOk result (λ v. view v ≡ collected_data collected.now) }
{
    let mut members = Map::new(alloc);
    put(&mut members, alloc, "b1", Value::from(collected.b1))?;
    put(&mut members, alloc, "b2", Value::from(collected.b2))?;
    let items = items_value(alloc, collected.items.as_slice())?;
    put(&mut members, alloc, "items", items)?;
    tagged(alloc, "collected", Value::Object(members))
}

fn again(alloc: Global, lost: u32, claims: u32) -> Result<Value, AllocError>
    ensures { IfOk result (λ v. view v ≡ again_data lost claims) }
{
    let claims = Value::from(claims);
    let lost = Value::from(lost);
    let inner = two_members(alloc, "claims", claims, "lost", lost)?;
    tagged(alloc, "again", inner)
}
