//! The lines that tell what became of a document's resources.
ghost use Rattle.std.specs.Prelude.{◌≡◌, ◌++◌, decimal, IfOk, OnOk, OnErr, string_bytes};
ghost use Rattle.ipam_resources.specs.Naming.{part_of, member_path, part_lead, item_lead, place_path};
ghost use Rattle.ipam_resources.specs.Printed.{refusal_text, resource_text, applied_line, refused_line, fault_text, fault_line};

use crate::fault::DocumentFault;
use crate::member::{Member, Place};
use crate::refusal::Refusal;
use crate::resource::Resource;
use std::alloc::{AllocError, Global};

/// Appends the line of a resource that was applied, which ends by its line feed.
pub fn push_applied(alloc: Global, out: &mut String, resource: &Resource) -> Result<(), AllocError>
    ensures ok { OnOk result
        (string_bytes out.new ≡ string_bytes out.old ++ applied_line resource.now) }
    ensures err { OnErr result (string_bytes out.new ≡ string_bytes out.old) }
{
    let line = applied_line(alloc, resource)?;
    out.push_str(line.as_str())
}

/// Appends the line of a resource that was refused, which ends by its line feed.
pub fn push_refused(
    alloc: Global,
    out: &mut String,
    resource: &Resource,
    refusal: &Refusal,
) -> Result<(), AllocError>
    ensures ok { OnOk result
        (string_bytes out.new ≡ string_bytes out.old ++ refused_line resource.now refusal.now) }
    ensures err { OnErr result (string_bytes out.new ≡ string_bytes out.old) }
{
    let line = refused_line(alloc, resource, refusal)?;
    out.push_str(line.as_str())
}

/// Appends the line of a document that was not read, which ends by its line feed.
pub fn push_document_fault(
    alloc: Global,
    out: &mut String,
    fault: DocumentFault,
) -> Result<(), AllocError>
    ensures ok { OnOk result (string_bytes out.new ≡ string_bytes out.old ++ fault_line fault) }
    ensures err { OnErr result (string_bytes out.new ≡ string_bytes out.old) }
{
    let line = fault_line(alloc, fault)?;
    out.push_str(line.as_str())
}

#[tactic(auto, unfolding(crate::specs::Printed::applied_line))]
fn applied_line(alloc: Global, resource: &Resource) -> Result<String, AllocError>
    ensures { IfOk result (λ s. string_bytes s ≡ applied_line resource.now) }
{
    let mut line = String::new(alloc);
    line.push_str("applied ")?;
    push_resource(&mut line, resource)?;
    line.push_str("\n")?;
    Ok(line)
}

#[tactic(auto, unfolding(crate::specs::Printed::refused_line))]
fn refused_line(alloc: Global, resource: &Resource, refusal: &Refusal) -> Result<String, AllocError>
    ensures { IfOk result (λ s. string_bytes s ≡ refused_line resource.now refusal.now) }
{
    let mut line = String::new(alloc);
    line.push_str("refused ")?;
    push_resource(&mut line, resource)?;
    line.push_str(": ")?;
    push_refusal(&mut line, refusal)?;
    line.push_str("\n")?;
    Ok(line)
}

#[tactic(auto, unfolding(crate::specs::Printed::fault_line))]
fn fault_line(alloc: Global, fault: DocumentFault) -> Result<String, AllocError>
    ensures { IfOk result (λ s. string_bytes s ≡ fault_line fault) }
{
    let mut line = String::new(alloc);
    line.push_str("refused: ")?;
    push_fault(alloc, &mut line, fault)?;
    line.push_str("\n")?;
    Ok(line)
}

/// Appends the kind and the name.
fn push_resource(out: &mut String, resource: &Resource) -> Result<(), AllocError>
    ensures { OnOk result
        (string_bytes out.new ≡ string_bytes out.old ++ resource_text resource.now) }
{
    out.push_str(resource.kind.text())?;
    out.push_str(" ")?;
    out.push_str(resource.name.as_str())
}

fn push_refusal(out: &mut String, refusal: &Refusal) -> Result<(), AllocError>
    ensures { OnOk result
        (string_bytes out.new ≡ string_bytes out.old ++ refusal_text refusal.now) }
{
    match refusal {
        Refusal::NameTaken => out.push_str("name taken"),
        Refusal::Overlaps(pool) => {
            out.push_str("overlaps ")?;
            out.push_str(pool.as_str())
        }
        Refusal::BlockSize => out.push_str("block size out of range"),
        Refusal::Prefix => out.push_str("prefix longer than block size"),
        Refusal::TooManyPools => out.push_str("64 pools"),
        Refusal::TooManyReservations => out.push_str("256 reservations"),
        Refusal::Full => out.push_str("full"),
        Refusal::Spent => out.push_str("spent"),
    }
}

fn push_fault(alloc: Global, out: &mut String, fault: DocumentFault) -> Result<(), AllocError>
    ensures { OnOk result (string_bytes out.new ≡ string_bytes out.old ++ fault_text fault) }
{
    match fault {
        DocumentFault::Long => out.push_str("long"),
        DocumentFault::NotJson => out.push_str("not JSON"),
        DocumentFault::Member(place) => push_place(alloc, out, place),
        DocumentFault::Memory => out.push_str("want of memory"),
    }
}

#[tactic(auto, unfolding(crate::specs::Naming::place_path))]
fn push_place(alloc: Global, out: &mut String, place: Place) -> Result<(), AllocError>
    ensures { OnOk result (string_bytes out.new ≡ string_bytes out.old ++ place_path place) }
{
    push_item(alloc, out, place.item)?;
    push_member(out, place.member)
}

fn push_item(alloc: Global, out: &mut String, item: Option<usize>) -> Result<(), AllocError>
    ensures { OnOk result (string_bytes out.new ≡ string_bytes out.old ++ item_lead item) }
{
    match item {
        None => Ok(()),
        Some(index) => {
            let lead = format!(in alloc; "items.{index}.")?;
            out.push_str(lead.as_str())
        }
    }
}

#[tactic(auto, unfolding(crate::specs::Naming::member_path))]
fn push_member(out: &mut String, member: Member) -> Result<(), AllocError>
    ensures { OnOk result (string_bytes out.new ≡ string_bytes out.old ++ member_path member) }
{
    push_part(out, member)?;
    out.push_str(member.name())
}

/// Appends what leads to the member inside its resource.
fn push_part(out: &mut String, member: Member) -> Result<(), AllocError>
    ensures { OnOk result
        (string_bytes out.new ≡ string_bytes out.old ++ part_lead (part_of member)) }
{
    match member.part() {
        None => Ok(()),
        Some(part) => {
            out.push_str(part)?;
            out.push_str(".")
        }
    }
}
