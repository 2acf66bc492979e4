ghost use Rattle.std.specs.Prelude.{◌≡◌, ◌++◌, IfOk, OnOk};
ghost use Rattle.std.specs.List.{flat_map};
ghost use Rattle.std.specs.String.{string_bytes};
ghost use Rattle.ipam_commands.specs.Printed.{affinity_line, affinity_lines, counts_text, excess_line, named_block, numbers_line, report_text};

use crate::audit_report::{Excess, Report};
use ipam_addr::{Cidr, push_cidr};
use ipam_text::Text;
use std::alloc::{AllocError, Global};

/// The lines of the report.
#[tactic(auto, unfolding(crate::specs::Printed::report_text))]
pub fn report_text(alloc: Global, report: &Report) -> Result<String, AllocError>
    ensures { IfOk result (λ text. string_bytes text ≡ report_text report.now) }
{
    let mut out = String::new(alloc);
    push_excess_lines(alloc, &mut out, report.excess.as_slice())?;
    push_affinity_lines(alloc, &mut out, "stale", report.stale.as_slice())?;
    push_affinity_lines(alloc, &mut out, "stray", report.stray.as_slice())?;
    push_numbers(alloc, &mut out, report)?;
    Ok(out)
}

fn push_excess_lines(alloc: Global, out: &mut String, excess: &[Excess]) -> Result<(), AllocError>
    ensures { OnOk result (string_bytes out.new ≡ string_bytes out.old ++ flat_map excess_line excess.now) }
{
    for one in excess {
        push_excess(alloc, out, one)?;
    }
    Ok(())
}

#[tactic(auto, unfolding(crate::specs::Printed::excess_line))]
fn push_excess(alloc: Global, out: &mut String, excess: &Excess) -> Result<(), AllocError>
    ensures { OnOk result (string_bytes out.new ≡ string_bytes out.old ++ excess_line excess.now) }
{
    push_named(alloc, out, "excess", excess.handle.as_str(), excess.cidr)?;
    push_counts(alloc, out, excess.count, excess.owned)
}

/// The word, and after it the name and the block.
#[tactic(auto, unfolding(crate::specs::Printed::named_block))]
fn push_named(
    alloc: Global,
    out: &mut String,
    word: &str,
    name: &str,
    cidr: Cidr,
) -> Result<(), AllocError>
    ensures { OnOk result (string_bytes out.new ≡ string_bytes out.old ++ named_block word.now name.now cidr) }
{
    out.push_str(word)?;
    out.push_str(" ")?;
    out.push_str(name)?;
    out.push_str(" ")?;
    push_cidr(alloc, out, cidr)
}

#[tactic(auto, unfolding(crate::specs::Printed::counts_text))]
fn push_counts(alloc: Global, out: &mut String, count: u32, owned: u32) -> Result<(), AllocError>
    ensures { OnOk result (string_bytes out.new ≡ string_bytes out.old ++ counts_text count owned) }
{
    let text = format!(in alloc; " {count} {owned}\n")?;
    out.push_str(text.as_str())
}

fn push_affinity_lines(
    alloc: Global,
    out: &mut String,
    word: &str,
    affinities: &[(Text, Cidr)],
) -> Result<(), AllocError>
    ensures { OnOk result (string_bytes out.new
        ≡ string_bytes out.old ++ affinity_lines word.now affinities.now) }
{
    for affinity in affinities {
        push_affinity(alloc, out, word, affinity)?;
    }
    Ok(())
}

#[tactic(auto, unfolding(crate::specs::Printed::affinity_line))]
fn push_affinity(
    alloc: Global,
    out: &mut String,
    word: &str,
    affinity: &(Text, Cidr),
) -> Result<(), AllocError>
    ensures { OnOk result (string_bytes out.new
        ≡ string_bytes out.old ++ affinity_line word.now affinity.now) }
{
    push_named(alloc, out, word, affinity.0.as_str(), affinity.1)?;
    out.push_str("\n")
}

#[tactic(auto, unfolding(crate::specs::Printed::numbers_line))]
fn push_numbers(alloc: Global, out: &mut String, report: &Report) -> Result<(), AllocError>
    ensures { OnOk result (string_bytes out.new ≡ string_bytes out.old ++ numbers_line report.now) }
{
    let blocks = report.blocks;
    let owners = report.owners;
    let handles = report.handles;
    let text = format!(in alloc; "blocks {blocks} owners {owners} handles {handles}\n")?;
    out.push_str(text.as_str())
}
