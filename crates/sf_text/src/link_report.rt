//! The report of a link.

ghost use Rattle.std.specs.Prelude.{◌≡◌, ◌++◌, string_bytes, OnOk, IfOk};
ghost use Rattle.std.specs.List.{flat_map};
ghost use Rattle.sf_text.specs.Report.{span_text, origin_text, omission_text, omitted_line, counts_line, report_text};

use crate::names::name_of_reason;
use crate::shown::Hexadecimal;
use sf_base::NoMemory;
use sf_model::{Omission, Omitted, Origin};
use std::alloc::{AllocError, Global};
use std::fmt::Write;

/// Returns the report of a link that kept `kept` functions: a line for each omitted function, in
/// the order that is given, and a line with both counts.
#[tactic(auto, unfolding(crate::specs::Report::report_text))]
pub fn report(alloc: Global, kept: u32, omitted: &[Omitted]) -> Result<Vec<u8>, NoMemory>
    ensures { IfOk result (λ text. text.items ≡ report_text kept omitted.now) }
{
    let mut text = String::new(alloc);
    push_omitted(&mut text, omitted)?;
    push_counts(&mut text, kept, omitted.len())?;
    Ok(text.into_bytes())
}

/// Appends the lines of the omitted functions.
fn push_omitted(text: &mut String, omitted: &[Omitted]) -> Result<(), AllocError>
    ensures { OnOk result (string_bytes text.new ≡ string_bytes text.old ++ flat_map omitted_line omitted.now) }
{
    for function in omitted {
        push_line(text, function)?;
    }
    Ok(())
}

/// Appends the line of an omitted function.
#[tactic(auto, unfolding(crate::specs::Report::omitted_line))]
pub fn push_line(text: &mut String, function: &Omitted) -> Result<(), AllocError>
    ensures { OnOk result (string_bytes text.new ≡ string_bytes text.old ++ omitted_line function.now) }
{
    push_span(text, function.start, function.size)?;
    push_origin(text, function.origin)?;
    push_omission(text, function.omission)?;
    text.push_str("\n")
}

/// Appends the function's addresses.
#[tactic(auto, unfolding(crate::specs::Report::span_text))]
fn push_span(text: &mut String, start: u64, size: u64) -> Result<(), AllocError>
    ensures { OnOk result (string_bytes text.new ≡ string_bytes text.old ++ span_text start size) }
{
    write!(text, "omit {} size {}", Hexadecimal(start), size)
}

/// Appends where the function came from.
#[tactic(auto, unfolding(crate::specs::Report::origin_text))]
pub fn push_origin(text: &mut String, origin: Origin) -> Result<(), AllocError>
    ensures { OnOk result (string_bytes text.new ≡ string_bytes text.old ++ origin_text origin) }
{
    let place = Hexadecimal(u64::from(origin.place));
    write!(
        text,
        " input {} section {} fde {}",
        origin.item, origin.section, place
    )
}

/// Appends why the function is omitted, and at which offset.
#[tactic(auto, unfolding(crate::specs::Report::omission_text))]
fn push_omission(text: &mut String, omission: Omission) -> Result<(), AllocError>
    ensures { OnOk result (string_bytes text.new ≡ string_bytes text.old ++ omission_text omission) }
{
    text.push_str(" ")?;
    text.push_str(name_of_reason(omission.reason))?;
    match omission.offset {
        Some(offset) => write!(text, " at {}", offset),
        None => Ok(()),
    }
}

/// Appends the line with the counts.
#[tactic(auto, unfolding(crate::specs::Report::counts_line))]
fn push_counts(text: &mut String, kept: u32, omitted: usize) -> Result<(), AllocError>
    ensures { OnOk result (string_bytes text.new ≡ string_bytes text.old ++ counts_line kept omitted) }
{
    write!(text, "kept {} omitted {}\n", kept, omitted)
}
