//! The lines of files that a run passes.

ghost use Rattle.std.specs.Prelude.{◌≡◌, ◌++◌, map, string_bytes, IfOk, OnOk};
ghost use Rattle.std.specs.List.{flat_map};
ghost use Rattle.sf_model.specs.FaultShown.{shown_by};
ghost use Rattle.sf_text.specs.FaultLine.{fault_words, value_text};
ghost use Rattle.sf_text.specs.Passed as spec;
ghost use Rattle.sf_text.specs.Passed.{passed_line, passed_view};

use crate::names::name_of_group;
use crate::pushed_name::push_name;
use crate::shown::Hexadecimal;
use sf_base::NoMemory;
use sf_model::Notice;
use std::alloc::{AllocError, Global};
use std::fmt::Write;

/// A file that a run passes, since it can't be used.
#[derive(Drop)]
pub struct PassedFile<'n> {
    /// The word that names it.
    pub name: &'n str,
    /// The fault for which it can't be used.
    pub notice: Notice,
}

/// Returns the lines `passed FILE: GROUP FAULT VALUES` of these files, in order.
#[tactic(auto, using(crate::proofs::PassedLines::lines_of))]
pub fn passed_lines(alloc: Global, passed: &[PassedFile<'_>]) -> Result<Vec<u8>, NoMemory>
    ensures { IfOk result (λ text. text.items ≡ spec.passed_lines (map passed_view passed.now)) }
{
    let mut text = String::new(alloc);
    push_lines(&mut text, passed)?;
    Ok(text.into_bytes())
}

/// Appends the lines of the files.
fn push_lines(text: &mut String, passed: &[PassedFile<'_>]) -> Result<(), AllocError>
    ensures { OnOk result (string_bytes text.new ≡ string_bytes text.old ++ flat_map (λ file. passed_line (passed_view file)) passed.now) }
{
    for file in passed {
        push_line(text, file)?;
    }
    Ok(())
}

/// Appends the line of a file.
#[tactic(auto, unfolding(crate::specs::Passed::passed_line))]
fn push_line(text: &mut String, file: &PassedFile<'_>) -> Result<(), AllocError>
    ensures { OnOk result (string_bytes text.new ≡ string_bytes text.old ++ passed_line (passed_view file.now)) }
{
    text.push_str("passed ")?;
    push_name(text, file.name)?;
    text.push_str(": ")?;
    push_fault(text, &file.notice)?;
    text.push_str("\n")
}

/// Appends the group, the name and the values of a fault.
fn push_fault(text: &mut String, notice: &Notice) -> Result<(), AllocError>
    ensures { OnOk result (string_bytes text.new ≡ string_bytes text.old ++ fault_words (shown_by notice.now).fault) }
{
    text.push_str(name_of_group(notice.fault.group))?;
    text.push_str(" ")?;
    text.push_str(notice.fault.name)?;
    push_values(text, notice.values.as_slice())
}

/// Appends the values, each after a blank.
fn push_values(text: &mut String, values: &[u64]) -> Result<(), AllocError>
    ensures { OnOk result (string_bytes text.new ≡ string_bytes text.old ++ flat_map value_text values.now) }
{
    for value in values {
        push_value(text, *value)?;
    }
    Ok(())
}

/// Appends a blank and a value.
#[tactic(auto, unfolding(crate::specs::FaultLine::value_text))]
fn push_value(text: &mut String, value: u64) -> Result<(), AllocError>
    ensures { OnOk result (string_bytes text.new ≡ string_bytes text.old ++ value_text value) }
{
    write!(text, " {}", Hexadecimal(value))
}
