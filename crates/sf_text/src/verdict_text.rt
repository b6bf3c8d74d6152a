//! The text of a verdict on a section.

ghost use Rattle.std.specs.Prelude.{◌≡◌, ◌++◌, OnOk, IfOk};
ghost use Rattle.sf_text.specs.Verdict.{agrees_text, counted_text, differs_text, dwarf_text, verdict_text};

use crate::content::append_content;
use crate::number::{push_decimal, push_hexadecimal};
use sf_base::NoMemory;
use sf_model::{Content, Verdict};
use std::alloc::{AllocError, Global};

/// Returns the line of a verdict: the counts where a section agrees, or the least address at which it
/// differs, with both contents there.
pub fn verdict(alloc: Global, verdict: &Verdict) -> Result<Vec<u8>, NoMemory>
    ensures { IfOk result (λ text. text.items ≡ verdict_text verdict.now) }
{
    let mut text = Vec::new(alloc);
    match *verdict {
        Verdict::Agrees {
            checked,
            missing,
            repeats,
        } => push_agrees(&mut text, checked, missing, repeats)?,
        Verdict::Differs { pc, section, dwarf } => push_differs(&mut text, pc, &section, dwarf)?,
    }
    Ok(text)
}

/// Appends the counts of a section that agrees.
#[tactic(auto, unfolding(crate::specs::Verdict::agrees_text))]
fn push_agrees(
    text: &mut Vec<u8>,
    checked: u32,
    missing: u32,
    repeats: u32,
) -> Result<(), AllocError>
    ensures { OnOk result (text.new.items ≡ text.old.items ++ agrees_text checked missing repeats) }
{
    push_count(text, b"agrees checked ", checked)?;
    push_count(text, b" missing ", missing)?;
    push_count(text, b" repeats ", repeats)?;
    text.extend_from_slice(b"\n")
}

/// Appends a name and a count.
#[tactic(auto, unfolding(crate::specs::Verdict::counted_text))]
fn push_count(text: &mut Vec<u8>, name: &[u8], count: u32) -> Result<(), AllocError>
    ensures { OnOk result (text.new.items ≡ text.old.items ++ counted_text name.now count) }
{
    text.extend_from_slice(name)?;
    push_decimal(text, u64::from(count))
}

/// Appends the content of call frame information at an address, or `none`.
fn push_dwarf(text: &mut Vec<u8>, dwarf: Option<Content>) -> Result<(), AllocError>
    ensures { OnOk result (text.new.items ≡ text.old.items ++ dwarf_text dwarf) }
{
    match dwarf {
        None => text.extend_from_slice(b"none"),
        Some(content) => append_content(text, &content),
    }
}

/// Appends the first address at which a section differs.
#[tactic(auto, unfolding(crate::specs::Verdict::differs_text))]
fn push_differs(
    text: &mut Vec<u8>,
    pc: u64,
    section: &Content,
    dwarf: Option<Content>,
) -> Result<(), AllocError>
    ensures { OnOk result (text.new.items ≡ text.old.items ++ differs_text pc section.now dwarf) }
{
    text.extend_from_slice(b"differs ")?;
    push_hexadecimal(text, pc)?;
    text.extend_from_slice(b" section ")?;
    append_content(text, section)?;
    text.extend_from_slice(b" dwarf ")?;
    push_dwarf(text, dwarf)?;
    text.extend_from_slice(b"\n")
}
