//! The text of a look-up.

ghost use Rattle.std.specs.Prelude.{◌≡◌, ◌++◌, OnOk, IfOk};
ghost use Rattle.sf_text.specs.Found.{found_line, found_text};

use crate::content::append_row;
use crate::number::push_hexadecimal;
use sf_base::NoMemory;
use sf_model::{FuncHead, Row};
use std::alloc::{AllocError, Global};

/// Returns the text of what was found at an address: the function and its row that holds there, or
/// none.
pub fn found(alloc: Global, pc: u64, found: Option<(FuncHead, Row)>) -> Result<Vec<u8>, NoMemory>
    ensures { IfOk result (λ text. text.items ≡ found_text pc found) }
{
    let mut text = Vec::new(alloc);
    match found {
        None => text.extend_from_slice(b"none\n")?,
        Some((func, row)) => push_found(&mut text, pc, &func, &row)?,
    }
    Ok(text)
}

/// Appends the line of a row that was found.
#[tactic(auto, unfolding(crate::specs::Found::found_line))]
fn push_found(text: &mut Vec<u8>, pc: u64, func: &FuncHead, row: &Row) -> Result<(), AllocError>
    ensures { OnOk result (text.new.items ≡ text.old.items ++ found_line pc func.now row.now) }
{
    push_hexadecimal(text, pc)?;
    text.extend_from_slice(b" in ")?;
    push_hexadecimal(text, func.start)?;
    text.extend_from_slice(b" row ")?;
    append_row(text, row)?;
    text.extend_from_slice(b"\n")
}
