//! The text of a merge.

ghost use Rattle.std.specs.Prelude.{◌≡◌, IfOk};
ghost use Rattle.sf_text.specs.Merged.{merged_text};

use sf_base::NoMemory;
use std::alloc::Global;
use std::fmt::Write;

/// Returns the line of a merge into a section of this many functions and rows.
#[tactic(auto, unfolding(crate::specs::Merged::merged_text))]
pub fn merged(alloc: Global, functions: u32, rows: u32) -> Result<Vec<u8>, NoMemory>
    ensures { IfOk result (λ text. text.items ≡ merged_text functions rows) }
{
    let mut text = String::new(alloc);
    write!(text, "merged {} functions {} rows\n", functions, rows)?;
    Ok(text.into_bytes())
}
