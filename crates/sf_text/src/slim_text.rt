//! The text of a section that was slimmed.

ghost use Rattle.std.specs.Prelude.{◌≡◌, ◌++◌, string_bytes, IfOk, OnOk};
ghost use Rattle.sf_text.specs.Slim.{counts_text, slim_text};

use sf_base::NoMemory;
use std::alloc::{AllocError, Global};
use std::fmt::Write;

/// Returns the line of a section of `before` bytes that was slimmed to `after` bytes, with this many
/// functions and rows.
#[tactic(auto, unfolding(crate::specs::Slim::slim_text))]
pub fn slim_line(
    alloc: Global,
    before: u64,
    after: u64,
    functions: u32,
    rows: u32,
) -> Result<Vec<u8>, NoMemory>
    ensures { IfOk result (λ text. text.items ≡ slim_text before after functions rows) }
{
    let mut text = String::new(alloc);
    write!(text, "slim {} {}", before, after)?;
    push_counts(&mut text, functions, rows)?;
    Ok(text.into_bytes())
}

/// Appends the counts of functions and rows.
#[tactic(auto, unfolding(crate::specs::Slim::counts_text))]
fn push_counts(text: &mut String, functions: u32, rows: u32) -> Result<(), AllocError>
    ensures { OnOk result (string_bytes text.new ≡ string_bytes text.old ++ counts_text functions rows) }
{
    write!(text, " functions {} rows {}\n", functions, rows)
}
