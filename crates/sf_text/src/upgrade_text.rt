//! The text of a section that was upgraded.

ghost use Rattle.std.specs.Prelude.{◌≡◌, IfOk};
ghost use Rattle.sf_text.specs.Upgraded.{upgraded_text};

use sf_base::NoMemory;
use std::alloc::Global;
use std::fmt::Write;

/// Returns the line of a section that was upgraded to this many functions and rows.
#[tactic(auto, unfolding(crate::specs::Upgraded::upgraded_text))]
pub fn upgraded(alloc: Global, functions: u32, rows: u32) -> Result<Vec<u8>, NoMemory>
    ensures { IfOk result (λ text. text.items ≡ upgraded_text functions rows) }
{
    let mut text = String::new(alloc);
    write!(text, "upgraded {} functions {} rows\n", functions, rows)?;
    Ok(text.into_bytes())
}
