//! The text of a made object's link.

ghost use Rattle.std.specs.Prelude.{◌≡◌, ◌++◌, string_bytes, OnOk, IfOk, sum};
ghost use Rattle.sf_text.specs.Summary.{bytes_text, summary_text};

use sf_base::NoMemory;
use std::alloc::{AllocError, Global};
use std::fmt::Write;

/// Returns the line of a link of a made object of `n` functions: how many were kept and omitted, and the length
/// of the section and the sum of its bytes.
#[tactic(auto, unfolding(crate::specs::Summary::summary_text))]
pub fn summary(
    alloc: Global,
    n: u32,
    kept: u32,
    omitted: usize,
    section: &[u8],
) -> Result<Vec<u8>, NoMemory>
    ensures { IfOk result (λ text. text.items ≡ summary_text n kept omitted section.now) }
{
    let mut text = String::new(alloc);
    write!(text, "gen {} kept {} omitted {}", n, kept, omitted)?;
    push_section(&mut text, section)?;
    Ok(text.into_bytes())
}

/// Appends the length of a section and the sum of its bytes.
#[tactic(auto, unfolding(crate::specs::Summary::bytes_text))]
fn push_section(text: &mut String, section: &[u8]) -> Result<(), AllocError>
    ensures { OnOk result (string_bytes text.new ≡ string_bytes text.old ++ bytes_text section.now) }
{
    write!(text, " length {} sum {}\n", section.len(), sum_of(section))
}

/// Returns the sum of bytes. It is as wide as the sum of any number of them needs.
fn sum_of(bytes: &[u8]) -> u128
    ensures { result ≡ sum bytes.now }
{
    bytes.iter().map(|&byte| u128::from(byte)).sum()
}
