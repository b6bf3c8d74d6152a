//! The header (SFrame Version 2).

ghost use Rattle.std.specs.Prelude.{◌≡◌, ◌≤◌, ◌^◌, ◌++◌, OnOk};
ghost use Rattle.sf_write.specs.Section.{preamble, header_bytes};

use crate::layout::{FLAGS, FUNCTION_ENTRY_LEN};
use crate::number::push_word;
use crate::totals::Totals;
use sf_decode::layout::{ABI_AARCH64, ABI_AMD64, FIXED_RETURN_AMD64, MAGIC, VERSION};
use sf_model::Arch;
use std::alloc::AllocError;

/// Appends the header of a section with this number of functions.
#[tactic(auto, unfolding(crate::specs::Section::header_bytes))]
pub(crate) fn push_header(
    bytes: &mut Vec<u8>,
    arch: Arch,
    functions: u32,
    totals: Totals,
) -> Result<(), AllocError>
    requires { functions ≤ 2 ^ 21 }
    ensures { OnOk result (bytes.new.items ≡ bytes.old.items ++ header_bytes arch functions totals.rows totals.row_bytes) }
{
    push_preamble(bytes, arch)?;
    push_word(bytes, functions)?;
    push_word(bytes, totals.rows)?;
    push_word(bytes, totals.row_bytes)?;
    push_word(bytes, 0)?;
    push_word(bytes, FUNCTION_ENTRY_LEN * functions)
}

/// Appends the header's first eight bytes.
#[tactic(auto, unfolding(crate::specs::Section::preamble))]
fn push_preamble(bytes: &mut Vec<u8>, arch: Arch) -> Result<(), AllocError>
    ensures { OnOk result (bytes.new.items ≡ bytes.old.items ++ preamble arch) }
{
    let [magic_low, magic_high] = MAGIC.to_le_bytes();
    let (abi, fixed_return) = match arch {
        Arch::Amd64 => (ABI_AMD64, FIXED_RETURN_AMD64),
        Arch::Aarch64 => (ABI_AARCH64, 0),
    };
    bytes.extend_from_slice(&[
        magic_low,
        magic_high,
        VERSION,
        FLAGS,
        abi,
        0,
        fixed_return,
        0,
    ])
}
