//! The header (SFrame Version 3).

ghost use Rattle.std.specs.Prelude.{◌≡◌, ◌≤◌, ◌^◌, ◌++◌, OnOk};
ghost use Rattle.sf3_write.specs.Section.{preamble, header_bytes};

use crate::layout::{FLAGS, FUNCTION_ENTRY_LEN, VERSION};
use sf_decode::layout::{ABI_AARCH64, ABI_AMD64, FIXED_RETURN_AMD64, MAGIC};
use sf_model::Arch;
use sf_write::push_word;
use std::alloc::AllocError;

/// Appends the header of a section with this number of functions and of rows, and this length of its sub-section of rows.
#[tactic(auto, unfolding(crate::specs::Section::header_bytes))]
pub(crate) fn push_header(
    bytes: &mut Vec<u8>,
    arch: Arch,
    functions: u32,
    rows: u32,
    len: u32,
) -> Result<(), AllocError>
    requires { functions ≤ 2 ^ 21 }
    ensures { OnOk result (bytes.new.items ≡ bytes.old.items ++ header_bytes arch functions rows len) }
{
    push_preamble(bytes, arch)?;
    push_word(bytes, functions)?;
    push_word(bytes, rows)?;
    push_word(bytes, len)?;
    push_word(bytes, 0)?;
    push_word(bytes, FUNCTION_ENTRY_LEN * functions)
}

/// Appends the header's first eight bytes.
#[tactic(auto, unfolding(crate::specs::Section::preamble))]
fn push_preamble(bytes: &mut Vec<u8>, arch: Arch) -> Result<(), AllocError>
    ensures { OnOk result (bytes.new.items ≡ bytes.old.items ++ preamble arch) }
{
    let [magic_low, magic_high] = MAGIC.to_le_bytes();
    let (abi, fixed_return) = match arch {
        Arch::Amd64 => (ABI_AMD64, FIXED_RETURN_AMD64),
        Arch::Aarch64 => (ABI_AARCH64, 0),
    };
    bytes.extend_from_slice(&[
        magic_low,
        magic_high,
        VERSION,
        FLAGS,
        abi,
        0,
        fixed_return,
        0,
    ])
}
