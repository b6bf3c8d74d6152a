//! Numbers as little-endian bytes (ELF64 gABI, "Data Representation").

ghost use Rattle.std.specs.Prelude.{◌≡◌, ◌++◌, OnOk};
ghost use Rattle.sf_gen.specs.Number.{half, word, xword};

use std::alloc::AllocError;

/// Appends an Elf64_Half.
#[tactic(auto, unfolding(crate::specs::Number::half))]
pub(crate) fn push_half(bytes: &mut Vec<u8>, number: u16) -> Result<(), AllocError>
    ensures { OnOk result (bytes.new.items ≡ bytes.old.items ++ half number) }
{
    bytes.extend_from_slice(&number.to_le_bytes())
}

/// Appends an Elf64_Word.
#[tactic(auto, unfolding(crate::specs::Number::word))]
pub(crate) fn push_word(bytes: &mut Vec<u8>, number: u32) -> Result<(), AllocError>
    ensures { OnOk result (bytes.new.items ≡ bytes.old.items ++ word number) }
{
    bytes.extend_from_slice(&number.to_le_bytes())
}

/// Appends an Elf64_Xword.
#[tactic(auto, unfolding(crate::specs::Number::xword))]
pub(crate) fn push_xword(bytes: &mut Vec<u8>, number: u64) -> Result<(), AllocError>
    ensures { OnOk result (bytes.new.items ≡ bytes.old.items ++ xword number) }
{
    bytes.extend_from_slice(&number.to_le_bytes())
}
