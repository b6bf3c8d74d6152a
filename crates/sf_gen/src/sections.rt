//! The contents of the sections other than `.eh_frame` (ELF64 gABI).

ghost use Rattle.std.specs.Prelude.{◌≡◌, ◌≤◌, ◌^◌, ◌<◌, ◌++◌, [], OnOk};
ghost use Rattle.sf_gen.specs.Object as spec;

use crate::layout::{
    CIE_LEN, FDE_LEN, FUNCTION_LEN, NOP, PC_BEGIN, R_X86_64_PC32, SECTION_SYMBOL, TEXT,
};
use crate::number::{push_half, push_word, push_xword};
use std::alloc::AllocError;

/// The string table of the symbols: a zero byte, filled up to a multiple of 8.
const NO_STRINGS: [u8; 8] = [0; 8];

/// The string table of the sections' names, filled up to a multiple of 8.
const SECTION_NAMES: &[u8] =
    b"\0.text\0.eh_frame\0.rela.eh_frame\0.symtab\0.strtab\0.shstrtab\0\0\0\0\0\0\0";

/// Appends the code of `n` functions.
pub(crate) fn push_text(bytes: &mut Vec<u8>, n: u32) -> Result<(), AllocError>
    ensures { OnOk result (bytes.new.items ≡ bytes.old.items ++ spec.text n) }
{
    for _ in 0..n {
        bytes.extend_from_slice(&[NOP; FUNCTION_LEN as usize])?;
    }
    Ok(())
}

/// Appends the relocations of `.eh_frame`, one for each function.
pub(crate) fn push_relas(bytes: &mut Vec<u8>, n: u32) -> Result<(), AllocError>
    requires { n ≤ 100000 }
    ensures { OnOk result (bytes.new.items ≡ bytes.old.items ++ spec.relas n) }
{
    for i in 0..n {
        let place = CIE_LEN + PC_BEGIN + FDE_LEN * i;
        push_rela(bytes, place, R_X86_64_PC32, FUNCTION_LEN * i)?;
    }
    Ok(())
}

/// Appends a relocation by symbol 1.
#[tactic(auto, unfolding(crate::specs::Object::rela))]
fn push_rela(bytes: &mut Vec<u8>, offset: u32, kind: u64, addend: u32) -> Result<(), AllocError>
    requires { kind < 2 ^ 32 }
    ensures { OnOk result (bytes.new.items ≡ bytes.old.items ++ spec.rela offset 1 kind addend) }
{
    push_xword(bytes, u64::from(offset))?;
    push_xword(bytes, (1 << 32) + kind)?;
    push_xword(bytes, u64::from(addend))
}

/// Appends the symbols: the first, which is no symbol, and that of section 1.
pub(crate) fn push_symbols(bytes: &mut Vec<u8>) -> Result<(), AllocError>
    ensures { OnOk result (bytes.new.items ≡ bytes.old.items ++ spec.symbols) }
{
    push_symbol(bytes, 0, 0)?;
    push_symbol(bytes, SECTION_SYMBOL, TEXT)
}

/// Appends a symbol without name, value and size.
#[tactic(auto, unfolding(crate::specs::Object::symbol))]
fn push_symbol(bytes: &mut Vec<u8>, info: u8, section: u16) -> Result<(), AllocError>
    ensures { OnOk result (bytes.new.items ≡ bytes.old.items ++ spec.symbol 0 info 0 section 0 0) }
{
    push_word(bytes, 0)?;
    bytes.extend_from_slice(&[info, 0])?;
    push_half(bytes, section)?;
    push_xword(bytes, 0)?;
    push_xword(bytes, 0)
}

/// Appends both string tables.
#[tactic(auto, unfolding(crate::specs::Object::padded))]
pub(crate) fn push_string_tables(bytes: &mut Vec<u8>) -> Result<(), AllocError>
    ensures { OnOk result (bytes.new.items ≡ bytes.old.items ++ spec.padded (spec.string_table []) ++ spec.padded (spec.string_table spec.section_names)) }
{
    bytes.extend_from_slice(&NO_STRINGS)?;
    bytes.extend_from_slice(SECTION_NAMES)
}
