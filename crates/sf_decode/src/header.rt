//! The preamble and the header (SFrame Version 2).

ghost use Rattle.std.specs.Prelude.{◌≡◌, ◌<◌, ◌+◌, ◌*◌, ◌^◌, length};
ghost use Rattle.sf_model.specs.Section as section;
ghost use Rattle.sf_decode.specs.Entry as entry;
ghost use Rattle.sf_decode.specs.Header as spec;

use crate::check::require;
use crate::fault::DecodeFault;
use crate::layout::{
    ABI_AARCH64, ABI_AMD64, ABI_PLACE, AUXILIARY_LEN_PLACE, FIXED_FRAME_POINTER_PLACE,
    FIXED_RETURN_AMD64, FIXED_RETURN_PLACE, FLAGS_END, FLAGS_PLACE, FUNCTION_COUNT_PLACE,
    FUNCTION_ENTRY_LEN, FUNCTIONS_OFFSET_PLACE, HEADER_LEN, MAGIC, MAGIC_PLACE, ROW_COUNT_PLACE,
    ROWS_LEN_PLACE, ROWS_OFFSET_PLACE, VERSION, VERSION_PLACE,
};
use crate::number::{byte_at, bytes_at, u16_at, u32_at};
use sf_model::{Arch, MOST_FUNCTIONS, MOST_ROWS};

/// Returns the preamble's flags.
#[inline(always)]
pub fn flags_of(bytes: &[u8]) -> u8
    ensures { result ≡ entry.flags_in bytes.now }
{
    byte_at(bytes, FLAGS_PLACE)
}

/// Returns the machine.
#[inline(always)]
pub fn arch_of(bytes: &[u8]) -> Arch
    ensures { result ≡ entry.arch_in bytes.now }
{
    if byte_at(bytes, ABI_PLACE) == ABI_AMD64 {
        Arch::Amd64
    } else {
        Arch::Aarch64
    }
}

/// Returns the number of functions.
#[inline(always)]
pub fn function_count(bytes: &[u8]) -> u32
    ensures { result ≡ spec.function_count_in bytes.now }
{
    u32_at(bytes, FUNCTION_COUNT_PLACE)
}

/// Returns the number of rows of all functions.
#[inline(always)]
pub fn row_count(bytes: &[u8]) -> u32
    ensures { result ≡ spec.row_count_in bytes.now }
{
    u32_at(bytes, ROW_COUNT_PLACE)
}

/// Returns where the header and the auxiliary header end.
#[inline(always)]
pub fn header_end(bytes: &[u8]) -> u64
    ensures value { result ≡ section.header_end bytes.now }
    ensures small { result < 2 ^ 32 }
{
    HEADER_LEN + u64::from(byte_at(bytes, AUXILIARY_LEN_PLACE))
}

/// Returns the place of the first function descriptor entry.
#[inline(always)]
pub fn functions_place(bytes: &[u8]) -> u64
    ensures value { result ≡ section.functions_place bytes.now }
    ensures small { result < 2 ^ 33 }
{
    header_end(bytes) + u64::from(u32_at(bytes, FUNCTIONS_OFFSET_PLACE))
}

/// Returns the place of the sub-section of rows.
#[inline(always)]
pub fn rows_place(bytes: &[u8]) -> u64
    ensures value { result ≡ section.rows_place bytes.now }
    ensures small { result < 2 ^ 33 }
{
    header_end(bytes) + u64::from(u32_at(bytes, ROWS_OFFSET_PLACE))
}

/// Returns the length of the sub-section of rows.
#[inline(always)]
pub fn rows_len(bytes: &[u8]) -> u64
    ensures value { result ≡ section.rows_len bytes.now }
    ensures small { result < 2 ^ 32 }
{
    u64::from(u32_at(bytes, ROWS_LEN_PLACE))
}

/// Returns the bytes of the sub-section of rows.
pub fn row_bytes(bytes: &[u8]) -> &[u8]
    ensures value { result.now ≡ section.row_bytes_of bytes.now }
    ensures small { length result.now < 2 ^ 32 }
{
    bytes_at(bytes, rows_place(bytes), rows_len(bytes))
}

// Returns whether the abi and architecture is one of the two.
fn is_known_abi(abi: u8) -> bool
    ensures { result ≡ spec.is_known_abi abi }
{
    abi == ABI_AARCH64 || abi == ABI_AMD64
}

// Returns the fixed offset of the machine's return address, as a byte.
fn fixed_return(arch: Arch) -> u8
    ensures { result ≡ section.fixed_return_byte arch }
{
    match arch {
        Arch::Amd64 => FIXED_RETURN_AMD64,
        Arch::Aarch64 => 0,
    }
}

// Checks the magic number, the version and the flags.
#[tactic(auto, unfolding(crate::specs::Header::preamble_check))]
fn check_preamble(bytes: &[u8]) -> Result<(), DecodeFault>
    ensures { result ≡ spec.preamble_check bytes.now }
{
    let len = bytes.len() as u64;
    require(HEADER_LEN <= len, DecodeFault::Short(len))?;
    require(
        u16_at(bytes, MAGIC_PLACE) == MAGIC,
        DecodeFault::Magic(MAGIC_PLACE),
    )?;
    require(
        byte_at(bytes, VERSION_PLACE) == VERSION,
        DecodeFault::Version(VERSION_PLACE),
    )?;
    require(flags_of(bytes) < FLAGS_END, DecodeFault::Flags(FLAGS_PLACE))
}

/// Checks the machine, its fixed offsets, and the auxiliary header.
#[tactic(auto, unfolding(crate::specs::Header::machine_check))]
pub fn check_machine(bytes: &[u8]) -> Result<(), DecodeFault>
    ensures { result ≡ spec.machine_check bytes.now }
{
    let len = bytes.len() as u64;
    require(
        is_known_abi(byte_at(bytes, ABI_PLACE)),
        DecodeFault::Abi(ABI_PLACE),
    )?;
    require(
        byte_at(bytes, FIXED_FRAME_POINTER_PLACE) == 0,
        DecodeFault::FixedOffset(FIXED_FRAME_POINTER_PLACE),
    )?;
    require(
        byte_at(bytes, FIXED_RETURN_PLACE) == fixed_return(arch_of(bytes)),
        DecodeFault::FixedOffset(FIXED_RETURN_PLACE),
    )?;
    require(header_end(bytes) <= len, DecodeFault::Short(len))
}

// Checks the limits, and where the sub-sections lie.
#[tactic(auto, unfolding(crate::specs::Header::layout_check))]
fn check_layout(bytes: &[u8]) -> Result<(), DecodeFault>
    ensures { result ≡ spec.layout_check bytes.now }
{
    let len = bytes.len() as u64;
    let count = function_count(bytes);
    require(
        count as usize <= MOST_FUNCTIONS,
        DecodeFault::TooManyFunctions(FUNCTION_COUNT_PLACE),
    )?;
    require(
        row_count(bytes) as usize <= MOST_ROWS,
        DecodeFault::TooManyRows(ROW_COUNT_PLACE),
    )?;
    require(
        functions_place(bytes) + FUNCTION_ENTRY_LEN * u64::from(count) <= len,
        DecodeFault::Layout(FUNCTIONS_OFFSET_PLACE),
    )?;
    require(
        rows_place(bytes) + rows_len(bytes) <= len,
        DecodeFault::Layout(ROWS_OFFSET_PLACE),
    )
}

/// Checks the whole header.
#[tactic(auto, unfolding(crate::specs::Header::header_check))]
pub fn check_header(bytes: &[u8]) -> Result<(), DecodeFault>
    ensures { result ≡ spec.header_check bytes.now }
{
    check_preamble(bytes)?;
    check_machine(bytes)?;
    check_layout(bytes)
}
