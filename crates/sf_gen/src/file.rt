//! The whole file.

ghost use Rattle.std.specs.Prelude.{◌≡◌, ◌≤◌, ◌+◌, ◌*◌, IfOk, vec_len};
ghost use Rattle.sf_gen.specs.Object.{object_bytes};

use crate::frames::push_eh_frame;
use crate::headers::{push_file_header, push_section_headers};
use crate::layout::{SECTION_COUNT, SECTION_HEADER_LEN};
use crate::places::places_of;
use crate::sections::{push_relas, push_string_tables, push_symbols, push_text};
use sf_base::NoMemory;
use std::alloc::Global;

/// Returns the bytes of an object file with `n` functions, where `n` is at most 100,000: an ELF64
/// relocatable file for AMD64 (ELF64 gABI) with a section `.eh_frame` and its relocations. Memory is
/// allocated once, 656 bytes and 88 for each function.
///
/// # Errors
///
/// `NoMemory` alone.
pub fn object(alloc: Global, n: u32) -> Result<Vec<u8>, NoMemory>
    requires { n ≤ 100000 }
    ensures bytes { IfOk result (λ v. v.items ≡ object_bytes n) }
    ensures len { IfOk result (λ v. vec_len v ≡ 656 + 88 * n) }
{
    let headers = places_of(n).headers;
    let len = headers + u32::from(SECTION_COUNT) * SECTION_HEADER_LEN;
    let mut bytes = Vec::with_capacity(alloc, len as usize)?;
    push_file_header(&mut bytes, headers)?;
    push_text(&mut bytes, n)?;
    push_eh_frame(&mut bytes, n)?;
    push_relas(&mut bytes, n)?;
    push_symbols(&mut bytes)?;
    push_string_tables(&mut bytes)?;
    push_section_headers(&mut bytes, n)?;
    Ok(bytes)
}
