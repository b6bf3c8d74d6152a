//! Program headers.

ghost use Rattle.std.specs.Prelude.{◌≡◌, ◌<◌, ◌^◌};
ghost use Rattle.elf_read.specs.Header.{header_fields, program_header};

use crate::header::e_phoff;
use crate::layout::{
    P_FILESZ, P_FLAGS, P_MEMSZ, P_OFFSET, P_TYPE, P_VADDR, PF_X, PROGRAM_HEADER_LEN,
};
use crate::number::{bytes_from, flag_is_set, u32_at, u64_at};

/// Returns the place of a program header.
pub fn header_place(file: &[u8], i: u32) -> u64
    requires { (header_fields file.now).e_phoff < 2 ^ 32 }
    ensures { result ≡ program_header file.now i }
{
    e_phoff(file) + PROGRAM_HEADER_LEN * u64::from(i)
}

/// A program header (ELF64 gABI, "Program Header").
#[derive(Clone, Copy)]
pub struct ProgramHeader<'a> {
    bytes: &'a [u8],
}

impl<'a> ProgramHeader<'a> {
    ghost use Rattle.elf_read.specs.Number.{has_flag};
    ghost use Rattle.elf_read.specs.SegmentFields.{program_fields, fields_of};

    /// Returns the program header of a number.
    pub fn of(file: &'a [u8], i: u32) -> ProgramHeader<'a>
        ensures { fields_of result ≡ program_fields file.now i }
    {
        let headers = bytes_from(file, e_phoff(file));
        ProgramHeader {
            bytes: bytes_from(headers, PROGRAM_HEADER_LEN * u64::from(i)),
        }
    }

    /// Returns p_type.
    pub fn kind(self) -> u32
        ensures { result ≡ (fields_of self.entry).kind }
    {
        u32_at(self.bytes, P_TYPE)
    }

    /// Returns whether the segment is executable: p_flags has PF_X.
    pub fn is_executable(self) -> bool
        ensures { result ≡ has_flag (fields_of self.entry).flags 1 }
    {
        flag_is_set(u64::from(u32_at(self.bytes, P_FLAGS)), PF_X)
    }

    /// Returns p_offset: the place of the segment's bytes in the file.
    pub fn offset(self) -> u64
        ensures { result ≡ (fields_of self.entry).offset }
    {
        u64_at(self.bytes, P_OFFSET)
    }

    /// Returns p_vaddr: the segment's address.
    pub fn vaddr(self) -> u64
        ensures { result ≡ (fields_of self.entry).vaddr }
    {
        u64_at(self.bytes, P_VADDR)
    }

    /// Returns p_filesz: how many bytes the segment has in the file.
    pub fn file_size(self) -> u64
        ensures { result ≡ (fields_of self.entry).file_size }
    {
        u64_at(self.bytes, P_FILESZ)
    }

    /// Returns p_memsz: how many bytes the segment has in memory.
    pub fn memory_size(self) -> u64
        ensures { result ≡ (fields_of self.entry).memory_size }
    {
        u64_at(self.bytes, P_MEMSZ)
    }
}
