//! Section headers.

ghost use Rattle.std.specs.Prelude.{◌≡◌, ◌<◌, ◌^◌};
ghost use Rattle.elf_read.specs.Header.{header_fields};
ghost use Rattle.elf_read.specs.Sections.{section_header};

use crate::entry::Section;
use crate::header::e_shoff;
use crate::layout::{
    SECTION_HEADER_LEN, SH_ADDR, SH_ADDRALIGN, SH_ENTSIZE, SH_FLAGS, SH_INFO, SH_LINK, SH_NAME,
    SH_OFFSET, SH_SIZE, SH_TYPE, SHF_ALLOC, SHF_COMPRESSED, SHF_INFO_LINK, SHT_NOBITS, SHT_NULL,
};
use crate::number::{bytes_from, flag_is_set, u32_at, u64_at};

/// Returns the place of a section's header.
pub fn header_place(file: &[u8], i: u32) -> u64
    requires { (header_fields file.now).e_shoff < 2 ^ 32 }
    ensures { result ≡ section_header file.now i }
{
    e_shoff(file) + SECTION_HEADER_LEN * u64::from(i)
}

/// A section header (ELF64 gABI, "Sections").
#[derive(Clone, Copy)]
pub struct SectionHeader<'a> {
    bytes: &'a [u8],
}

impl<'a> SectionHeader<'a> {
    ghost use Rattle.std.specs.Prelude.{◌*◌, drop};
    ghost use Rattle.elf_read.specs.Number.{has_flag};
    ghost use Rattle.elf_read.specs.Sections.{section_fields, fields_of, is_in_file};
    ghost use Rattle.elf_read.specs.Views.{section_view};

    /// Returns header `i` of a table.
    pub fn at(table: &'a [u8], i: u32) -> SectionHeader<'a>
        ensures { result.bytes.now ≡ drop (64 * i) table.now }
    {
        SectionHeader {
            bytes: bytes_from(table, SECTION_HEADER_LEN * u64::from(i)),
        }
    }

    /// Returns the header of a section.
    pub fn of(file: &'a [u8], i: u32) -> SectionHeader<'a>
        ensures { fields_of result ≡ section_fields file.now i }
    {
        SectionHeader::at(bytes_from(file, e_shoff(file)), i)
    }

    /// Returns sh_name: the place of the section's name in the name table.
    pub fn name(self) -> u32
        ensures { result ≡ (fields_of self.entry).sh_name }
    {
        u32_at(self.bytes, SH_NAME)
    }

    /// Returns sh_type.
    pub fn kind(self) -> u32
        ensures { result ≡ (fields_of self.entry).sh_type }
    {
        u32_at(self.bytes, SH_TYPE)
    }

    /// Returns sh_flags.
    pub fn flags(self) -> u64
        ensures { result ≡ (fields_of self.entry).sh_flags }
    {
        u64_at(self.bytes, SH_FLAGS)
    }

    /// Returns sh_addr.
    pub fn addr(self) -> u64
        ensures { result ≡ (fields_of self.entry).sh_addr }
    {
        u64_at(self.bytes, SH_ADDR)
    }

    /// Returns sh_offset: the place of the section's bytes in the file.
    pub fn offset(self) -> u64
        ensures { result ≡ (fields_of self.entry).sh_offset }
    {
        u64_at(self.bytes, SH_OFFSET)
    }

    /// Returns sh_size, in bytes.
    pub fn size(self) -> u64
        ensures { result ≡ (fields_of self.entry).sh_size }
    {
        u64_at(self.bytes, SH_SIZE)
    }

    /// Returns sh_link: the number of the section that this one is linked to.
    pub fn link(self) -> u32
        ensures { result ≡ (fields_of self.entry).sh_link }
    {
        u32_at(self.bytes, SH_LINK)
    }

    /// Returns sh_info, whose meaning the type gives.
    pub fn info(self) -> u32
        ensures { result ≡ (fields_of self.entry).sh_info }
    {
        u32_at(self.bytes, SH_INFO)
    }

    /// Returns sh_addralign, in bytes.
    pub fn align(self) -> u64
        ensures { result ≡ (fields_of self.entry).sh_addralign }
    {
        u64_at(self.bytes, SH_ADDRALIGN)
    }

    /// Returns sh_entsize: how many bytes an entry has.
    pub fn entry(self) -> u64
        ensures { result ≡ (fields_of self.entry).sh_entsize }
    {
        u64_at(self.bytes, SH_ENTSIZE)
    }

    /// Returns all fields but the name.
    pub fn section(self) -> Section
        ensures { result ≡ section_view (fields_of self.entry) }
    {
        Section {
            kind: self.kind(),
            flags: self.flags(),
            addr: self.addr(),
            offset: self.offset(),
            size: self.size(),
            link: self.link(),
            info: self.info(),
            align: self.align(),
            entry: self.entry(),
        }
    }

    /// Returns whether the section has bytes in the file.
    pub fn is_in_file(self) -> bool
        ensures { result ≡ is_in_file (fields_of self.entry) }
    {
        !matches!(self.kind(), SHT_NULL | SHT_NOBITS)
    }

    /// Returns whether the section is loaded.
    pub fn is_allocated(self) -> bool
        ensures { result ≡ has_flag (fields_of self.entry).sh_flags 2 }
    {
        flag_is_set(self.flags(), SHF_ALLOC)
    }

    /// Returns whether the flags say that sh_info is the number of a section.
    pub fn has_info_link(self) -> bool
        ensures { result ≡ has_flag (fields_of self.entry).sh_flags 0x40 }
    {
        flag_is_set(self.flags(), SHF_INFO_LINK)
    }

    /// Returns whether the section's bytes are compressed.
    pub fn is_compressed(self) -> bool
        ensures { result ≡ has_flag (fields_of self.entry).sh_flags 0x800 }
    {
        flag_is_set(self.flags(), SHF_COMPRESSED)
    }
}
