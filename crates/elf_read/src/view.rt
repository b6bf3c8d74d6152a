//! A file that was checked.

ghost use Rattle.std.specs.Prelude.{◌<◌, ◌^◌, length, IsTrue, is_ok};
ghost use Rattle.elf_read.specs.Header.{header_fields};
ghost use Rattle.elf_read.specs.Parsing.{file_check};
ghost use Rattle.elf_read.specs.Sections.{section_count as count_of};

use crate::entry::{GroupHead, Rela, Section, Segment, Symbol};
use crate::fault::ElfFault;
use crate::kind::Kind;
use crate::number::bytes_at;
use crate::parsing::check_file;
use crate::program_header::ProgramHeader;
use crate::section_header::{SectionHeader, header_place};
use crate::segments::check_program_headers;
use crate::{entries, header, reading, sections};
use sf_model::Arch;

/// An ELF file that was checked. It lends the file's bytes. There are fewer than 2^32.
#[derive(Clone, Copy)]
pub struct Elf<'a> {
    bytes: &'a [u8],
    ghost small: { length bytes.now < 2 ^ 32 },
    ghost counted: { count_of bytes.now < 2 ^ 32 },
    ghost headers: { 0 < count_of bytes.now → (header_fields bytes.now).e_shoff < 2 ^ 32 },
    ghost checked: { IsTrue (is_ok (file_check bytes.now)) },
}

impl<'a> Elf<'a> {
    ghost use Rattle.std.specs.Prelude.{◌≡◌, ◌==◌, ℕ, IfOk, IfSome};
    ghost use Rattle.std.specs.Cmp.Lexicographic.{pointwise};
    ghost use Rattle.std.specs.Option.{option_map};
    ghost use Rattle.elf_read.specs.Checks.{program_headers_check};
    ghost use Rattle.elf_read.specs.Header as head;
    ghost use Rattle.elf_read.specs.Number.{LiesAt};
    ghost use Rattle.elf_read.specs.Checking.{verdict};
    ghost use Rattle.elf_read.specs.Sections as fields;
    ghost use Rattle.elf_read.specs.SegmentFields as segment_spec;
    ghost use Rattle.elf_read.specs.Views.{file, section_of, segment_bytes, symbol_of, group_view, group_of};

    /// Checks a file: the header, then the segments of a core file, or else the section headers, the
    /// sections' names, and the sections that are used (call frame information, its relocations and section
    /// groups, with the tables that these name). The fault is that of the first check that fails.
    pub fn parse(bytes: &'a [u8]) -> Result<Elf<'a>, ElfFault>
        requires { length bytes.now < 2 ^ 32 }
        // It is read exactly where no check fails; else the fault is that of the first that does.
        ensures exact { verdict result ≡ file_check bytes.now }
        ensures file { IfOk result (λ elf. file elf ≡ bytes.now) }
    {
        check_file(bytes)?;
        Ok(Elf { bytes })
    }

    /// Returns the kind of the file.
    pub fn kind(&self) -> Kind
        ensures { result ≡ head.kind_of (file self.now) }
    {
        header::kind_of(self.bytes)
    }

    /// Returns the machine of the file.
    pub fn arch(&self) -> Arch
        ensures { result ≡ head.arch_of (file self.now) }
    {
        header::arch_of(self.bytes)
    }

    /// Returns how many sections the file has; 0 for a core file.
    pub fn sections(&self) -> u32
        ensures { result ≡ fields.section_count (file self.now) }
    {
        sections::section_count(self.bytes) as u32
    }

    /// Returns how many segments the file has; 0 unless it is a core file.
    pub fn segments(&self) -> u32
        ensures { result ≡ fields.segment_count (file self.now) }
    {
        sections::segment_count(self.bytes)
    }

    /// Returns the header of a section.
    pub fn section(&self, i: u32) -> Section
        ensures { result ≡ section_of (file self.now) i }
    {
        SectionHeader::of(self.bytes, i).section()
    }

    /// Returns the name of a section, empty where the file has no names.
    pub fn name(&self, i: u32) -> &'a [u8]
        ensures { result.now ≡ fields.section_name (file self.now) i }
    {
        sections::section_name(self.bytes, i)
    }

    /// Returns whether a section has this name. Of the section's name at most one byte more than this name has is read.
    pub fn is_named(&self, i: u32, name: &[u8]) -> bool
        requires { length name.now < 2 ^ 32 }
        ensures { result ≡ pointwise (λ (a b : ℕ). a == b) (fields.section_name (file self.now) i) name.now }
    {
        sections::is_named(self.bytes, i, name)
    }

    /// Returns whether a section is loaded: it has the flag SHF_ALLOC.
    #[tactic(auto, unfolding(crate::specs::Sections::is_allocated))]
    pub fn is_allocated(&self, i: u32) -> bool
        ensures { result ≡ fields.is_allocated (file self.now) i }
    {
        SectionHeader::of(self.bytes, i).is_allocated()
    }

    /// Returns whether a section's flags say that its info is the number of a section: it has the flag SHF_INFO_LINK.
    #[tactic(auto, unfolding(crate::specs::Sections::has_info_link))]
    pub fn has_info_link(&self, i: u32) -> bool
        ensures { result ≡ fields.has_info_link (file self.now) i }
    {
        SectionHeader::of(self.bytes, i).has_info_link()
    }

    /// Returns whether a section's bytes are compressed: it has the flag SHF_COMPRESSED.
    #[tactic(auto, unfolding(crate::specs::Sections::is_compressed))]
    pub fn is_compressed(&self, i: u32) -> bool
        ensures { result ≡ fields.is_compressed (file self.now) i }
    {
        SectionHeader::of(self.bytes, i).is_compressed()
    }

    /// Returns the place of a section's header in the file.
    pub fn header_place(&self, i: u32) -> u64
        requires { i < fields.section_count (file self.now) }
        ensures { result ≡ fields.section_header (file self.now) i }
    {
        header_place(self.bytes, i)
    }

    /// Returns whether a section holds call frame information: it is loaded and has the name `.eh_frame`.
    pub fn is_eh_frame(&self, i: u32) -> bool
        ensures { result ≡ fields.is_eh_frame (file self.now) i }
    {
        sections::is_eh_frame(self.bytes, i)
    }

    /// Returns the bytes of a section; no bytes where its type is SHT_NULL or SHT_NOBITS.
    pub fn bytes(&self, i: u32) -> &'a [u8]
        ensures bytes { result.now ≡ fields.section_bytes (file self.now) i }
        ensures small { length result.now < 2 ^ 32 }
    {
        sections::section_bytes(self.bytes, i)
    }

    /// Checks the program headers of a file of any kind: their length, and that they lie in the file. How many there
    /// are. `parse` checks those of a core file alone.
    pub fn program_headers(&self) -> Result<u32, ElfFault>
        ensures exact { verdict result ≡ program_headers_check (file self.now) }
        ensures count { IfOk result (λ count. count ≡ fields.segment_total (file self.now)) }
    {
        check_program_headers(self.bytes)
    }

    /// Returns the segment of a program header's number, in a file of any kind.
    pub fn segment(&self, i: u32) -> Segment<'a>
        ensures kind { result.kind ≡ head.p_type (file self.now) i }
        ensures vaddr { result.vaddr ≡ head.p_vaddr (file self.now) i }
        ensures place { result.place ≡ head.p_offset (file self.now) i }
        ensures bytes { result.bytes.now ≡ segment_bytes (file self.now) i }
    {
        let header = ProgramHeader::of(self.bytes, i);
        let place = header.offset();
        Segment {
            kind: header.kind(),
            vaddr: header.vaddr(),
            place,
            bytes: bytes_at(self.bytes, place, header.file_size()),
        }
    }

    /// Returns whether a segment is executable: it has the flag PF_X.
    pub fn is_executable(&self, i: u32) -> bool
        ensures { result ≡ segment_spec.is_executable (file self.now) i }
    {
        ProgramHeader::of(self.bytes, i).is_executable()
    }

    /// Returns how many bytes a segment has in the file by its header.
    pub fn file_size(&self, i: u32) -> u64
        ensures { result ≡ head.p_filesz (file self.now) i }
    {
        ProgramHeader::of(self.bytes, i).file_size()
    }

    /// Returns how many bytes a segment has in memory.
    pub fn memory_size(&self, i: u32) -> u64
        ensures { result ≡ segment_spec.p_memsz (file self.now) i }
    {
        ProgramHeader::of(self.bytes, i).memory_size()
    }

    /// Returns entry `k` of the relocation section `i`.
    pub fn rela(&self, i: u32, k: u32) -> Rela
        ensures offset { result.offset ≡ (fields.rela_fields (file self.now) i k).r_offset }
        ensures symbol { result.symbol ≡ (fields.rela_fields (file self.now) i k).r_sym }
        ensures kind { result.kind ≡ (fields.rela_fields (file self.now) i k).r_type }
        ensures addend { result.addend ≡ (fields.rela_fields (file self.now) i k).r_addend }
    {
        reading::rela_at(self.bytes, i, k)
    }

    /// Returns symbol `k` of the symbol table `table`.
    pub fn symbol(&self, table: u32, k: u32) -> Symbol
        ensures { result ≡ symbol_of (file self.now) table k }
    {
        reading::symbol_at(self.bytes, table, k)
    }

    /// Returns the head of a section group, or none if the section isn't one or the file is no object.
    pub fn group(&self, i: u32) -> Option<GroupHead<'a>>
        ensures group { option_map group_view result ≡ group_of (file self.now) i }
        // The place of its signature in the file.
        ensures signature { IfSome result (λ head. LiesAt head.signature.place head.signature.rest.now (file self.now)) }
    {
        reading::group_at(self.bytes, i)
    }

    /// Returns the number of the section that member `k` of a group is.
    pub fn member(&self, i: u32, k: u32) -> u32
        ensures { result ≡ fields.group_member (file self.now) i k }
    {
        entries::group_member(self.bytes, i, k)
    }
}
