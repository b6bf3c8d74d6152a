//! A file that a process may have had mapped, in either of its two forms: all its bytes, or an executable or a shared object
//! that was read by parts.

ghost use Rattle.std.specs.Prelude.{◌≡◌, ◌<◌, ◌^◌, length};
ghost use Rattle.elf_read.specs.Views.{file};

use crate::mapped_elf::MappedElf;
use crate::program_header as header;
use crate::whole::sframe_of;
use core_notes::{SegmentNotes, check_room};
use elf_read::{Elf, ElfFault, Kind};
use sf_model::Arch;

/// A file before its checks. Parts of a file are there only if it passes them.
#[derive(Clone, Copy)]
pub enum MappedBytes<'a> {
    /// All its bytes.
    Whole(&'a [u8]),
    /// Its parts.
    Parts(&'a MappedElf),
}

/// All bytes of a file that was checked. There are fewer than 2^32.
#[derive(Clone, Copy)]
pub struct WholeFile<'a> {
    bytes: &'a [u8],
    elf: Elf<'a>,
    ghost same: { bytes.now ≡ file elf },
    ghost small: { length bytes.now < 2 ^ 32 },
}

/// The program header of a segment (ELF64 gABI, "Program Header").
#[derive(Clone, Copy)]
pub struct SegmentHeader {
    /// p_type.
    pub kind: u32,
    /// p_vaddr: its address.
    pub vaddr: u64,
    /// p_offset: the place of its bytes in the file.
    pub place: u64,
}

/// A file that was checked.
#[derive(Clone, Copy)]
pub enum ProgramFile<'a> {
    /// All its bytes.
    Whole(WholeFile<'a>),
    /// Its parts.
    Parts(&'a MappedElf),
}

impl<'a> ProgramFile<'a> {
    ghost use Rattle.std.specs.Prelude.{Some, IfOk, IfSome};
    ghost use Rattle.core_notes.specs.TotalSize.{HeadersLie, note_room_check};
    ghost use Rattle.core_notes.specs.SegmentNotes.{notes_left, segment_notes};
    ghost use Rattle.elf_read.specs.Checking.{each_below, verdict};
    ghost use Rattle.elf_read.specs.Checks.{program_headers_check};
    ghost use Rattle.elf_read.specs.Header as head;
    ghost use Rattle.elf_read.specs.Parsing.{file_check};
    ghost use Rattle.elf_read.specs.Sections as fields;
    ghost use Rattle.elf_read.specs.Sections.{segment_total};
    ghost use Rattle.elf_read.specs.SegmentFields as segment_spec;
    ghost use Rattle.elf_mapped.specs.Program.{all_bytes, program_bytes};
    ghost use Rattle.elf_mapped.specs.Sframe.{sframe_check, sframe_section};

    /// Checks a file, as [`Elf::parse`] does. The fault is that of the first check that fails.
    pub fn parse(bytes: MappedBytes<'a>) -> Result<ProgramFile<'a>, ElfFault>
        requires { length (all_bytes bytes) < 2 ^ 32 }
        // It is read exactly where no check fails; else the fault is that of the first that does.
        ensures exact { verdict result ≡ file_check (all_bytes bytes.entry) }
        ensures file { IfOk result (λ elf. program_bytes elf ≡ all_bytes bytes.entry) }
    {
        match bytes {
            MappedBytes::Whole(bytes) => {
                let elf = Elf::parse(bytes)?;
                Ok(ProgramFile::Whole(WholeFile { bytes, elf }))
            }
            MappedBytes::Parts(elf) => {
                elf.is_checked();
                Ok(ProgramFile::Parts(elf))
            }
        }
    }

    /// Returns the kind of the file.
    pub fn kind(&self) -> Kind
        ensures { result ≡ head.kind_of (program_bytes self.now) }
    {
        match self {
            ProgramFile::Whole(whole) => whole.elf.kind(),
            ProgramFile::Parts(elf) => elf.kind(),
        }
    }

    /// Returns the machine of the file.
    pub fn arch(&self) -> Arch
        ensures { result ≡ head.arch_of (program_bytes self.now) }
    {
        match self {
            ProgramFile::Whole(whole) => whole.elf.arch(),
            ProgramFile::Parts(elf) => elf.arch(),
        }
    }

    /// Checks the length and the place of the program headers, and returns how many there are.
    pub fn program_headers(&self) -> Result<u32, ElfFault>
        ensures exact { verdict result ≡ program_headers_check (program_bytes self.now) }
        ensures count { IfOk result (λ count. count ≡ segment_total (program_bytes self.now)) }
    {
        match self {
            ProgramFile::Whole(whole) => whole.elf.program_headers(),
            ProgramFile::Parts(elf) => {
                elf.is_checked();
                Ok(elf.header_count())
            }
        }
    }

    /// Returns the program header of a segment.
    pub fn segment(&self, i: u32) -> SegmentHeader
        requires { i < segment_total (program_bytes self.now) }
        ensures kind { result.kind ≡ head.p_type (program_bytes self.now) i }
        ensures vaddr { result.vaddr ≡ head.p_vaddr (program_bytes self.now) i }
        ensures place { result.place ≡ head.p_offset (program_bytes self.now) i }
    {
        match self {
            ProgramFile::Whole(whole) => {
                let segment = whole.elf.segment(i);
                SegmentHeader {
                    kind: segment.kind,
                    vaddr: segment.vaddr,
                    place: segment.place,
                }
            }
            ProgramFile::Parts(elf) => {
                let table = elf.table();
                SegmentHeader {
                    kind: header::p_type(&table, i),
                    vaddr: header::p_vaddr(&table, i),
                    place: header::p_offset(&table, i),
                }
            }
        }
    }

    /// Returns whether a segment is executable: it has the flag PF_X.
    pub fn is_executable(&self, i: u32) -> bool
        requires { i < segment_total (program_bytes self.now) }
        ensures { result ≡ segment_spec.is_executable (program_bytes self.now) i }
    {
        match self {
            ProgramFile::Whole(whole) => whole.elf.is_executable(i),
            ProgramFile::Parts(elf) => header::is_executable(&elf.table(), i),
        }
    }

    /// Returns how many bytes a segment has in the file by its header.
    pub fn file_size(&self, i: u32) -> u64
        requires { i < segment_total (program_bytes self.now) }
        ensures { result ≡ head.p_filesz (program_bytes self.now) i }
    {
        match self {
            ProgramFile::Whole(whole) => whole.elf.file_size(i),
            ProgramFile::Parts(elf) => header::p_filesz(&elf.table(), i),
        }
    }

    /// Returns how many bytes a segment has in memory.
    pub fn memory_size(&self, i: u32) -> u64
        requires { i < segment_total (program_bytes self.now) }
        ensures { result ≡ segment_spec.p_memsz (program_bytes self.now) i }
    {
        match self {
            ProgramFile::Whole(whole) => whole.elf.memory_size(i),
            ProgramFile::Parts(elf) => header::p_memsz(&elf.table(), i),
        }
    }

    /// Returns the iterator over the notes of a segment. A segment that is no PT_NOTE has none.
    pub fn notes(&self, i: u32) -> SegmentNotes<'a>
        requires { i < segment_total (program_bytes self.now) }
        ensures { notes_left result ≡ segment_notes (program_bytes self.now) i }
    {
        match self {
            ProgramFile::Whole(whole) => SegmentNotes::new(&whole.elf, i),
            ProgramFile::Parts(elf) => elf.notes(i),
        }
    }

    /// Checks that the file has room for each PT_NOTE segment and those before it together, by its program headers, which lie
    /// in the file.
    pub fn check_room(&self, count: u32) -> Result<(), ElfFault>
        requires count { count ≡ segment_total (program_bytes self.now) }
        requires lie { HeadersLie (program_bytes self.now) count }
        ensures { result ≡ each_below count (note_room_check (program_bytes self.now)) }
    {
        match self {
            ProgramFile::Whole(whole) => check_room(whole.bytes, &whole.elf, count),
            ProgramFile::Parts(elf) => {
                elf.is_checked();
                Ok(())
            }
        }
    }

    /// Returns the number of the first SFrame section that is loaded from the file, if there is one.
    ///
    /// # Errors
    ///
    /// `Compressed` with the place of its header if it is compressed.
    pub fn sframe(&self) -> Result<Option<u32>, ElfFault>
        ensures check { verdict result ≡ sframe_check (program_bytes self.now) (sframe_section (program_bytes self.now)) }
        ensures section { IfOk result (λ section. section ≡ sframe_section (program_bytes self.now)) }
    {
        match self {
            ProgramFile::Whole(whole) => sframe_of(&whole.elf),
            ProgramFile::Parts(elf) => Ok(elf.sframe()),
        }
    }

    /// Returns the address of the SFrame section.
    pub fn sframe_address(&self, i: u32) -> u64
        requires { sframe_section (program_bytes self.now) ≡ Some i }
        ensures { result ≡ (fields.section_fields (program_bytes self.now) i).sh_addr }
    {
        match self {
            ProgramFile::Whole(whole) => whole.elf.section(i).addr,
            ProgramFile::Parts(elf) => elf.sframe_address(i),
        }
    }

    /// Returns the bytes of the SFrame section.
    pub fn sframe_bytes(&self, i: u32) -> &'a [u8]
        requires { sframe_section (program_bytes self.now) ≡ Some i }
        ensures bytes { result.now ≡ fields.section_bytes (program_bytes self.now) i }
        ensures small { length result.now < 2 ^ 32 }
    {
        match self {
            ProgramFile::Whole(whole) => whole.elf.bytes(i),
            ProgramFile::Parts(elf) => elf.sframe_bytes(i),
        }
    }
}
