//! An executable or a shared object that was read by parts.

ghost use Rattle.elf_read.specs.Linked.{linked_file};
ghost use Rattle.elf_mapped.specs.Parts.{HasParts};
ghost use Rattle.std.proofs.Props.{props};

use crate::parts::ProgramParts;
use crate::table::Table;
use core_notes::SegmentNotes;
use elf_read::{Kind, LinkedElf};
use sf_bytes::Part;
use sf_model::Arch;

/// An executable or a shared object that passes every check of a whole file, with the parts of it that are read later. Its
/// program headers can be read, its PT_NOTE segments have room in it together, and its SFrame section, if it has one, is not
/// compressed.
#[derive(Drop)]
pub struct MappedElf {
    /// Its headers, and its section with call frame information.
    pub linked: LinkedElf,
    /// Its program headers, its notes and its SFrame section.
    pub(crate) parts: ProgramParts,
    ghost has: { HasParts (linked_file linked) parts } by { Prim.hlevel props },
}

impl MappedElf {
    ghost use Rattle.std.specs.Prelude.{◌≡◌, ◌<◌, ◌^◌, false, length, Ok, Some, IfSome};
    ghost use Rattle.core_notes.specs.TotalSize.{note_room_check};
    ghost use Rattle.core_notes.specs.SegmentNotes.{notes_left, segment_notes};
    ghost use Rattle.elf_read.specs.Header as head;
    ghost use Rattle.elf_read.specs.Sections as fields;
    ghost use Rattle.elf_read.specs.Checking.{each_below};
    ghost use Rattle.elf_read.specs.Checks.{program_headers_check};
    ghost use Rattle.elf_read.specs.Parsing.{file_check};
    ghost use Rattle.elf_read.specs.Sections.{segment_total};
    ghost use Rattle.elf_mapped.specs.Mapped.{mapped_file};
    ghost use Rattle.elf_mapped.specs.Parts.{table_file};
    ghost use Rattle.elf_mapped.specs.Sframe.{sframe_section};

    // Says that the file passes every check, and that its program headers and its notes do.
    pub(crate) fn is_checked(&self)
        ensures file { file_check (mapped_file self.now) ≡ Ok tt }
        ensures headers { program_headers_check (mapped_file self.now) ≡ Ok tt }
        ensures room { each_below (segment_total (mapped_file self.now)) (note_room_check (mapped_file self.now)) ≡ Ok tt }
        ensures small { length (mapped_file self.now) < 2 ^ 32 }
    {}

    // Returns how many program headers the file has.
    pub(crate) fn header_count(&self) -> u32
        ensures { result ≡ segment_total (mapped_file self.now) }
    {
        self.parts.count
    }

    // Lends the program headers.
    pub(crate) fn table(&self) -> Table<'_>
        ensures file { table_file result ≡ mapped_file self.now }
        ensures count { result.count ≡ segment_total (mapped_file self.now) }
    {
        Table {
            linked: &self.linked,
            bytes: &self.parts.table,
            count: self.parts.count,
        }
    }

    // Returns the iterator over the notes of a segment. A segment that is no PT_NOTE has none.
    pub(crate) fn notes(&self, i: u32) -> SegmentNotes<'_>
        requires { i < segment_total (mapped_file self.now) }
        ensures { notes_left result ≡ segment_notes (mapped_file self.now) i }
    {
        let note = &self.parts.notes[i as usize];
        SegmentNotes::of_part(Part::new(&note.bytes, note.place))
    }

    // Returns the number of the SFrame section, if the file has one.
    pub(crate) fn sframe(&self) -> Option<u32>
        ensures number { result ≡ sframe_section (mapped_file self.now) }
        ensures plain { IfSome result (λ i. fields.is_compressed (mapped_file self.now) i ≡ false) }
    {
        match &self.parts.sframe {
            Some(sframe) => Some(sframe.number),
            None => None,
        }
    }

    // Returns the address of the SFrame section.
    pub(crate) fn sframe_address(&self, i: u32) -> u64
        requires { sframe_section (mapped_file self.now) ≡ Some i }
        ensures { result ≡ (fields.section_fields (mapped_file self.now) i).sh_addr }
    {
        self.linked.section(i).addr
    }

    // Returns the bytes of the SFrame section.
    pub(crate) fn sframe_bytes(&self, i: u32) -> &[u8]
        requires { sframe_section (mapped_file self.now) ≡ Some i }
        ensures bytes { result.now ≡ fields.section_bytes (mapped_file self.now) i }
        ensures small { length result.now < 2 ^ 32 }
    {
        match &self.parts.sframe {
            Some(sframe) => &sframe.bytes,
            None => &[],
        }
    }

    /// Returns how many bytes the file has.
    pub fn len(&self) -> u64
        ensures { result ≡ length (mapped_file self.now) }
    {
        self.linked.len()
    }

    /// Returns the kind of the file.
    pub fn kind(&self) -> Kind
        ensures { result ≡ head.kind_of (mapped_file self.now) }
    {
        self.linked.kind()
    }

    /// Returns the machine of the file.
    pub fn arch(&self) -> Arch
        ensures { result ≡ head.arch_of (mapped_file self.now) }
    {
        self.linked.arch()
    }
}
