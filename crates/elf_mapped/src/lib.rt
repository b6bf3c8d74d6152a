//! The parts of an executable or a shared object that a process had mapped, read in place of the whole file (ELF64 gABI,
//! "Program Header", "Note Section" and "Sections").
//!
//! [`load_mapped`] reads of such a file what a walk of the process needs: its header, its section headers, their names, the one
//! section with call frame information, its program headers, its PT_NOTE segments and its SFrame section. If these are enough
//! for every check of the whole file, and it passes them, the result is a [`MappedElf`]. Else, and whenever something is in
//! doubt, it reads the whole file, so that no fault is about parts.
//!
//! A [`ProgramFile`] is a file in either form, with what a walk asks of it. Its clauses are about all the file's bytes
//! (`program_bytes` of `specs/Program.antt`), by the definitions that are also those of `elf_read::Elf` and
//! `core_notes::SegmentNotes`. Which section is the SFrame section is defined in `specs/Sframe.antt`. Which parts are read is a
//! plan of which nothing is stated.
//!
//! The caller owes that the name may be opened, that the file doesn't change between two reads, and to [`ProgramFile::parse`]
//! a file of fewer than 2^32 bytes. Each part is read once, in reads of at most 64 KiB. A file with more than 16 PT_NOTE
//! segments is read whole.
#![tactic(auto)]

mod building;
mod headers;
mod layout;
mod loading;
mod mapped_elf;
mod mapped_read;
mod names;
mod notes;
mod part;
mod parts;
mod plan;
mod program;
mod program_header;
mod sframe;
mod table;
mod whole;

pub use building::mapped_of;
pub use loading::load_mapped;
pub use mapped_elf::MappedElf;
pub use mapped_read::MappedRead;
pub use program::{MappedBytes, ProgramFile, SegmentHeader, WholeFile};
