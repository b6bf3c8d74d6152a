//! Core files of both machines, as views over lent bytes (ELF64 gABI, "Note Section" and "Program Header"; Linux core
//! files).
//!
//! [`Core::parse`] checks a file once: the ELF file, then that its PT_NOTE segments have room in the file together, then
//! each note of them in order, up to the status of thread 4097, then how many threads there are. The first check that
//! fails is the fault, with its place. [`Core::threads_iter`] yields the threads
//! in the order of their notes, each with its registers and its mask of return addresses. [`Core::thread`] returns one by
//! its number. As a [`sf_model::Memory`] a core is its PT_LOAD segments. [`Core::file_note`] returns the descriptor of the
//! note on mapped files.
//!
//! The meaning of a file is its list of bytes: `AreNotes` says when notes are the bytes of its segments, `threads_in`
//! which threads the notes have, `file_regions` what its memory is.
//!
//! The caller owes a file of fewer than 2^32 bytes. [`CoreMemory::new`] and [`MemoryMap::new`] alone allocate. Walking all
//! threads reads each note twice; `thread` reads the notes up to that thread. A read of a core's memory finds its segment by
//! halves if the segments' addresses rise, as kernels write them. If they don't, it scans the segments. [`CoreMemory`] is
//! this memory for many reads: it puts segments that don't rise in order once, and then finds each by halves.
//! [`MemoryMap`] also finds what is mapped at an address. If the segments don't rise, and a segment holds only a part of
//! some bytes, they are looked for in all segments.
#![tactic(auto)]

mod core_memory;
mod fault;
mod file_note;
mod iter;
mod laws;
mod layout;
mod memory;
mod memory_bytes;
mod memory_map;
mod note;
mod notes;
mod notice;
mod parsing;
mod segment;
mod segment_notes;
mod status;
mod total_size;
mod view;

pub use core_memory::CoreMemory;
pub use fault::CoreFault;
pub use file_note::file_note_of_segment;
pub use iter::ThreadIter;
pub use laws::core_is_its_notes;
pub use memory_map::MemoryMap;
pub use note::Note;
pub use parsing::threads_of_segment;
pub use segment_notes::SegmentNotes;
pub use status::Thread;
pub use total_size::check_room;
pub use view::Core;
