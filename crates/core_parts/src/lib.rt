//! Core files of which parts are read (ELF64 gABI, "Program Header"; Linux core files).
//!
//! [`load_core`] reads of a core file its file header, its program headers and its notes, if it is clear that these are
//! enough for every check of the whole file and for its threads, and of its memory blocks of 65,536 bytes: from the
//! threads' stack pointers on, where mapped files begin, and at addresses that are given; else the whole file. Each byte is
//! read once, and blocks that touch in the file are one part.
//!
//! [`CoreInput::parse`] makes one core file of both, for whoever walks: its threads, its note on mapped files, its memory.
//! [`walk_input`] walks a thread by what was read, or says at which address it needs more. [`InputMap`] finds what is at an
//! address, or says that it was not read.
//!
//! [`core_of`] makes the checks by parts that are given. [`PartMemory`] is the memory as far as parts of the file were
//! read: a [`sf_model::Memory`] that gives none for what wasn't. [`PartialMemory::holds`] says whether the whole memory has
//! the bytes that a read didn't give.
//!
//! Clauses about a [`CoreParts`] are about each list of bytes of which these are parts (`specs/Whole.antt`), those about a
//! [`PartialCore`] about one of them: what the file holds, if that is known (`specs/Partial.antt`). The parts of a
//! [`sf_parts::FileParts`] don't overlap, so there is one.
//!
//! The caller owes that the file doesn't change between two reads. A file has up to 2^64 bytes. A read of
//! memory finds the segment of its address by binary search, and then the part of its place.
#![tactic(auto)]

mod core_file;
mod core_head;
mod header;
mod input;
mod input_map;
mod input_memory;
mod laws;
mod loading;
mod memory;
mod partial_core;
mod partial_memory;
mod plan;
mod reading;
mod segment;
mod table;
mod unread;
mod walking;

pub use core_file::{CoreParts, core_of};
pub use core_head::CoreHead;
pub use input::CoreInput;
pub use input_map::{InputMap, PartialMap};
pub use input_memory::InputMemory;
pub use laws::memory_of_parts_is_a_part;
pub use loading::{CoreRead, Wanted, load_core};
pub use memory::{Block, PartMemory};
pub use partial_core::PartialCore;
pub use partial_memory::PartialMemory;
pub use segment::SegmentHead;
pub use unread::Unread;
pub use walking::{Walked, walk_input};
