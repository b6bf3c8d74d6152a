//! Where an ELF file is loaded, and which build it is, for programs that walk stacks (ELF64 gABI, "Program Header", "Base
//! Address" and "Note Section").
//!
//! [`read_loading`] returns the pages of a file's loaded segments in the file's own addresses, the load address by an
//! executable mapping of the file, and the build identifier; or the first fault of the file. All are defined over the
//! fields of the program headers and the notes (`specs/Segments.antt`, `specs/BuildId.antt`, `specs/Loading.antt`).
//! `IsLoadedAt` of `specs/Segments.antt` says when a load address is right for a mapping of a segment, and [`load_by`]
//! returns the only one that is.
//!
//! The caller owes a file of fewer than 2^32 bytes, and a page size that isn't 0. Nothing allocates. The program headers are
//! scanned four times, and the notes once.
#![tactic(auto)]

mod build_id;
mod fault;
mod layout;
mod loading;
mod mapping;
mod segments;

pub use fault::LoadFault;
pub use layout::PT_LOAD;
pub use loading::{Loading, read_loading};
pub use mapping::Mapping;
pub use segments::{load_by, page_floor};
