//! The parts of a file that a command needs, read in place of the whole.
//!
//! [`load_parts`] reads of an executable or a shared object its header, its section headers, their names and its one
//! section with call frame information. If these are enough for every check of the whole file, and it passes them, the
//! result is an `elf_read::LinkedElf`. Else, and whenever something is in doubt, it reads the whole file, so that no
//! fault is about parts.
//!
//! The parts of a [`FileParts`] lie in the file and don't overlap (`specs/Image.antt`), so there are bytes of which they
//! are parts, also if what the file holds isn't known. Which parts are read is a plan of which nothing is stated.
//! Clauses are about all the file's bytes (`specs/Read.antt`). A crate that needs other parts of a file calls
//! [`read_linked_parts`] and [`read_window`].
//!
//! The caller owes that the name may be opened, and that the file doesn't change between two reads. Each part is
//! read once, in reads of at most 64 KiB.
#![tactic(auto)]

mod file_parts;
mod file_read;
mod in_order;
mod known;
mod loading;
mod plan;

pub use file_parts::FileParts;
pub use file_read::FileRead;
pub use known::whole_of;
pub use loading::{MOST_BYTES, bytes_of, load_parts, read_linked_parts, read_window};
pub use plan::Window;
