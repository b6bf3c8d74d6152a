//! ELF64 files of both machines and all four kinds (ELF64 gABI), little-endian, as views over lent bytes.
//!
//! [`Elf::parse`] checks a file once, in a fixed order of checks, and the first that fails is the fault,
//! with its place. What it returns lends the file's bytes: sections, segments, symbols, relocations and
//! groups are read from their places when they are asked for.
//!
//! [`linked_of`] checks as much of an executable or a shared object by its header, its section headers, their names and
//! its one section with call frame information. It returns a [`LinkedElf`], which keeps what is read of them, only where
//! the whole file has no fault. An [`ElfInput`] is a file to link in either form.
//!
//! The meaning of a file is its list of bytes. Each header is a record of the standard's fields, and a function
//! of it (`specs/Header.antt`, `specs/Sections.antt`). What is asked of a file is a table of conditions, each with
//! its fault (`specs/Parsing.antt`): `parse` returns Ok exactly where none is broken, and else the fault of the
//! first that is. The accessors give the fields.
//!
//! The caller owes a file of fewer than 2^32 bytes. Nothing allocates. Each check goes once over the
//! headers, and those of relocations and group members once over the ones that are used, which have room in the
//! file together ([`room_law`]). A text in a string table that doesn't end with a zero byte is looked through to the end of
//! its piece of the file, of 65,536, and then the bits of the pieces are. They take 8 kB of stack.
#![tactic(auto)]

mod check;
mod compressed;
mod entries;
mod entry;
mod fault;
mod first_zero;
mod header;
mod headers;
mod identity;
mod input;
mod kind;
mod laws;
pub mod layout;
mod linked;
mod linked_elf;
mod linked_parts;
mod masks;
mod names;
mod notice;
mod number;
mod parsing;
mod program_header;
mod reading;
mod section_header;
mod sections;
mod segments;
mod text;
mod total_size;
mod used_checks;
mod view;
mod zero_index;

pub use entry::{GroupHead, Rela, Section, Segment, Symbol};
pub use fault::ElfFault;
pub use first_zero::bytes_before_zero;
pub use input::ElfInput;
pub use kind::Kind;
pub use laws::{compressed_law, room_law};
pub use linked::linked_of;
pub use linked_elf::LinkedElf;
pub use linked_parts::LinkedParts;
pub use number::{u16_at, u32_at, u64_at};
pub use text::Text;
pub use view::Elf;
