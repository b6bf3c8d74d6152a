//! The modules of a process: the executables and shared objects that it had mapped, each with its SFrame section, and
//! walks by them (Linux core files, NT_FILE; ELF64 gABI, "Program Header").
//!
//! [`entries`] reads the note on mapped files of a core file, which [`Process::new`] puts in order. [`read_module`] finds a
//! file among its entries by its name (`specs/Match.antt`), by where its segments were (`specs/Fit.antt`) and by its build
//! identifier (`specs/Build.antt`), and reads its SFrame section at the address at which it was. [`mapped_file`] finds a
//! file that needs no such section (`specs/Mapped.antt`). [`Modules::new`] puts entries and
//! modules in order, once for all threads: [`Modules::number_at`] finds the module at an address, and [`Modules::walk`]
//! lists a thread's frames. [`is_mapped_name`] says whether an entry has the last part of a word for a file.
//!
//! The core file may have been read by parts ([`core_parts::CoreInput`]); its note on mapped files is always there. Where a
//! build identifier has to be compared with a part of the memory that was not read, the file is refused as
//! [`ModuleFault::Unread`], with an address of that part.
//!
//! Each file may have been read by parts ([`elf_mapped::MappedBytes`]). The clauses are about all its bytes.
//!
//! The meaning is a list of entries and a list of modules: at an address the first entry that holds it says which file is
//! there, and the first module of that name answers by its own table (`found_in` of `specs/Found.antt`). A walk is
//! `look_up_walk` of `sf_model` over that. [`modules_answer_as_their_union`] is a law: where each address of a function
//! leads to the function's own module, it is the answer of one table that has the functions of all.
//!
//! The caller owes files of fewer than 2^32 bytes, and a page size that isn't 0, as `entries` returns. [`Process::new`] puts
//! a core file and its entries in order once for all files, in the time of a sort of them. `read_module` and `mapped_file`
//! allocate nothing. They go over the entries whose names have the word's last part, three times. For each of a nearest
//! name that has the first loaded segment's place they try the segment at which the file didn't fit the entry before, and,
//! where it fits there, go over the file's program headers, with two searches by halves for each loaded one.
//! [`read_module_once`] does this once for a file that is given again, if the file was read whole. `Modules::new` takes the
//! time of a sort of the entries, and of the functions of each section that doesn't say to be sorted; an address is then
//! found by two searches by halves.
#![tactic(auto)]

mod build;
mod by_name;
mod candidates;
mod entry;
mod fault;
mod file;
mod fit;
mod last_parts;
mod laws;
mod layout;
mod mapped;
mod modules;
mod name;
mod nearest;
mod note;
mod notice;
mod place;
mod process;
mod read_once;
mod spans;
mod stretch;
mod stretches;

pub use entry::Entry;
pub use fault::ModuleFault;
pub use laws::modules_answer_as_their_union;
pub use mapped::{Module, read_module};
pub use modules::Modules;
pub use nearest::is_mapped_name;
pub use note::entries;
pub use place::{MappedFile, mapped_file};
pub use process::Process;
pub use read_once::{ReadFile, read_module_once};
