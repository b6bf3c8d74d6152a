//! The table of one file of a process: what SFrame expresses of its functions at the address at which the file was mapped,
//! and the signal frames of the others (LSB Core, "The .eh_frame section"; GNU SFrame specification, Version 2).
//!
//! [`module_table`] links one ELF file as `sf_plt::link_plt_with_descriptions` does, and lists the signal frames of the functions
//! that SFrame can't express, by rising start. `IsModuleTable` of `specs/Table.antt` says what it returns: the section of
//! `IsPltLinked`, and a signal frame of `IsSignalFrame` for each omitted function that has one, and for no other. A file
//! without call frame information has a section without functions, and no signal frames. There is one such list: `one_signals`
//! and `some_signals` of `proofs/OneList.antt`. [`numbered`] gives a file's fault its number among the items of a run.
//!
//! The caller owes a file of fewer than 2^32 bytes. The file is read once, and the instructions of a long common
//! information entry are run once for all its functions; the functions, the section and the list are allocated.
#![tactic(auto)]

mod fault;
mod rules;
mod signals;
mod table;

pub use fault::numbered;
pub use table::{ModuleTable, module_table};
