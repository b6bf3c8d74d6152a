//! The tables of the files that a process had mapped, and walks through all of them (Linux core files, NT_FILE; LSB Core,
//! "The .eh_frame section"; GNU SFrame specification, Version 2; DWARF 5, section 6.4).
//!
//! [`mapped_table`] finds where the process had a file and links it there: [`MappedTable`] has its section and its signal
//! frames. [`sections_of`] lends the sections of all tables, and [`walks_text`] puts them in order once, walks all threads
//! through them, and prints the frames with their files. A core file that was read by parts may lack bytes that a walk
//! needs: then [`MappedWalks::Unread`] has their addresses.
//!
//! The meaning knows no section: `mapped_walk` of `specs/Modules.antt` is the walk by what DWARF recovers in the file that
//! the process had at each address, and over signal frames.
//!
//! The caller owes files of fewer than 2^32 bytes. A file is read twice, for its place and for its functions, and its
//! functions, section and signal frames are allocated. The time of walks is that of `process_walk`.
#![tactic(auto)]

mod name;
mod table;
mod views;
mod walks;

pub use table::{MappedTable, TableFault, mapped_table};
pub use views::sections_of;
pub use walks::{MappedWalks, walks_text};
