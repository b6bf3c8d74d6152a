//! The outside world as a program here sees it: files, sinks, and the words of its command line.
//!
//! - [`Files`] and [`Sink`] are the outside as traits. Their clauses say what each call does to the contents
//!   of files, if those are known, and that a call fails only if the object's own count of faults rose.
//! - [`load`] reads a whole file up to a limit, [`load_rest`] what is left of the open one, and [`read_part`] a part of
//!   it; [`put_all`] and [`put_file`] write all of a text, or a prefix
//!   of it if a write failed.
//! - [`hex_word`] and [`dec_word`] read the numbers of a command line.
//! - [`HostFiles`] and [`HostSink`] are the machine's; [`count_fault`] counts a fault of an object like them.
//!
//! The caller owes that a name may be opened or created before it is, that a file is opened before it is read
//! and created before it is written, and that no buffer or piece is empty. Only the three that read a file allocate. Each
//! costs one pass over the bytes that it reads, in reads of at most 64 KiB.
//!
//! What the machine does with a file or a stream is outside what is proved: the contents of `HostFiles` and
//! `HostSink` are not known.
#![tactic(auto)]

mod fault;
mod files;
mod host_files;
mod host_sink;
mod loading;
mod putting;
mod sink;
mod word;

pub use fault::{Failed, NoMemory, count_fault};
pub use files::Files;
pub use host_files::HostFiles;
pub use host_sink::HostSink;
pub use loading::{LoadFault, load, load_rest, read_part};
pub use putting::{put_all, put_file};
pub use sink::Sink;
pub use word::{dec_word, hex_word};
