//! Files and sinks in place of the machine's, for tests and for proofs about callers.
//!
//! - [`MemFiles`] and [`MemSink`] are in memory. Their contents are known; a call moves few bytes, and the
//!   calls that are listed fail.
//! - [`SureFiles`] and [`SureSink`] never fail and allocate nothing; they keep only the number of bytes
//!   written.
//!
//! The caller owes what the traits `Files` and `Sink` of `sf_base` require, and that a call may move at least
//! one byte. Only `MemFiles` and `MemSink` allocate. A name is found by one pass over the names.
#![tactic(auto)]

mod calls;
mod copying;
mod lookup;
mod mem_files;
mod mem_sink;
mod reading;
mod sure_files;
mod sure_sink;

pub use mem_files::MemFiles;
pub use mem_sink::MemSink;
pub use sure_files::SureFiles;
pub use sure_sink::SureSink;
