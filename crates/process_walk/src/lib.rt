//! Walks of a thread through all modules of a process, and through signal frames (Linux core files, NT_FILE; GNU SFrame
//! specification, Version 2; DWARF 5, section 6.4.1).
//!
//! [`Process::new`] puts the entries of a core file's note on mapped files, the modules of the process and the signal
//! frames of each module in order, once for all threads. An address is looked up as [`sf_modules::Modules`] does.
//! [`Process::walk`] lists the frames of a thread: `process_walk` of `specs/`.
//!
//! Where a row holds, the step is that of `core_walk`: the return address is read first, then the frame pointer, and what
//! can't be read ends the walk. Where none holds, the walk steps over a signal frame: that of the first function that has
//! the address in the module there. What was interrupted is looked up at its own program counter. Without signal frames a
//! walk is that of the rows: [`walks_without_signal_frames_are_by_rows`] is a law.
//!
//! On AArch64 a signed return address needs the thread's mask. If no thread of the process has one, its processor signs
//! nothing, and a return address below 2^48 is taken as it is: `recover_unmasked` of `specs/Masks.antt`. Then a walk only goes
//! on where it would stop ([`walks_without_masks_go_on`]).
//!
//! A memory of which only parts were read serves too: a walk by it is the walk by the whole, unless it stopped at bytes
//! that the whole has ([`a_walk_by_a_part_is_the_walk`]).
//!
//! The caller owes nothing. [`Process::new`] takes the time of [`sf_modules::Modules::new`], and of a sort of each module's
//! signal frames. An address is then looked up by two searches by halves, and by two more where no row holds.
#![tactic(auto)]

mod laws;
mod masks;
mod process;
mod signals;
mod stepping;
mod walking;

pub use laws::{
    a_walk_by_a_part_is_the_walk, walks_without_masks_go_on,
    walks_without_signal_frames_are_by_rows,
};
pub use process::Process;
pub use stepping::ProcessFrame;
pub use walking::ProcessWalk;
