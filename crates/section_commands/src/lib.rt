//! The commands that read SFrame sections and core files, and what all commands share.
//!
//! A command is a file here and a file of specs/, named by the command: its words, its files, and what it makes of
//! their bytes. `read` finds what its words ask for and allocates nothing, `files` says which files it makes and reads,
//! and `make` returns what the loaded files come to, by a definition such as `SlimComes` of specs/Slim.antt.
//! [`Made`] is a section or none and a text; specs/Coming.antt defines what a run can come to.
#![tactic(auto)]

mod dump;
mod laws;
mod limits;
mod lookup;
mod made;
mod merge;
mod procwalk;
mod section;
mod slim;
mod upgrade;
mod walk;
mod walks;

pub use dump::Dump;
pub use laws::a_shown_section_comes_to_something;
pub use lookup::Lookup;
pub use made::{Made, Outcome, Unmade};
pub use merge::Merge;
pub use procwalk::{Procwalk, sums_limit, unread_module};
pub use section::undecoded;
pub use slim::Slim;
pub use upgrade::Upgrade;
pub use walk::Walk;
pub use walks::{mixed, same_machine, unread_core, view_walks};
