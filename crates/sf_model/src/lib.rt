//! The public types that the crates share: machines, kinds of input, rows and functions of an SFrame
//! section, facts of a frame description entry, why a function is omitted, what a walk lists, and how a
//! fault is shown; and what a row recovers of the caller's frame.
//!
//! `specs/` defines sections, look-up, recovery and walks: `Section` says when bytes at an address have the
//! content of a `Table`, `Tight` and `Narrow` which one layout has no gaps and the least widths, `found_at`
//! which row holds at an address, `recovery` what it recovers, `section_walk` a walk by it. `recover` is
//! `recovery` for any `Memory`; its caller owes that the content fits the machine. The laws over the
//! definitions are functions that do nothing: `equal_recoveries_mean_equal_contents`,
//! `section_has_one_table` and `tight_section_is_the_only_one`.
//!
//! `Rows` is the one type with a private field: contracts see it as the list of its rows. Only
//! `Rows::with_capacity` and `Rows::push` allocate.
#![tactic(auto)]

mod content;
mod facts;
mod form;
mod function;
mod laws;
mod limits;
mod machine;
mod memory;
mod notice;
mod omission;
mod recovery;
mod rows;
mod verdict;
mod walk;

pub use content::{Content, Ra, fits};
pub use facts::FdeFacts;
pub use form::Form;
pub use function::{Func, FuncHead, Shape};
pub use laws::{
    equal_recoveries_mean_equal_contents, section_has_one_table, tight_section_is_the_only_one,
};
pub use limits::{MOST_FUNCTIONS, MOST_ROWS};
pub use machine::{Arch, Base, Key};
pub use memory::Memory;
pub use notice::{FaultName, FaultValues, Group, Notice, Shown, fault_values};
pub use omission::{Omission, Omitted, Origin, Reason, Span};
pub use recovery::{Recovered, Regs, moved, recover};
pub use rows::{Row, Rows};
pub use verdict::Verdict;
pub use walk::{Frame, Stop, Walk};
