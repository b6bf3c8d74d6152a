//! The rows of a function from its call frame instructions (DWARF 5, section 6.4.3).
//!
//! [`Runner`] runs the instructions of the common information entry, then those of the frame description entry, and gives
//! a row for each offset below the function's size at which the state may change, one by one. It goes over the
//! instructions once and keeps five columns: the canonical frame address (CFA), the stack pointer, the frame pointer,
//! the return address and, on AArch64, the sign state. It can be started from the [`initial_row`] of a common
//! information entry, so that its instructions need not be run for each of its functions.
//!
//! Offsets are plain integers: a product of a 64-bit operand and the data alignment factor fits an
//! `i128`. Nothing is allocated.
//!
//! [`rows`] lists the same rows, for callers that want all of them at once. Only that list is allocated.
#![tactic(auto)]

mod columns;
mod effect;
mod fault;
mod initial;
mod list_forms;
mod machine;
mod registers;
mod row;
mod rule;
mod runner;

pub use columns::Columns;
pub use fault::MachineFault;
pub use initial::initial_row;
pub use list_forms::rows;
pub use registers::{frame_pointer_of, return_address_of, stack_pointer_of};
pub use row::DwRow;
pub use rule::{CfaRule, Rule};
pub use runner::Runner;
