//! What SFrame Version 2 can express of a function's rows, and why it can't.
//!
//! [`content_at`] gives the content of a row of the call frame instructions, from its columns, in the form of a frame row
//! entry, or the first reason why there is none. [`express_run`] gives the whole function as a section holds it, from the
//! rows that a runner makes one by one, or the first reason of the function or else of the row with the least offset.
//! Neighbouring rows with the same content are one row: [`is_same`] compares two contents, and [`is_repeated`] a content
//! with that of the row before. [`ranges_run`] gives the content from offset to offset, also of a function that is
//! omitted.
//!
//! [`rows_recover_alike`] and [`functions_recover_alike`] are laws: what SFrame expresses recovers the same of the
//! caller's frame as the call frame instructions.
//!
//! The caller of `express_run` and `ranges_run` owes a runner of the function's rows. Memory is allocated for what is
//! returned.
//!
//! [`content`] and [`express`] give the same of a row, and of a list of rows as `cfa_machine::rows` gives it.
#![tactic(auto)]

mod content_ranges;
mod function;
mod list_forms;
mod recovery;
mod row;
mod rules;
mod run;

pub use content_ranges::{ContentRange, range_at, ranges_of_rows, ranges_run};
pub use function::{is_repeated, is_same};
pub use list_forms::{ExpressFault, content, express};
pub use recovery::{functions_recover_alike, rows_recover_alike};
pub use row::content_at;
pub use run::express_run;
