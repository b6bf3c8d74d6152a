//! Look-up in SFrame Version 2 sections.
//!
//! [`find`] returns the function and the row that hold at an address: `found_at` of `sf_model`, over the
//! functions of the view's table. [`recover_at`] returns what that row recovers of the caller's frame, by the
//! present registers and a memory: `recover_by_rows` of `sf_model`. Both return None exactly where no row
//! holds. [`last_start`] returns the greatest number whose address is not above this one, over any
//! [`Starts`]; it learns an address by a counted read alone, and of n addresses it reads at most k, where
//! 2^k <= 2n + 1: as many as n has binary digits. [`Steps`] is the count, as contracts see it; it takes no bytes.
//!
//! [`Indexed`] is a section that was put in order, for many look-ups: [`Indexed::find`] finds what `find` does.
//! [`Indexed::find_counted`] bounds the steps: at most as many as the number of functions' starts and ends has
//! binary digits, then as many as the number of rows has, and 64. A step is a start or an end that is looked at, a
//! marked row that is looked at, or a row that is read.
//! [`Spans`] is the order itself, of any spans of addresses: at an address the first span of the list decides,
//! whether spans overlap or not. [`Spans::first_counted`] counts its steps.
//!
//! The caller owes `last_start` that no address is below the one before it ([`starts_never_fall`] is that law for a
//! sorted section), and nothing to the others. In a sorted section `find` halves the functions; otherwise it goes
//! over them. The rows of the function are then read from the first up to the one that holds. [`Indexed::new`] takes
//! the time of a sort of the functions where they are not sorted, and reads the rows of functions with more than 64;
//! `Indexed::find` then halves the functions either way, halves the marks, which are each 64th row of a function,
//! and reads the rows from there on, 65 at most. `Indexed::new` and `Spans::new` alone allocate: less than 70 bytes
//! for each function that is not in order, and 56 for each 64 rows of a function.
#![tactic(auto)]

mod answers;
mod function;
mod indexed;
mod lookup;
mod marks;
mod points;
mod recover;
mod row;
mod search;
mod sound;
mod span;
mod spans;
mod starts;
mod steps;
mod sweep;

pub use indexed::Indexed;
pub use lookup::{Found, find};
pub use recover::recover_at;
pub use search::last_start;
pub use sound::starts_never_fall;
pub use span::Span;
pub use spans::Spans;
pub use starts::Starts;
pub use steps::Steps;
