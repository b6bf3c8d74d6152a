//! Lists of functions by rising start: one order, one check for shared addresses, and the limits of a section.
//!
//! [`sort_by_start`] brings functions into the order of their starts; those of one start stay in their order
//! (`IsInOrder` of `specs/Order.antt`). [`shares_address`] tests two neighbours, and [`first_overlap`] finds the first
//! two that share an address (`overlap_by` and `first_overlap` of `specs/Neighbours.antt`). [`exceeded`] returns which
//! limit of one section numbers of functions and rows exceed (`exceeded` of `specs/Limits.antt`), and [`count_rows`]
//! counts the rows of stored functions. [`FunctionsWithRows`] are those functions of a list that have rows.
//! Linking, merging, slimming and verifying use these calls.
//!
//! The caller owes [`count_rows`] functions that are within the limits, and the others nothing. Sorting may allocate;
//! it takes one pass if the functions are in order already. The others allocate nothing.
#![tactic(auto)]

mod counts;
mod limits;
mod neighbours;
mod order;
mod with_rows;

pub use counts::count_rows;
pub use limits::{Limit, exceeded};
pub use neighbours::{HasSize, first_overlap, shares_address};
pub use order::{HasStart, sort_by_start};
pub use with_rows::{FunctionsWithRows, MayHaveRows};
