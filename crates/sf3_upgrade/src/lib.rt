//! A proved table for the readers of today's tools: an SFrame Version 2 section made into one of Version 3.
//!
//! [`upgrade`] takes a section that was checked, at its address, and writes one of Version 3 for another address. It has the
//! functions that hold an address and have a row, by rising start, row for row: the `Tight` section of these functions, by the
//! definition of `sf3_write`. At each address a look-up finds in it the row that the given section has there, and nothing where that
//! has none; the same is recovered (`FindAlike` of `specs/Answers.antt`). A function without rows isn't written: in Version 3 it
//! would say that its frames are outermost ones.
//!
//! Laws: upgrading has one result ([`upgrading_comes_to_one_result`]), and what has no fault has a section
//! ([`what_can_be_upgraded_has_a_section`]).
//!
//! The caller owes nothing. Memory is allocated for the heads of the functions, for the rows of all, and for the section.
#![tactic(auto)]

mod fault;
mod laws;
mod notice;
mod upgrading;

pub use fault::UpgradeFault;
pub use laws::{upgrading_comes_to_one_result, what_can_be_upgraded_has_a_section};
pub use upgrading::{Upgraded, upgrade};
