//! The shortest SFrame Version 2 section that recovers what a section recovers.
//!
//! [`slim`] takes a section that was checked, at its address, and writes one for another address. It keeps
//! the functions that have a row at some address, by rising start, each with a row where the content begins
//! or changes, and no other. A function of repeated blocks keeps its rows. Which rows these are is a filter
//! over all offsets of a function (`AreNeeded` of `specs/Slim.antt`); the code makes one pass over the rows.
//! The section returned is the `Tight` and `Narrow` one of these functions, by the definitions of
//! `sf_model`. The same is recovered at every address, and it can't be expressed in fewer bytes
//! (`RecoverTheSame`, `HasLeastRows` and `IsLeast` of `specs/Shortest.antt`).
//!
//! By the law [`slimming_comes_to_one_result`], `slim` returns Ok exactly where the definition (`Slims` of
//! `specs/Slimming.antt`) has no fault.
//!
//! The caller owes nothing. Memory is allocated for the functions and for the section.
#![tactic(auto)]

mod fault;
mod laws;
mod needed_rows;
mod notice;
mod overlap;
mod slimming;

pub use fault::SlimFault;
pub use laws::slimming_comes_to_one_result;
pub use slimming::{Slimmed, slim};
