//! Several SFrame Version 2 sections made into one, as a linker does.
//!
//! [`merge`] takes sections that were checked, at their addresses, and writes one section for another
//! address: each function that holds an address and has a row is taken over row for row, by rising start.
//! The result of merging is one definition (`Merges` of `specs/Merging.antt`): these functions, or the first
//! fault. The section returned is the `Tight` and `Narrow` one, by the definitions of `sf_model`, of the tables'
//! union (`IsUnion`). At each address a look-up finds in it the row of the table that has one there (`FindAlike`).
//! [`in_order`] returns the functions of one section by start, and leaves their rows in the section. [`shared_entry`] finds
//! the entry of the first function that shares an address with the one before it, with rows or without.
//!
//! Laws: merging has one result ([`merging_comes_to_one_result`], [`merging_comes_to_a_result`]), so `merge`
//! returns Ok exactly where the definition has no fault; sections that are merged in parts, on several machines,
//! give the bytes of all merged at once ([`merging_in_parts`]).
//!
//! The caller owes `merge` from 1 to 512 sections, and `join` lists that rise, of functions with bytes that
//! share no address. Both allocate. `merge` allocates nothing for each function: it keeps a head of each in
//! one list, and stores the rows of all in another, as the bytes of the section that is made. All functions are
//! sorted once: n functions cost about n log n steps, and one pass where they are in order, as those of one
//! section by rising start are.
//!
//! [`join`] makes lists of functions into one list by rising start.
#![tactic(auto)]

mod checking;
mod fault;
mod functions;
mod head;
mod in_section;
mod laws;
mod list_forms;
mod located;
mod merging;
mod notice;
mod overlap;
mod reading;

pub use checking::{check_limits, check_machines, check_overlap};
pub use fault::MergeFault;
pub use functions::LocatedFunctions;
pub use head::LocatedFunction;
pub use in_section::{SectionEntry, SectionFunctions};
pub use laws::{merging_comes_to_a_result, merging_comes_to_one_result, merging_in_parts};
pub use list_forms::join;
pub use located::Located;
pub use merging::{MergedSection, merge, written};
pub use overlap::shared_entry;
pub use reading::{all_in_order, in_order};
