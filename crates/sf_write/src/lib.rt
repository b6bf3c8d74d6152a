//! The writer of SFrame Version 2 sections.
//!
//! `write` lays a section out in one way: the header, the function entries, and then the rows of all
//! functions in the same order, without sharing. Starts count from their own field (flags 0x1 and 0x4),
//! row starts and offsets are as narrow as they can be, padding is zero. It is the one list of bytes that
//! is `Tight` and `Narrow`, by the definitions of `sf_model`, for the table of the functions
//! (`table_of`); `section_bytes` of `specs/Section.antt` spells it.
//!
//! Where functions come one by one, [`StoredRows`] keeps the rows of all in one list, as the bytes that the
//! section will hold. A [`StoredFunction`] is one of the functions, by its head and its range. [`write_stored`]
//! makes the same section from stored functions: by `stored_in` of `specs/Stored.antt` each is its function, as
//! long as it `IsStored`, which no later `push` changes.
//!
//! A law: functions that one section can hold, whose numbers fit and whose starts are in reach, have such a
//! section ([`functions_that_fit_have_a_section`]).
//!
//! The caller owes functions that one section can hold, by rising start, with rows that the machine has
//! (`AreWritable` of `sf_model`). A start that lies too far from its field is refused. Rows are spelled in one
//! pass; `write_stored` allocates once, for the section, and `write` also for the bytes of the rows and a
//! list of the functions.
#![tactic(auto)]

mod entry;
mod fault;
mod header;
mod laws;
mod layout;
mod list;
mod number;
mod packed;
mod reach;
mod row;
mod section;
mod stored;
mod totals;

pub use fault::WriteFault;
pub use laws::functions_that_fit_have_a_section;
pub use list::StoredList;
pub use number::push_word;
pub use packed::{PackedFunction, PackedRows};
pub use section::{write, write_stored};
pub use stored::{StoredFunction, StoredRows};
pub use totals::{Totals, totals_of};
