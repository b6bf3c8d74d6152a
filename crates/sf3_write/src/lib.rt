//! The writer of SFrame Version 3 sections, for functions that Version 2 can describe.
//!
//! [`write_stored`] lays a section out in one way: the header, the index of function descriptor entries, and then the attributes
//! and the rows of each function in the same order, without sharing. It is the `Tight` one of `specs/Tight.antt` for the table of
//! the functions (`table_of`); by the law [`tight_section_is_the_only_one`] there is no other, and `section_bytes` of
//! `specs/Section.antt` spells it. The rows are copied range by range from `StoredRows` of `sf_write`, whose bytes are those of
//! both versions.
//!
//! The caller owes functions that one section can hold, by rising start, with rows that the machine has (`AreWritable` of
//! `sf_model`). A function with more than 65,535 rows is refused. No section is too long, and no start out of reach. Memory is
//! allocated once.
#![tactic(auto)]

mod attributes;
mod entry;
mod fault;
mod header;
mod laws;
mod layout;
mod rows;
mod section;

pub use fault::WriteFault;
pub use laws::tight_section_is_the_only_one;
pub use section::write_stored;
