//! Common information and frame description entries of an exception frame section (LSB Core, "The
//! .eh_frame section"; DWARF 5, section 6.4.1), little-endian.
//!
//! [`Records::parse`] splits a section into records and checks each; the first fault from the left refuses
//! the section, with the place of the field in it. The records lend the section's bytes. [`Records::fdes`]
//! goes over the frame description entries, each with its common information entry, [`Records::fields`]
//! lists the pointer fields on which a relocation may lie, and [`Fde::span`] is the function's start and
//! size once its fields have values.
//!
//! The caller owes a section of fewer than 2^32 bytes. Only `parse` and `fields` allocate.
#![tactic(auto)]

mod augmentation;
mod cie;
mod entry;
mod fault;
mod fde;
mod iter;
mod last_cie;
mod laws;
mod layout;
mod letters;
mod places;
mod raw_record;
mod reader;
mod records;
mod span;

pub use cie::Cie;
pub use fault::RecordFault;
pub use fde::Fde;
pub use iter::FdeIter;
pub use laws::{entries_law, pointer_fields_stand};
pub use records::Records;
