//! Relocations of call frame information (ELF64 gABI, "Relocation"; System V psABI for AMD64; ELF for the
//! Arm 64-bit Architecture).
//!
//! [`Relocs::new`] reads the relocations of one section of an object whose sections are placed, in order of
//! section and entry, and keeps what they write by place. It lends its values to those who read the
//! section's pointer fields: the section's bytes are not copied.
//!
//! The table of types is in `specs/Table.antt`, what a symbol names in `specs/Target.antt`, the
//! relocations in order and their first fault in `specs/Reading.antt`, their order by place in
//! `specs/Order.antt`, and what fields hold in `specs/Fields.antt`. Only `Relocs::new` allocates. Time
//! grows with the logarithm of the number of the file's sections, and with the relocations times the logarithm
//! of their number.
#![tactic(auto)]

mod entry;
mod fault;
mod fields;
mod fix;
mod laws;
mod layout;
mod order;
mod reading;
mod relocs;
mod table;
mod target;

pub use fault::RelocFault;
pub use laws::{fields_hold_what_is_patched, relocations_are_applied};
pub use relocs::Relocs;
