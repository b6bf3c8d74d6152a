//! The functions of inputs: in order, for one machine, within the limits, without overlaps; and the section of one input.
//!
//! [`gather_together`] reads the call frame sections of 1 to 512 inputs (`frame_functions::read_section`) and returns the
//! functions that SFrame Version 2 can express, by rising start, with one list of their rows, and the omitted functions
//! with their reasons. [`gather_with_descriptions`] also lends the omitted functions as their records describe them. An input
//! is a bare section, an ELF file, or one that was checked by its parts ([`InputBytes`]), of fewer than 2^32 bytes.
//! [`link_gathered`] makes the section of such functions. All allocate; no section is copied.
//!
//! [`kept_functions_recover_alike`], [`walks_are_alike`], [`linking_comes_to_one_result`],
//! [`accepted_inputs_are_linked`] and [`inputs_that_can_be_gathered_are`] are laws: the kept functions recover
//! what DWARF recovers, walks over them are walks by DWARF, what linking comes to is determined by the inputs,
//! it is a section exactly if they can be linked, and gathering them comes to functions exactly if they can be
//! gathered.
//!
//! [`gather`], [`assemble`] and [`row_at`] give the same in other forms: a list of functions for each input, with the
//! addresses of all; the section of one input; and the content of the row at an address, in any of the functions.
#![tactic(auto)]

mod elf;
mod fault;
mod gathering;
mod input;
mod inputs;
mod laws;
mod linked;
mod list_forms;
mod notice;
mod overlaps;
mod reading;

pub use fault::{GatherFault, LinkFault};
pub use gathering::{gather_together, gather_with_descriptions};
pub use input::{Input, InputBytes};
pub use laws::{
    accepted_inputs_are_linked, functions_are_described, inputs_that_can_be_gathered_are,
    kept_functions_recover_alike, linking_comes_to_one_result, relocations_of_sections_are_applied,
    walks_are_alike,
};
pub use linked::{Linked, link_gathered};
pub use list_forms::{Gathered, assemble, gather, row_at};
