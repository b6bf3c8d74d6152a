//! From inputs to one SFrame section, as a linker makes it.
//!
//! [`link`] gathers the functions of 1 to 512 inputs in one list by rising start (`sf_asm::gather_together`),
//! and makes the section of them (`sf_asm::link_gathered`). By its contract a section is the faithful one of all inputs,
//! and a refusal names the first fault.
//!
//! The caller owes that there are 1 to 512 inputs, each of fewer than 2^32 bytes. Memory is allocated for the
//! functions and the section; no input is copied.
#![tactic(auto)]

mod linking;

pub use linking::link;
