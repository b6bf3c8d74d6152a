//! A made object file, to try a linker without a file of one's own.
//!
//! [`object`] returns an ELF64 relocatable file for AMD64 with call frame information of as many functions
//! as are asked for, each of 32 bytes, of four kinds that a fixed generator picks. `object_bytes` of
//! `specs/Object.antt` gives the file by its parts: the header, six sections and their headers. Memory is
//! allocated once, and each byte is written once.
#![tactic(auto)]

mod file;
mod frames;
mod headers;
mod kinds;
mod layout;
mod number;
mod places;
mod sections;

pub use file::object;
