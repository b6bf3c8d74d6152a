//! Pointer encodings of exception frames (LSB Core, "DWARF Exception Header Encoding").
//!
//! [`width`] and [`usable`] give how many bytes a pointer of an encoding has, [`value`] what it points to, [`size`] a
//! size in its format, and [`skip`] passes a pointer whose value isn't used. The definitions are those of
//! `specs/Pointer.antt`.
//!
//! The caller of `value` owes an encoding that is usable, and of `value` and `size` bits that fit its width. Nothing
//! allocates.
#![tactic(auto)]

mod encoding;
mod fault;
pub mod layout;
mod passing;

pub use encoding::{size, usable, value, width};
pub use fault::PointerFault;
pub use passing::skip;
