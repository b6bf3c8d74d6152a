//! The strict decoder of SFrame Version 2 sections, of both machines, with errata 1.
//!
//! [`View::parse`] checks the bytes of a section at an address once, in a fixed order of checks: the
//! header, the number of rows, and then each function descriptor entry with its rows. The first check
//! that fails is the fault, with its place. The view that it returns lends the bytes: functions and rows
//! are read from their places when they are asked for.
//!
//! The checks are one function of the bytes (`section_check` of `specs/Decoding.antt`), and what the bytes
//! describe is another (`table_in`). `parse` returns Ok exactly where no check fails, and that is exactly
//! where the bytes are a `Section` of some table, by `sf_model`'s definition: the one that the view shows.
//!
//! A section that is kept is checked once, and lends its view in constant time from then on: [`OwnedSection`]
//! owns its bytes, and [`LentSection`] is one whose bytes lie with the caller, as C programs have them. The
//! views that they lend are the view that `parse` returns for the bytes.
//!
//! The caller owes nothing to `parse`, and a number of a function to `start`, `func` and `rows`. Nothing
//! allocates. The checks go once over the entries for their numbers of rows, and once over the entries
//! and their rows; `rows` reads a row when it is asked for the next.
#![tactic(auto)]

mod check;
mod entry;
mod fault;
pub mod header;
mod iter;
mod kept;
mod laws;
pub mod layout;
mod notice;
pub mod number;
mod parsing;
pub mod row;
mod view;

pub use fault::DecodeFault;
pub use iter::RowIter;
pub use kept::{LentSection, OwnedSection};
pub use laws::{functions_are_numbered, view_is_a_section};
pub use view::View;
