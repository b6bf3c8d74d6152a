//! From inputs to one SFrame section that also has plain lazy procedure linkage tables.
//!
//! [`link_plt`] links 1 to 512 inputs as `sf_link::link` does, and also writes each function that is a plain lazy
//! procedure linkage table of AMD64 (`is_plt` of `specs/Plt.antt`). From the second entry of such a function on,
//! its canonical frame address is the value of an expression. The function becomes two: a plain one of its first
//! 16 bytes, and one of repeated blocks of 16 bytes from there to its end (`specs/Written.antt`). The expression's
//! value is that of a stack machine over its eleven bytes (`specs/Expression.antt`). A function with another
//! expression is omitted. [`link_plt_with_descriptions`] also lends what SFrame can't express as its records describe it.
//!
//! Laws: at each address of a procedure linkage table the two functions recover what its rules and the expression
//! recover, for all registers and memory ([`tables_recover_alike`]); and linking has at most one result
//! ([`linking_tables_comes_to_one_result`]).
//!
//! The caller owes 1 to 512 inputs, each of fewer than 2^32 bytes. The functions and the section are allocated; no
//! input is copied.
#![tactic(auto)]

mod laws;
mod limits;
mod linking;
mod pair;
mod sorting;
mod table;
mod text;

pub use laws::{linking_tables_comes_to_one_result, tables_recover_alike};
pub use linking::{PltLinked, PltLinkedWithDescriptions, link_plt, link_plt_with_descriptions};
