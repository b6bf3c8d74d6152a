//! The functions of one call frame section.
//!
//! [`read_section`] reads the records of a section, runs the instructions of each frame description entry, and adds what
//! becomes of each function to those that were read before ([`ReadFunctions`]): SFrame Version 2 can express it, or it is
//! omitted with the first reason. Past the limits of a run functions are only counted. Omitted functions can be lent as
//! their records describe them ([`Descriptions`]); what the functions of one common information entry share is held once.
//! [`content_ranges`] runs the instructions of one of them. [`FunctionList::in_order`] brings functions into the order of their
//! starts, and [`FunctionList::part`] separates kept from omitted ones ([`InputFunctions`]).
//!
//! A section has fewer than 2^32 bytes. All allocate; no section is copied. While a function is read, its rows are held as
//! bytes.
#![tactic(auto)]

mod call_frame_section;
mod contents;
mod description;
mod descriptions;
mod fault;
mod function_list;
mod initial_rows;
mod keyed_content;
mod lent;
mod notice;
mod numbers;
mod overlay;
mod read;
mod read_function;
mod section;

pub use call_frame_section::CallFrameSection;
pub use contents::content_ranges;
pub use description::Description;
pub use descriptions::Descriptions;
pub use fault::AsmFault;
pub use function_list::{FunctionList, InputFunctions};
pub use keyed_content::KeyedContent;
pub use read::{HeldFunctions, ReadFunctions};
pub use read_function::ListedFunction;
pub use section::read_section;
