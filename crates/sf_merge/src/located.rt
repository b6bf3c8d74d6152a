//! Functions of several sections, each with its section and its entry.

use sf_model::Func;

/// A function of one of several sections.
#[derive(Drop)]
pub struct Located {
    /// The function.
    pub func: Func,
    /// The number of the function's section, from 0.
    pub item: u32,
    /// The number of the function's entry in the section, from 0.
    pub number: u32,
}
