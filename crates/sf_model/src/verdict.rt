//! The result of comparing a section with the call frame descriptions that it was made from.

use crate::content::Content;

/// Whether a section recovers what the call frame descriptions do.
#[derive(Clone, Copy, PartialEq, Eq)]
pub enum Verdict {
    /// They agree at every address where a plain function of the section has a row.
    Agrees {
        /// The number of plain functions of the section.
        checked: u32,
        /// The number of expressible functions that the section doesn't have.
        missing: u32,
        /// The number of functions of repeated blocks, which are not compared.
        repeats: u32,
    },
    /// They differ, first at this address.
    Differs {
        /// The address.
        pc: u64,
        /// The section's content there.
        section: Content,
        /// The content of the call frame description there, if it can be expressed.
        dwarf: Option<Content>,
    },
}
