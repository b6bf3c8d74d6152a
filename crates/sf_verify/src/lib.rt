//! A section against the call frame information that it was made from.
//!
//! [`verify`] returns whether a section agrees with 1 to 512 inputs: at each address at which a plain function of
//! the section has a row, the call frame information has a content that recovers the same for all registers and
//! any memory. Otherwise it returns the least address at which there is no such content, and both contents there
//! (`specs/Agreement.antt`, `specs/Verifying.antt`). The content at an address is defined in `specs/SectionContent.antt`,
//! and in `specs/ContentAt.antt` of `sf_asm`. Omitted functions have a content, too, at each address whose row SFrame can
//! express.
//!
//! [`the_test_of_agreement_is_exact`] and [`verifying_comes_to_one_result`] are laws: two contents recover alike
//! exactly if they are the same, with the same key if they are signed; and there is at most one verdict.
//!
//! The functions of both sides are scanned once, by rising start, and only the offsets at which one of them can
//! change are compared. The instructions of an omitted function are run only if the section has rows in it. The
//! caller owes inputs of fewer than 2^32 bytes each. The lists of the functions of both sides are allocated. Rows are read
//! where they are stored.
#![tactic(auto)]

mod agreement;
mod counts;
mod dwarf_cursor;
mod fault;
mod kept;
mod laws;
mod notice;
mod overlap;
mod sweep;
mod verifying;

pub use fault::VerifyFault;
pub use laws::{the_test_of_agreement_is_exact, verifying_comes_to_one_result};
pub use verifying::verify;
