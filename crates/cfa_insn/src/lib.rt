//! Call frame instructions (DWARF 5, sections 6.4.2 and 7.24), read lazily from lent bytes.
//!
//! [`Insns`] is an iterator over a part of a frame description entry or common information entry. It gives each
//! instruction with its place, up to the end or up to the first that can't be read, and then that fault once.
//! Expression blocks are lent and never evaluated. No call allocates.
//!
//! The four kinds that are nearly all of a program's instructions can be taken straight from their bytes, as plain
//! numbers: [`Insns::next_advance_loc`], [`Insns::next_def_cfa_offset`], [`Insns::next_offset`] and
//! [`Insns::next_nop`]. Each takes nothing if another instruction is next, which [`Insns::next`] then gives.
#![tactic(auto)]

mod fault;
mod insn;
mod insns;
mod laws;
pub mod opcodes;
mod read;

pub use fault::InsnFault;
pub use insn::Insn;
pub use insns::Insns;
pub use laws::listing_law;
