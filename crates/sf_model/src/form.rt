//! The inputs to link.

use crate::machine::Arch;

/// What an input's bytes are.
#[derive(Clone, Copy, PartialEq, Eq)]
pub enum Form {
    /// An ELF file (ELF64 gABI): an object, a program or a shared object.
    Elf,
    /// A bare `.eh_frame` section of this machine (LSB Core), as in a linked program.
    Bare(Arch),
}
