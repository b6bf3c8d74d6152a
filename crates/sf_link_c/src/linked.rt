//! The numbers of what linking made, as C has them.

ghost use Rattle.std.specs.Prelude.{◌≡◌};
ghost use Rattle.sf_link_c.specs.Linking as spec;

use crate::refusals::KiblawenRefusal;

/// The numbers of what was made, or why nothing was.
#[repr(C)]
#[derive(Clone, Copy)]
pub struct KiblawenLinked {
    /// The section's length in bytes.
    pub len: usize,
    /// The number of functions that are kept as they are.
    pub functions: u32,
    /// The number of omitted functions.
    pub omitted: usize,
    /// The number of procedure linkage tables that have rows.
    pub plts: usize,
    /// The first fault.
    pub why: KiblawenRefusal,
}

/// Returns that nothing was made, for a reason.
pub fn nothing_linked(why: KiblawenRefusal) -> KiblawenLinked
    ensures { result ≡ spec.nothing_linked why }
{
    KiblawenLinked {
        len: 0,
        functions: 0,
        omitted: 0,
        plts: 0,
        why,
    }
}
