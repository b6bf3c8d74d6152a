//! The numbers of a section that was made of sections, as C has them.

ghost use Rattle.std.specs.Prelude.{◌≡◌};
ghost use Rattle.sf_link_c.specs.Slimming as spec;

use crate::refusals::KiblawenRefusal;

/// The numbers of what was made, or why nothing was.
#[repr(C)]
#[derive(Clone, Copy)]
pub struct KiblawenMade {
    /// The section's length in bytes.
    pub len: usize,
    /// The number of its functions.
    pub functions: u32,
    /// The number of its rows.
    pub rows: u32,
    /// The first fault.
    pub why: KiblawenRefusal,
}

/// Returns that nothing was made, for a reason.
pub fn nothing_made(why: KiblawenRefusal) -> KiblawenMade
    ensures { result ≡ spec.nothing_made why }
{
    KiblawenMade {
        len: 0,
        functions: 0,
        rows: 0,
        why,
    }
}
