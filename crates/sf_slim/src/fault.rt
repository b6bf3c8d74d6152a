//! Why a section is not slimmed.

ghost use Rattle.std.specs.Prelude.{◌≡◌};
ghost use Rattle.sf_slim.specs.declared.fault.SlimFault.TheVariants as slim;

use sf_base::NoMemory;

/// Why a section is not slimmed. The faults are checked in the order in which they are here.
#[derive(Clone, Copy, PartialEq, Eq)]
pub enum SlimFault {
    /// Two functions share an address: the place of the function descriptor entry of the later one, of the
    /// first neighbours that share an address, by start and then by entry.
    Overlap(u64),
    /// This start is the first one that lies too far from its field: not within -2^31 to 2^31-1 bytes.
    OutOfReach(u64),
    /// Memory ran out.
    NoMemory,
}

impl From<NoMemory> for SlimFault {
    ghost from_gives = { λ _ fault. fault ≡ slim.NoMemory };

    fn from(_: NoMemory) -> SlimFault {
        SlimFault::NoMemory
    }
}
