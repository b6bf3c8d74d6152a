//! Why sections are not merged.

ghost use Rattle.std.specs.Prelude.{◌≡◌};
ghost use Rattle.sf_merge.specs.declared.fault.MergeFault.TheVariants as merge;
ghost use Rattle.sf_merge.specs.Fault.{of_writing};

use sf_base::NoMemory;
use sf_write::WriteFault;

/// Why sections are not merged. Sections are numbered from 0 in the order in which they are given. The
/// faults are checked in the order MixedArch, TooManyFunctions, TooManyRows, Overlap, OutOfReach.
#[derive(Clone, Copy, Debug, PartialEq, Eq)]
pub enum MergeFault {
    /// The section of the second number is the first one whose machine isn't that of section 0.
    MixedArch(u32, u32),
    /// Two functions share an address: the start and section of the one, and of the other. They are the
    /// first neighbours that share an address, by start, then by section, then by entry.
    Overlap(u64, u32, u64, u32),
    /// This start is the first one that lies too far from its field: not within -2^31 to 2^31-1 bytes.
    OutOfReach(u64),
    /// The sections have more than 2^21 functions together.
    TooManyFunctions,
    /// The sections have more than 2^24 rows together.
    TooManyRows,
    /// Memory ran out.
    NoMemory,
}

impl From<NoMemory> for MergeFault {
    ghost from_gives = { λ _ fault. fault ≡ merge.NoMemory };

    fn from(_: NoMemory) -> MergeFault {
        MergeFault::NoMemory
    }
}

/// Converts a fault of the writer to one of merging.
pub(crate) fn write_fault(fault: WriteFault) -> MergeFault
    ensures { result ≡ of_writing fault }
{
    match fault {
        WriteFault::OutOfReach(start) => MergeFault::OutOfReach(start),
        WriteFault::NoMemory => MergeFault::NoMemory,
    }
}
