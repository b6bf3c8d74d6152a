//! Why no section is written.

ghost use Rattle.std.specs.Prelude.{◌≡◌};
ghost use Rattle.sf3_write.specs.declared.fault.WriteFault.TheVariants.{NoMemory};

use std::alloc::{AllocError, AllocFailed};

/// Why no section is written.
#[derive(Clone, Copy, Debug, PartialEq, Eq)]
pub enum WriteFault {
    /// The function with this start is the first one with more than 65,535 rows.
    TooManyRows(u64),
    /// Memory ran out.
    NoMemory,
}

impl From<AllocError> for WriteFault {
    ghost from_gives = { λ _ fault. fault ≡ NoMemory };

    fn from(_: AllocError) -> WriteFault {
        WriteFault::NoMemory
    }
}

impl<T: Drop> From<AllocFailed<T>> for WriteFault {
    ghost from_gives = { λ _ fault. fault ≡ NoMemory };

    fn from(_failed: AllocFailed<T>) -> WriteFault {
        WriteFault::NoMemory
    }
}
