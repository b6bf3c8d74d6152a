//! Why inputs are not gathered, and why no section is made of them.

ghost use Rattle.std.specs.Prelude.{◌≡◌};

use frame_functions::AsmFault;
use sf_functions::Limit;
use sf_write::WriteFault;
use std::alloc::{AllocError, AllocFailed};
use thiserror::Error;

/// Why inputs are not gathered: the first fault of the first faulty input, then these in their order.
#[derive(Debug, Drop, Error)]
pub enum GatherFault {
    /// The input of this number is refused.
    #[error("{1}")]
    Input(u32, AsmFault),
    /// The machines of these two items differ: item 0, and the least that differs from it.
    #[error("the items are of different machines")]
    MixedArch(u32, u32),
    /// There are more than 2^21 functions, omitted ones included.
    #[error("too many functions")]
    TooManyFunctions,
    /// There are more than 2^24 rows.
    #[error("too many rows")]
    TooManyRows,
    /// Two functions share an address: the start and item of the one, and of the other.
    #[error("two functions overlap")]
    Overlap(u64, u32, u64, u32),
    /// Memory ran out.
    #[error("memory ran out")]
    NoMemory,
}

/// Why no section is made.
#[derive(Debug, Drop, Error)]
pub enum LinkFault {
    /// The inputs are not gathered.
    #[error(transparent)]
    Gather(GatherFault),
    /// The function at this address lies too far from the section.
    #[error("a function is out of reach")]
    OutOfReach(u64),
    /// Memory ran out.
    #[error("memory ran out")]
    NoMemory,
}

impl From<AllocError> for GatherFault {
    ghost use Rattle.sf_asm.specs.declared.fault.GatherFault.TheVariants.{NoMemory};

    ghost from_gives = { λ _ e. e ≡ NoMemory };

    fn from(_: AllocError) -> GatherFault {
        GatherFault::NoMemory
    }
}

impl<T: Drop> From<AllocFailed<T>> for GatherFault {
    ghost use Rattle.sf_asm.specs.declared.fault.GatherFault.TheVariants.{NoMemory};

    ghost from_gives = { λ _ e. e ≡ NoMemory };

    fn from(_: AllocFailed<T>) -> GatherFault {
        GatherFault::NoMemory
    }
}

impl From<AllocError> for LinkFault {
    ghost use Rattle.sf_asm.specs.declared.fault.LinkFault.TheVariants.{NoMemory};

    ghost from_gives = { λ _ e. e ≡ NoMemory };

    fn from(_: AllocError) -> LinkFault {
        LinkFault::NoMemory
    }
}

impl From<sf_base::NoMemory> for LinkFault {
    ghost use Rattle.sf_asm.specs.declared.fault.LinkFault.TheVariants.{NoMemory as OutOfMemory};

    ghost from_gives = { λ _ e. e ≡ OutOfMemory };

    fn from(_: sf_base::NoMemory) -> LinkFault {
        LinkFault::NoMemory
    }
}

impl From<Limit> for GatherFault {
    ghost use Rattle.sf_asm.specs.Linking.{fault_of_limit};

    ghost from_gives = { λ limit e. e ≡ fault_of_limit limit };

    fn from(limit: Limit) -> GatherFault {
        match limit {
            Limit::Functions => GatherFault::TooManyFunctions,
            Limit::Rows => GatherFault::TooManyRows,
        }
    }
}

impl From<GatherFault> for LinkFault {
    ghost use Rattle.sf_asm.specs.Fault.{wraps_gathering};

    ghost from_gives = { λ fault e. e ≡ wraps_gathering fault };

    /// Out of memory is not wrapped.
    fn from(fault: GatherFault) -> LinkFault {
        match fault {
            GatherFault::NoMemory => LinkFault::NoMemory,
            _ => LinkFault::Gather(fault),
        }
    }
}

impl From<WriteFault> for LinkFault {
    ghost use Rattle.sf_asm.specs.Fault.{wraps_writing};

    ghost from_gives = { λ fault e. e ≡ wraps_writing fault };

    fn from(fault: WriteFault) -> LinkFault {
        match fault {
            WriteFault::OutOfReach(start) => LinkFault::OutOfReach(start),
            WriteFault::NoMemory => LinkFault::NoMemory,
        }
    }
}
