//! Why a file's sections can't be placed.

ghost use Rattle.std.specs.Prelude.{◌≡◌};
ghost use Rattle.elf_place.specs.declared.fault.PlaceFault.TheVariants.{NoMemory};

use sf_model::{FaultName, FaultValues, Group, Shown, fault_values};
use std::alloc::{AllocError, AllocFailed};

/// A section that can't be placed, by its number.
#[derive(Clone, Copy, Debug, PartialEq, Eq)]
pub enum PlaceFault {
    /// Its alignment is neither 0 nor a power of two.
    Align(u32),
    /// It starts at 2^64 or above, or ends above.
    AddressOverflow(u32),
    /// It is call frame information without bytes in the file.
    NoBits(u32),
    /// No memory was left.
    NoMemory,
}

impl Shown for PlaceFault {
    ghost use Rattle.elf_place.specs.FaultShown.{shown_place};

    ghost shown = { shown_place };

    fn name(&self) -> FaultName {
        let (number, name) = match self {
            PlaceFault::Align(_) => (1, "Align"),
            PlaceFault::AddressOverflow(_) => (2, "AddressOverflow"),
            PlaceFault::NoBits(_) => (3, "NoBits"),
            PlaceFault::NoMemory => (0, ""),
        };
        FaultName {
            group: Group::Place,
            number,
            name,
        }
    }

    fn values(&self) -> FaultValues {
        match self {
            PlaceFault::Align(section)
            | PlaceFault::AddressOverflow(section)
            | PlaceFault::NoBits(section) => fault_values(&[u64::from(*section)]),
            PlaceFault::NoMemory => FaultValues::new(),
        }
    }
}

impl From<AllocError> for PlaceFault {
    ghost from_gives = { λ _ e. e ≡ NoMemory };

    fn from(_error: AllocError) -> PlaceFault {
        PlaceFault::NoMemory
    }
}

impl<T: Drop> From<AllocFailed<T>> for PlaceFault {
    ghost from_gives = { λ _ e. e ≡ NoMemory };

    fn from(_error: AllocFailed<T>) -> PlaceFault {
        PlaceFault::NoMemory
    }
}
