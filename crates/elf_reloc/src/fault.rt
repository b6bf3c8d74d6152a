//! Why a section's relocations can't be applied.

ghost use Rattle.std.specs.Prelude.{◌≡◌};
ghost use Rattle.elf_reloc.specs.declared.fault.RelocFault.TheVariants.{NoMemory};

use sf_model::{FaultName, FaultValues, Group, Shown, fault_values};
use std::alloc::{AllocError, AllocFailed};

/// A refused relocation, by its number among all of the section, from 0, in order of section and entry.
#[derive(Clone, Copy, Debug, PartialEq, Eq)]
pub enum RelocFault {
    /// Its type isn't one of the machine's that are known.
    UnknownType(u32),
    /// The value doesn't fit its field.
    Range(u32),
    /// It lies on no pointer field of its width.
    Place(u32),
    /// Its field overlaps another one's.
    Twice(u32),
    /// A section, by its number, has relocations for this one in another form than with addends (SHT_RELA).
    RelSection(u32),
    /// Its field ends past the section's bytes.
    OutOfSection(u32),
    /// No memory was left.
    NoMemory,
}

impl Shown for RelocFault {
    ghost use Rattle.elf_reloc.specs.FaultShown.{shown_reloc};

    ghost shown = { shown_reloc };

    fn name(&self) -> FaultName {
        let (number, name) = match self {
            RelocFault::UnknownType(_) => (1, "UnknownType"),
            RelocFault::Range(_) => (2, "Range"),
            RelocFault::Place(_) => (3, "Place"),
            RelocFault::Twice(_) => (4, "Twice"),
            RelocFault::RelSection(_) => (5, "RelSection"),
            RelocFault::OutOfSection(_) => (6, "OutOfSection"),
            RelocFault::NoMemory => (0, ""),
        };
        FaultName {
            group: Group::Reloc,
            number,
            name,
        }
    }

    fn values(&self) -> FaultValues {
        match self {
            RelocFault::UnknownType(index)
            | RelocFault::Range(index)
            | RelocFault::Place(index)
            | RelocFault::Twice(index)
            | RelocFault::RelSection(index)
            | RelocFault::OutOfSection(index) => fault_values(&[u64::from(*index)]),
            RelocFault::NoMemory => FaultValues::new(),
        }
    }
}

impl From<AllocError> for RelocFault {
    ghost from_gives = { λ _ e. e ≡ NoMemory };

    fn from(_error: AllocError) -> RelocFault {
        RelocFault::NoMemory
    }
}

impl<T: Drop> From<AllocFailed<T>> for RelocFault {
    ghost from_gives = { λ _ e. e ≡ NoMemory };

    fn from(_error: AllocFailed<T>) -> RelocFault {
        RelocFault::NoMemory
    }
}
