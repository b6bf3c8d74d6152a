//! Why a section's records can't be read.

ghost use Rattle.std.specs.Prelude.{◌≡◌};
ghost use Rattle.eh_records.specs.declared.fault.RecordFault.TheVariants.{NoMemory};

use sf_model::{FaultName, FaultValues, Group, Shown, fault_values};
use std::alloc::{AllocError, AllocFailed};

/// A refused record, with the place of the refused field, in bytes from the section's start.
#[derive(Clone, Copy, Debug, PartialEq, Eq)]
pub enum RecordFault {
    /// A record or field passes its end, or an augmentation string has no zero byte.
    Short(u32),
    /// The length word is that of a 64-bit length.
    Extended(u32),
    /// The version is neither 1 nor 3.
    CieVersion(u32),
    /// The augmentation string is neither empty nor `z` with known letters, each once.
    Augmentation(u32),
    /// The word names no common information entry before the record.
    CiePointer(u32),
    /// A pointer encoding that can't be used.
    Encoding(u32),
    /// A LEB128 number of more than ten bytes or outside 64 bits.
    Leb(u32),
    /// The start or the size has no value before linking.
    Unresolved(u32),
    /// The function ends above 2^64.
    FunctionEnd(u32),
    /// Memory ran out.
    NoMemory,
}

impl Shown for RecordFault {
    ghost use Rattle.eh_records.specs.FaultShown.{shown_record};

    ghost shown = { shown_record };

    fn name(&self) -> FaultName {
        let (number, name) = match self {
            RecordFault::Short(_) => (1, "Short"),
            RecordFault::Extended(_) => (2, "Extended"),
            RecordFault::CieVersion(_) => (3, "CieVersion"),
            RecordFault::Augmentation(_) => (4, "Augmentation"),
            RecordFault::CiePointer(_) => (5, "CiePointer"),
            RecordFault::Encoding(_) => (6, "Encoding"),
            RecordFault::Leb(_) => (7, "Leb"),
            RecordFault::Unresolved(_) => (8, "Unresolved"),
            RecordFault::FunctionEnd(_) => (9, "FunctionEnd"),
            RecordFault::NoMemory => (0, ""),
        };
        FaultName {
            group: Group::Record,
            number,
            name,
        }
    }

    fn values(&self) -> FaultValues {
        match self {
            RecordFault::Short(place)
            | RecordFault::Extended(place)
            | RecordFault::CieVersion(place)
            | RecordFault::Augmentation(place)
            | RecordFault::CiePointer(place)
            | RecordFault::Encoding(place)
            | RecordFault::Leb(place)
            | RecordFault::Unresolved(place)
            | RecordFault::FunctionEnd(place) => fault_values(&[u64::from(*place)]),
            RecordFault::NoMemory => FaultValues::new(),
        }
    }
}

impl From<AllocError> for RecordFault {
    ghost from_gives = { λ _ e. e ≡ NoMemory };

    fn from(_error: AllocError) -> RecordFault {
        RecordFault::NoMemory
    }
}

impl<T: Drop> From<AllocFailed<T>> for RecordFault {
    ghost from_gives = { λ _ e. e ≡ NoMemory };

    fn from(_error: AllocFailed<T>) -> RecordFault {
        RecordFault::NoMemory
    }
}
