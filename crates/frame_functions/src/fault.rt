//! Why inputs are refused.

ghost use Rattle.std.specs.Prelude.{◌≡◌};

use cfa_machine::MachineFault;
use eh_records::RecordFault;
use elf_place::PlaceFault;
use elf_read::ElfFault;
use elf_reloc::RelocFault;
use std::alloc::{AllocError, AllocFailed};
use thiserror::Error;

/// Why one input is refused. The number before a fault is that of the call frame section, 0 for a bare
/// one. Out of memory is `NoMemory`, and is never inside another variant.
#[derive(Debug, Drop, Error)]
pub enum AsmFault {
    /// An ELF file can't be read, or is a core.
    #[error("an ELF file can't be read")]
    Elf(ElfFault),
    /// A section of it can't be placed.
    #[error("a section can't be placed")]
    Place(PlaceFault),
    /// A relocation of a call frame section can't be applied.
    #[error("a relocation can't be applied")]
    Reloc(u32, RelocFault),
    /// A record can't be read, or its function has no start or end.
    #[error("a call frame record can't be read")]
    Record(u32, RecordFault),
    /// A call frame instruction can't be read or run.
    #[error("a call frame instruction can't be run")]
    Machine(u32, MachineFault),
    /// Memory ran out.
    #[error("memory ran out")]
    NoMemory,
}

impl From<AllocError> for AsmFault {
    ghost use Rattle.frame_functions.specs.declared.fault.AsmFault.TheVariants.{NoMemory};

    ghost from_gives = { λ _ e. e ≡ NoMemory };

    fn from(_: AllocError) -> AsmFault {
        AsmFault::NoMemory
    }
}

impl<T: Drop> From<AllocFailed<T>> for AsmFault {
    ghost use Rattle.frame_functions.specs.declared.fault.AsmFault.TheVariants.{NoMemory};

    ghost from_gives = { λ _ e. e ≡ NoMemory };

    fn from(_: AllocFailed<T>) -> AsmFault {
        AsmFault::NoMemory
    }
}
