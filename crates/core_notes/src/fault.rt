//! Why a core file is refused.

use elf_read::ElfFault;
use sf_model::{FaultName, FaultValues, Group, Shown, fault_values};

/// A refused core file, with the place of what is wrong, in bytes from the file's start.
#[derive(Clone, Copy, PartialEq, Eq)]
pub enum CoreFault {
    /// The ELF file is refused.
    Elf(ElfFault),
    /// The ELF file is no core file.
    NotCore,
    /// A note ends after its segment, or a mask of return addresses has another size than two numbers of eight bytes.
    Note(u64),
    /// A status has another size than the machine's.
    StatusSize(u64),
    /// There is no thread.
    NoThread,
    /// There are more than 4096 threads.
    TooManyThreads,
}

impl Shown for CoreFault {
    ghost use Rattle.core_notes.specs.FaultShown.{shown_core};

    ghost shown = { shown_core };

    fn name(&self) -> FaultName {
        let (number, name) = match self {
            CoreFault::Elf(fault) => return fault.name(),
            CoreFault::NotCore => (2, "NotCore"),
            CoreFault::Note(_) => (3, "Note"),
            CoreFault::StatusSize(_) => (4, "StatusSize"),
            CoreFault::NoThread => (5, "NoThread"),
            CoreFault::TooManyThreads => (6, "TooManyThreads"),
        };
        FaultName {
            group: Group::Core,
            number,
            name,
        }
    }

    fn values(&self) -> FaultValues {
        match self {
            CoreFault::Elf(fault) => fault.values(),
            CoreFault::Note(place) | CoreFault::StatusSize(place) => fault_values(&[*place]),
            CoreFault::NotCore | CoreFault::NoThread | CoreFault::TooManyThreads =>
                FaultValues::new(),
        }
    }
}

impl From<ElfFault> for CoreFault {
    ghost use Rattle.std.specs.Prelude.{◌≡◌};
    ghost use Rattle.core_notes.specs.declared.fault.CoreFault.TheVariants.{Elf};

    ghost from_gives = { λ fault e. e ≡ Elf fault };

    fn from(fault: ElfFault) -> CoreFault {
        CoreFault::Elf(fault)
    }
}
