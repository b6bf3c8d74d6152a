//! Why a process's modules aren't found.

use core_parts::Unread;
use elf_read::ElfFault;
use sf_base::NoMemory;
use sf_decode::DecodeFault;
use sf_model::{FaultName, FaultValues, Group, Shown, fault_values};
use std::alloc::{AllocError, AllocFailed};

/// Why the mapped files of a core file, or the module of a file, aren't found.
#[derive(Clone, Copy, PartialEq, Eq)]
pub enum ModuleFault {
    /// The core file has no note on mapped files.
    NoFileNote,
    /// The note on mapped files ends too early or has a number out of range. The place is in the core file.
    FileNote(u64),
    /// The module's ELF file is refused.
    Elf(ElfFault),
    /// The file has no SFrame section that is loaded.
    NoSection,
    /// The file has no program headers that can be read, or no loaded segment. The place is in the file header.
    Segments(u64),
    /// The process had no file of this name.
    NotMapped,
    /// The file doesn't fit where the process had the files of the nearest names.
    Mapping,
    /// The file fits where the process had files of two names, equally near.
    Ambiguous,
    /// The file is another build than the one that the process had.
    Build,
    /// The file's SFrame section is refused.
    Section(DecodeFault),
    /// The core file was read by parts, and the part of its memory with this address was not read.
    Unread(u64),
    /// Out of memory.
    NoMemory,
}

impl Shown for ModuleFault {
    ghost use Rattle.sf_modules.specs.FaultShown.{shown_module};

    ghost shown = { shown_module };

    fn name(&self) -> FaultName {
        let (number, name) = match self {
            ModuleFault::NoFileNote => (1, "NoFileNote"),
            ModuleFault::FileNote(_) => (2, "FileNote"),
            ModuleFault::Elf(fault) => return fault.name(),
            ModuleFault::NoSection => (4, "NoSection"),
            ModuleFault::Segments(_) => (5, "Segments"),
            ModuleFault::NotMapped => (6, "NotMapped"),
            ModuleFault::Mapping => (7, "Mapping"),
            ModuleFault::Ambiguous => (8, "Ambiguous"),
            ModuleFault::Build => (9, "Build"),
            ModuleFault::Section(fault) => return fault.name(),
            ModuleFault::Unread(_) | ModuleFault::NoMemory => (0, ""),
        };
        FaultName {
            group: Group::Module,
            number,
            name,
        }
    }

    fn values(&self) -> FaultValues {
        match self {
            ModuleFault::FileNote(place) | ModuleFault::Segments(place) => fault_values(&[*place]),
            ModuleFault::Elf(fault) => fault.values(),
            ModuleFault::Section(fault) => fault.values(),
            _ => FaultValues::new(),
        }
    }
}

impl From<ElfFault> for ModuleFault {
    ghost use Rattle.std.specs.Prelude.{◌≡◌};
    ghost use Rattle.sf_modules.specs.declared.fault.ModuleFault.TheVariants.{Elf};

    ghost from_gives = { λ fault e. e ≡ Elf fault };

    fn from(fault: ElfFault) -> ModuleFault {
        ModuleFault::Elf(fault)
    }
}

impl From<DecodeFault> for ModuleFault {
    ghost use Rattle.std.specs.Prelude.{◌≡◌};
    ghost use Rattle.sf_modules.specs.declared.fault.ModuleFault.TheVariants.{Section};

    ghost from_gives = { λ fault e. e ≡ Section fault };

    fn from(fault: DecodeFault) -> ModuleFault {
        ModuleFault::Section(fault)
    }
}

impl From<Unread> for ModuleFault {
    ghost use Rattle.std.specs.Prelude.{◌≡◌};
    ghost use Rattle.sf_modules.specs.declared.fault.ModuleFault.TheVariants as fault;

    ghost from_gives = { λ unread e. e ≡ fault.Unread unread.0 };

    fn from(unread: Unread) -> ModuleFault {
        ModuleFault::Unread(unread.0)
    }
}

impl From<NoMemory> for ModuleFault {
    ghost use Rattle.std.specs.Prelude.{◌≡◌};
    ghost use Rattle.sf_modules.specs.declared.fault.ModuleFault.TheVariants as fault;

    ghost from_gives = { λ _ e. e ≡ fault.NoMemory };

    fn from(_: NoMemory) -> ModuleFault {
        ModuleFault::NoMemory
    }
}

impl From<AllocError> for ModuleFault {
    ghost use Rattle.std.specs.Prelude.{◌≡◌};
    ghost use Rattle.sf_modules.specs.declared.fault.ModuleFault.TheVariants as fault;

    ghost from_gives = { λ _ e. e ≡ fault.NoMemory };

    fn from(_: AllocError) -> ModuleFault {
        ModuleFault::NoMemory
    }
}

impl<T: Drop> From<AllocFailed<T>> for ModuleFault {
    ghost use Rattle.std.specs.Prelude.{◌≡◌};
    ghost use Rattle.sf_modules.specs.declared.fault.ModuleFault.TheVariants as fault;

    ghost from_gives = { λ _ e. e ≡ fault.NoMemory };

    fn from(_: AllocFailed<T>) -> ModuleFault {
        ModuleFault::NoMemory
    }
}
