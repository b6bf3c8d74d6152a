//! Why a file is refused.

use sf_model::{FaultName, FaultValues, Group, Shown, fault_values};

/// A refused ELF file, with the place of what is wrong, in bytes from the file's start.
#[derive(Clone, Copy, Debug, PartialEq, Eq)]
pub enum ElfFault {
    /// The file has fewer bytes than its header; the place is the file's length.
    Short(u64),
    /// The file doesn't begin with the ELF identification.
    NotElf(u64),
    /// The file isn't of class ELFCLASS64.
    Class(u64),
    /// The file isn't little-endian.
    Order(u64),
    /// The version isn't EV_CURRENT.
    Version(u64),
    /// The machine is neither EM_X86_64 nor EM_AARCH64.
    Machine(u64),
    /// The type is none of ET_REL, ET_EXEC, ET_DYN and ET_CORE.
    Kind(u64),
    /// Entries have another length than the format's, or a table isn't made of whole entries.
    EntrySize(u64),
    /// A name isn't in a string table.
    Strings(u64),
    /// Headers or bytes don't lie in the file.
    OutOfFile(u64),
    /// A section that is used is compressed.
    Compressed(u64),
    /// A symbol, a symbol's section or a group's member isn't in the file.
    SymbolIndex(u64),
}

impl Shown for ElfFault {
    ghost use Rattle.elf_read.specs.FaultShown.{shown_elf};

    ghost shown = { shown_elf };

    fn name(&self) -> FaultName {
        let (number, name) = match self {
            ElfFault::Short(_) => (1, "Short"),
            ElfFault::NotElf(_) => (2, "NotElf"),
            ElfFault::Class(_) => (3, "Class"),
            ElfFault::Order(_) => (4, "Order"),
            ElfFault::Version(_) => (5, "Version"),
            ElfFault::Machine(_) => (6, "Machine"),
            ElfFault::Kind(_) => (7, "Kind"),
            ElfFault::EntrySize(_) => (8, "EntrySize"),
            ElfFault::Strings(_) => (9, "Strings"),
            ElfFault::OutOfFile(_) => (10, "OutOfFile"),
            ElfFault::Compressed(_) => (11, "Compressed"),
            ElfFault::SymbolIndex(_) => (12, "SymbolIndex"),
        };
        FaultName {
            group: Group::Elf,
            number,
            name,
        }
    }

    fn values(&self) -> FaultValues {
        match self {
            ElfFault::Short(place)
            | ElfFault::NotElf(place)
            | ElfFault::Class(place)
            | ElfFault::Order(place)
            | ElfFault::Version(place)
            | ElfFault::Machine(place)
            | ElfFault::Kind(place)
            | ElfFault::EntrySize(place)
            | ElfFault::Strings(place)
            | ElfFault::OutOfFile(place)
            | ElfFault::Compressed(place)
            | ElfFault::SymbolIndex(place) => fault_values(&[*place]),
        }
    }
}
