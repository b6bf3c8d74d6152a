//! Why a file has no place in memory.

ghost use Rattle.std.specs.Prelude.{◌≡◌};
ghost use Rattle.elf_load.specs.declared.fault.LoadFault.TheVariants as load;

use elf_read::ElfFault;

/// Why a file has no place in memory.
#[derive(Clone, Copy)]
pub enum LoadFault {
    /// The file can't be read, or its program headers can't.
    Elf(ElfFault),
    /// No segment is loaded, or one reaches into the last page of all addresses.
    NotLoaded,
}

impl From<ElfFault> for LoadFault {
    ghost from_gives = { λ elf fault. fault ≡ load.Elf elf };

    fn from(fault: ElfFault) -> LoadFault {
        LoadFault::Elf(fault)
    }
}
