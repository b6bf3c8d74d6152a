//! What was read of a file that a process may have had mapped.

ghost use Rattle.std.specs.Prelude.{◌≡◌, length};

use crate::mapped_elf::MappedElf;
use crate::program::MappedBytes;

/// What was read of a file: the parts of an executable or a shared object that are needed of it, or all of it.
#[derive(Drop)]
pub enum MappedRead {
    /// An executable or a shared object that passes every check of the whole file by its parts.
    Parts(MappedElf),
    /// All the file's bytes.
    Whole(Vec<u8>),
}

impl MappedRead {
    ghost use Rattle.elf_mapped.specs.Program.{all_bytes};
    ghost use Rattle.elf_mapped.specs.Read.{mapped_bytes};

    /// Returns how many bytes the file has.
    pub fn len(&self) -> u64
        ensures { result ≡ length (mapped_bytes self.now) }
    {
        match self {
            MappedRead::Parts(elf) => elf.len(),
            MappedRead::Whole(bytes) => bytes.len() as u64,
        }
    }

    /// Lends what was read.
    pub fn bytes(&self) -> MappedBytes<'_>
        ensures { all_bytes result ≡ mapped_bytes self.now }
    {
        match self {
            MappedRead::Parts(elf) => MappedBytes::Parts(elf),
            MappedRead::Whole(bytes) => MappedBytes::Whole(bytes),
        }
    }
}
