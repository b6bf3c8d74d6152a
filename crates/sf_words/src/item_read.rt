//! What was read of an item's file.

ghost use Rattle.std.specs.Prelude.{◌≡◌, length};
ghost use Rattle.sf_words.specs.ItemRead.{read_bytes};

use core_parts::CoreRead;
use elf_mapped::MappedRead;
use sf_parts::FileRead;

/// What was read of an item's file.
#[derive(Drop)]
pub enum ItemRead {
    /// Of an input or a section: all, or the parts that are needed of an ELF file that is linked.
    File(FileRead),
    /// Of a file that a process may have had mapped: all, or the parts that are needed.
    Mapped(MappedRead),
    /// Of a core file: parts, or all.
    Core(CoreRead),
}

impl ItemRead {
    /// Returns how many bytes the file has.
    pub fn len(&self) -> u64
        ensures { result ≡ length (read_bytes self.now) }
    {
        match self {
            ItemRead::File(file) => file.len(),
            ItemRead::Mapped(mapped) => mapped.len(),
            ItemRead::Core(CoreRead::Parts(core)) => core.len(),
            ItemRead::Core(CoreRead::Whole(bytes)) => bytes.len() as u64,
        }
    }
}
