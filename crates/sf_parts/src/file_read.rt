//! What was read of a file.

ghost use Rattle.std.specs.Prelude.{◌≡◌, length};

use elf_read::LinkedElf;

/// What was read of a file: the parts of an executable or a shared object that are needed of it, or all of it.
#[derive(Drop)]
pub enum FileRead {
    /// An executable or a shared object that passes every check of the whole file by its parts.
    Linked(LinkedElf),
    /// All the file's bytes.
    Whole(Vec<u8>),
}

impl FileRead {
    ghost use Rattle.sf_parts.specs.Read.{file_of};

    /// Returns how many bytes the file has.
    pub fn len(&self) -> u64
        ensures { result ≡ length (file_of self.now) }
    {
        match self {
            FileRead::Linked(elf) => elf.len(),
            FileRead::Whole(bytes) => bytes.len() as u64,
        }
    }
}
