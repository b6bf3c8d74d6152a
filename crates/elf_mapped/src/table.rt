//! The program headers of a file, by their bytes.

ghost use Rattle.std.specs.Prelude.{◌≡◌, ◌*◌};
ghost use Rattle.elf_read.specs.Header.{header_fields};
ghost use Rattle.elf_read.specs.Linked.{linked_file};
ghost use Rattle.elf_read.specs.Number.{window};
ghost use Rattle.elf_read.specs.Sections.{segment_total};

use elf_read::LinkedElf;

/// The program headers of an executable or a shared object.
#[derive(Clone, Copy)]
pub struct Table<'a> {
    /// The file.
    pub linked: &'a LinkedElf,
    /// The bytes of the program headers.
    pub bytes: &'a [u8],
    /// How many there are.
    pub count: u32,
    ghost counted: { count ≡ segment_total (linked_file linked.now) },
    ghost bytes_are: { bytes.now ≡ window (header_fields (linked_file linked.now)).e_phoff (56 * count) (linked_file linked.now) },
}
