//! Laws: which compressed section is refused, and how much the sections that are read hold together.

ghost use Rattle.elf_read.specs.Checking.{first_broken};
ghost use Rattle.elf_read.specs.Compressed.{NoneIsCompressed};
ghost use Rattle.elf_read.specs.Input.{file};
ghost use Rattle.elf_read.specs.Parsing.{compressed_rules};
ghost use Rattle.elf_read.specs.TotalSize.{HasRoom};

use crate::input::ElfInput;

/// States, by its contract alone, that a file passes the rows of compressed sections exactly where no section that is
/// used is compressed, and that else the compressed one with the lowest number is refused. It does nothing.
pub fn compressed_law(file: &[u8])
    ensures { NoneIsCompressed file.now (first_broken (compressed_rules file.now)) }
{}

/// States, by its contract alone, that the sections that are read whole, call frame information, its relocations and
/// groups, are together no longer than the file. It does nothing.
pub fn room_law(elf: &ElfInput<'_>)
    ensures { HasRoom (file elf.now) }
{}
