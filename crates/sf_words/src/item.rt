//! The files that a command reads, each of a kind with its own limits.

ghost use Rattle.std.specs.Prelude.{◌≡◌, ◌≤◌};
ghost use Rattle.sf_words.specs.Items as spec;
ghost use Rattle.sf_words.specs.Items.{counted_bytes, item_of, limit_of, most_read, name_of};

use crate::words::{InputFile, SectionFile};
use sf_model::Form;

/// A file that a command reads, by what it is to the command.
#[derive(Clone, Copy)]
pub enum Item<'a> {
    /// An ELF file or a bare call frame section that is linked.
    Input(InputFile<'a>),
    /// An SFrame section.
    Section(SectionFile<'a>),
    /// The core file of this name.
    Core(&'a str),
    /// The ELF file of this name, which a process had mapped.
    Mapped(&'a str),
}

impl<'a> Item<'a> {
    /// Returns the file's name.
    pub fn name(&self) -> &'a str
        ensures { result.now ≡ name_of (item_of self.now) }
    {
        match self {
            Item::Input(input) => input.name,
            Item::Section(section) => section.name,
            Item::Core(name) | Item::Mapped(name) => name,
        }
    }

    /// Returns the most bytes that a file of this kind may have.
    pub fn limit(&self) -> u64
        ensures { result ≡ limit_of (item_of self.now) }
    {
        match self {
            Item::Input(_) | Item::Mapped(_) => 1 << 28,
            Item::Section(_) => 1 << 29,
            Item::Core(_) => 1 << 40,
        }
    }

    /// Returns the most bytes that are read of a file of this kind: of a core file fewer than it may have.
    pub fn most_read(&self) -> u64
        ensures most { result ≡ most_read (item_of self.now) }
        ensures within { result ≤ limit_of (item_of self.now) }
    {
        match self {
            Item::Input(_) | Item::Mapped(_) => 1 << 28,
            Item::Section(_) => 1 << 29,
            Item::Core(_) => 1 << 30,
        }
    }

    /// Returns whether the file is linked as an ELF file.
    pub fn is_elf_input(&self) -> bool
        ensures { result ≡ spec.is_elf_input (item_of self.now) }
    {
        match self {
            Item::Input(input) => match input.form {
                Form::Elf => true,
                Form::Bare(_) => false,
            },
            Item::Section(_) | Item::Core(_) | Item::Mapped(_) => false,
        }
    }

    /// Returns whether the file is one that a process may have had mapped.
    pub fn is_mapped(&self) -> bool
        ensures { result ≡ spec.is_mapped (item_of self.now) }
    {
        match self {
            Item::Mapped(_) => true,
            Item::Input(_) | Item::Section(_) | Item::Core(_) => false,
        }
    }

    /// Returns whether the file is a core file.
    pub fn is_core(&self) -> bool
        ensures { result ≡ spec.is_core (item_of self.now) }
    {
        match self {
            Item::Core(_) => true,
            Item::Input(_) | Item::Section(_) | Item::Mapped(_) => false,
        }
    }

    /// Returns how many bytes of such a file of `len` bytes count for the limit of all files of a run.
    pub fn counted(&self, len: u64) -> u64
        ensures { result ≡ counted_bytes (item_of self.now) len }
    {
        match self {
            Item::Input(_) | Item::Section(_) | Item::Mapped(_) => len,
            Item::Core(_) => 0,
        }
    }
}
