//! The headers of an executable or a shared object of which parts were read.

ghost use Rattle.std.specs.Prelude.{◌≡◌, ◌<◌, ◌*◌, ◌^◌, length};
ghost use Rattle.elf_read.specs.Header.{header_fields};
ghost use Rattle.elf_read.specs.Number.{window};
ghost use Rattle.elf_read.specs.Sections.{section_count as count_of};

use crate::section_header::SectionHeader;
use boxcar::tag::Tag;

/// The headers of an executable or a shared object that has sections with names.
#[derive(Clone, Copy)]
pub struct Headers<'a> {
    /// How many bytes the file has.
    pub len: u64,
    /// All the file's bytes. They are there for clauses, and no code can read them.
    pub whole: &'a Tag,
    /// The file header.
    pub header: &'a [u8],
    /// The section headers.
    pub sections: &'a [u8],
    /// How many sections there are.
    pub count: u32,
    ghost sized: { len ≡ length whole.now.numbers },
    ghost small: { length whole.now.numbers < 2 ^ 32 },
    ghost header_is: { header.now ≡ window 0 64 whole.now.numbers },
    ghost sections_are: { sections.now ≡ window (header_fields whole.now.numbers).e_shoff (64 * count) whole.now.numbers },
    ghost counted: { count ≡ count_of whole.now.numbers },
}

impl<'a> Headers<'a> {
    ghost use Rattle.elf_read.specs.Linked.{whole_of};
    ghost use Rattle.elf_read.specs.Sections.{section_fields, fields_of};

    /// Returns the header of a section.
    pub fn section(&self, i: u32) -> SectionHeader<'a>
        requires { i < self.now.count }
        ensures { fields_of result ≡ section_fields (whole_of self.now) i }
    {
        SectionHeader::at(self.sections, i)
    }
}
