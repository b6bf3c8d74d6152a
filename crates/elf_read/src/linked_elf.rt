//! An executable or a shared object that was checked by its parts.

ghost use Rattle.std.specs.Prelude.{◌≡◌, ◌<◌, ◌*◌, ◌^◌, ℕ, true, false, Ok, length};
ghost use Rattle.elf_read.specs.Header.{header_fields, is_core, is_rel};
ghost use Rattle.elf_read.specs.Number.{window};
ghost use Rattle.elf_read.specs.Parsing.{file_check};
ghost use Rattle.elf_read.specs.Sections as spec;

use crate::entry::Section;
use crate::header;
use crate::headers::Headers;
use crate::kind::Kind;
use boxcar::tag::Tag;
use sf_model::Arch;

/// An executable or a shared object that passes every check of a whole file, with the parts of it that are read later.
#[derive(Drop)]
pub struct LinkedElf {
    /// All the file's bytes. They are there for clauses, and no code can read them.
    pub whole: Tag,
    /// How many bytes the file has.
    pub len: u64,
    /// The file header.
    pub header: Vec<u8>,
    /// The section headers.
    pub sections: Vec<u8>,
    /// How many sections there are.
    pub count: u32,
    /// The number of the one section with call frame information.
    pub eh_frame: u32,
    /// The bytes of that section.
    pub eh_frame_bytes: Vec<u8>,
    ghost sized: { len ≡ length whole.numbers },
    ghost small: { length whole.numbers < 2 ^ 32 },
    ghost header_is: { header.items ≡ window 0 64 whole.numbers },
    ghost sections_are: { sections.items ≡ window (header_fields whole.numbers).e_shoff (64 * count) whole.numbers },
    ghost counted: { count ≡ spec.section_count whole.numbers },
    ghost bytes_are: { eh_frame_bytes.items ≡ spec.section_bytes whole.numbers eh_frame },
    ghost checked: { file_check whole.numbers ≡ Ok tt },
    ghost no_object: { is_rel whole.numbers ≡ false },
    ghost no_core: { is_core whole.numbers ≡ false },
    ghost within: { eh_frame < spec.section_count whole.numbers },
    ghost is: { spec.is_eh_frame whole.numbers eh_frame ≡ true },
    ghost only: { (k : ℕ) → k < spec.section_count whole.numbers → spec.is_eh_frame whole.numbers k ≡ true → k ≡ eh_frame },
}

impl LinkedElf {
    ghost use Rattle.elf_read.specs.Header as head;
    ghost use Rattle.elf_read.specs.Linked.{linked_file, whole_of};
    ghost use Rattle.elf_read.specs.Views.{section_of};

    // Lends the headers.
    fn headers(&self) -> Headers<'_>
        ensures file { whole_of result ≡ linked_file self.now }
        ensures count { result.count ≡ self.now.count }
    {
        Headers {
            len: self.len,
            whole: &self.whole,
            header: &self.header,
            sections: &self.sections,
            count: self.count,
        }
    }

    /// Returns how many bytes the file has.
    pub fn len(&self) -> u64
        ensures { result ≡ length (linked_file self.now) }
    {
        self.len
    }

    /// Returns the kind of the file.
    pub fn kind(&self) -> Kind
        ensures { result ≡ head.kind_of (linked_file self.now) }
    {
        header::kind_of(&self.header)
    }

    /// Returns the machine of the file.
    pub fn arch(&self) -> Arch
        ensures { result ≡ head.arch_of (linked_file self.now) }
    {
        header::arch_of(&self.header)
    }

    /// Returns how many sections the file has.
    pub fn sections(&self) -> u32
        ensures { result ≡ spec.section_count (linked_file self.now) }
    {
        self.count
    }

    /// Returns the header of a section.
    pub fn section(&self, i: u32) -> Section
        requires { i < spec.section_count (linked_file self.now) }
        ensures { result ≡ section_of (linked_file self.now) i }
    {
        self.headers().section(i).section()
    }

    /// Returns whether a section's flags say that its info is the number of a section: it has the flag SHF_INFO_LINK.
    #[tactic(auto, unfolding(crate::specs::Sections::has_info_link))]
    pub fn has_info_link(&self, i: u32) -> bool
        requires { i < spec.section_count (linked_file self.now) }
        ensures { result ≡ spec.has_info_link (linked_file self.now) i }
    {
        self.headers().section(i).has_info_link()
    }

    /// Returns whether a section holds call frame information: it is loaded and has the name `.eh_frame`.
    pub fn is_eh_frame(&self, i: u32) -> bool
        requires { i < spec.section_count (linked_file self.now) }
        ensures { result ≡ spec.is_eh_frame (linked_file self.now) i }
    {
        i == self.eh_frame
    }

    /// Returns the bytes of the section with call frame information.
    pub fn bytes(&self, i: u32) -> &[u8]
        requires index { i < spec.section_count (linked_file self.now) }
        requires is { spec.is_eh_frame (linked_file self.now) i ≡ true }
        ensures bytes { result.now ≡ spec.section_bytes (linked_file self.now) i }
        ensures small { length result.now < 2 ^ 32 }
    {
        &self.eh_frame_bytes
    }
}
