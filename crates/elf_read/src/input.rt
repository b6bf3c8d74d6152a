//! A file to link, in either of its two forms.

ghost use Rattle.std.specs.Prelude.{◌≡◌, ◌<◌, ◌^◌, length, true, false, IfSome, IfOk, IsTrue};

use crate::entry::{GroupHead, Rela, Section, Symbol};
use crate::kind::Kind;
use crate::linked_elf::LinkedElf;
use crate::view::Elf;
use sf_model::Arch;

/// A file to link that was checked: all of it, or an executable or a shared object by its parts.
#[derive(Clone, Copy)]
pub enum ElfInput<'a> {
    /// All its bytes.
    Whole(Elf<'a>),
    /// Its parts.
    Linked(&'a LinkedElf),
}

impl<'a> ElfInput<'a> {
    ghost use Rattle.std.specs.Option.{option_map};
    ghost use Rattle.elf_read.specs.Header as head;
    ghost use Rattle.elf_read.specs.Input.{file, IsSection};
    ghost use Rattle.elf_read.specs.Number.{LiesAt};
    ghost use Rattle.elf_read.specs.Sections as fields;
    ghost use Rattle.elf_read.specs.Views.{section_of, symbol_of, group_view, group_of};

    /// Returns the kind of the file.
    pub fn kind(&self) -> Kind
        ensures { result ≡ head.kind_of (file self.now) }
    {
        match self {
            ElfInput::Whole(elf) => elf.kind(),
            ElfInput::Linked(elf) => elf.kind(),
        }
    }

    /// Returns the machine of the file.
    pub fn arch(&self) -> Arch
        ensures { result ≡ head.arch_of (file self.now) }
    {
        match self {
            ElfInput::Whole(elf) => elf.arch(),
            ElfInput::Linked(elf) => elf.arch(),
        }
    }

    /// Returns how many sections the file has; 0 for a core file.
    pub fn sections(&self) -> u32
        ensures { result ≡ fields.section_count (file self.now) }
    {
        match self {
            ElfInput::Whole(elf) => elf.sections(),
            ElfInput::Linked(elf) => elf.sections(),
        }
    }

    /// Returns the header of a section.
    pub fn section(&self, i: u32) -> Section
        requires { IsSection (file self.now) i }
        ensures { result ≡ section_of (file self.now) i }
    {
        match self {
            ElfInput::Whole(elf) => elf.section(i),
            ElfInput::Linked(elf) => elf.section(i),
        }
    }

    /// Returns whether a section's flags say that its info is the number of a section: it has the flag SHF_INFO_LINK.
    pub fn has_info_link(&self, i: u32) -> bool
        requires { IsSection (file self.now) i }
        ensures { result ≡ fields.has_info_link (file self.now) i }
    {
        match self {
            ElfInput::Whole(elf) => elf.has_info_link(i),
            ElfInput::Linked(elf) => elf.has_info_link(i),
        }
    }

    /// Returns whether a section holds call frame information: it is loaded and has the name `.eh_frame`.
    pub fn is_eh_frame(&self, i: u32) -> bool
        requires { IsSection (file self.now) i }
        ensures { result ≡ fields.is_eh_frame (file self.now) i }
    {
        match self {
            ElfInput::Whole(elf) => elf.is_eh_frame(i),
            ElfInput::Linked(elf) => elf.is_eh_frame(i),
        }
    }

    /// Returns the bytes of a section; no bytes where its type is SHT_NULL or SHT_NOBITS.
    pub fn bytes(&self, i: u32) -> &'a [u8]
        requires section { IsSection (file self.now) i }
        requires frames { head.is_rel (file self.now) ≡ false → fields.is_eh_frame (file self.now) i ≡ true }
        ensures bytes { result.now ≡ fields.section_bytes (file self.now) i }
        ensures small { length result.now < 2 ^ 32 }
    {
        match self {
            ElfInput::Whole(elf) => elf.bytes(i),
            ElfInput::Linked(elf) => elf.bytes(i),
        }
    }

    /// Returns the head of a section group, or none if the section isn't one or the file is no object.
    #[tactic(auto, unfolding(crate::specs::Views::group_of, crate::specs::Used::is_group))]
    pub fn group(&self, i: u32) -> Option<GroupHead<'a>>
        ensures group { option_map group_view result ≡ group_of (file self.now) i }
        // The place of its signature in the file.
        ensures signature { IfSome result (λ head. LiesAt head.signature.place head.signature.rest.now (file self.now)) }
    {
        match self {
            ElfInput::Whole(elf) => elf.group(i),
            ElfInput::Linked(_) => None,
        }
    }

    /// Returns entry `k` of the relocation section `i` of an object.
    pub fn rela(&self, i: u32, k: u32) -> Rela
        requires { IsTrue (head.is_rel (file self.now)) }
        ensures offset { result.offset ≡ (fields.rela_fields (file self.now) i k).r_offset }
        ensures symbol { result.symbol ≡ (fields.rela_fields (file self.now) i k).r_sym }
        ensures kind { result.kind ≡ (fields.rela_fields (file self.now) i k).r_type }
        ensures addend { result.addend ≡ (fields.rela_fields (file self.now) i k).r_addend }
    {
        match self {
            ElfInput::Whole(elf) => elf.rela(i, k),
            ElfInput::Linked(_) => unreachable!(),
        }
    }

    /// Returns symbol `k` of the symbol table `table` of an object.
    pub fn symbol(&self, table: u32, k: u32) -> Symbol
        requires { IsTrue (head.is_rel (file self.now)) }
        ensures { result ≡ symbol_of (file self.now) table k }
    {
        match self {
            ElfInput::Whole(elf) => elf.symbol(table, k),
            ElfInput::Linked(_) => unreachable!(),
        }
    }

    /// Returns the number of the section that member `k` of a group is. Only an object has groups.
    pub fn member(&self, i: u32, k: u32) -> u32
        requires { IsTrue (head.is_rel (file self.now)) }
        ensures { result ≡ fields.group_member (file self.now) i k }
    {
        match self {
            ElfInput::Whole(elf) => elf.member(i, k),
            ElfInput::Linked(_) => unreachable!(),
        }
    }
}
