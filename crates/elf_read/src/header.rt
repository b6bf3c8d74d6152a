//! The fields of the file header.

ghost use Rattle.std.specs.Prelude.{◌≡◌};
ghost use Rattle.elf_read.specs.Header as spec;
ghost use Rattle.elf_read.specs.Header.{is_core, is_rel};

use crate::kind::Kind;
use crate::layout::{
    E_MACHINE, E_PHENTSIZE, E_PHNUM, E_PHOFF, E_SHENTSIZE, E_SHNUM, E_SHOFF, E_SHSTRNDX, E_TYPE,
    EM_X86_64, ET_CORE, ET_DYN, ET_EXEC, ET_REL,
};
use crate::number::{u16_at, u64_at};
use sf_model::Arch;

/// Returns the file's type.
#[tactic(auto, unfolding(crate::specs::Header::header_fields))]
pub fn e_type(file: &[u8]) -> u16
    ensures { result ≡ (spec.header_fields file.now).e_type }
{
    u16_at(file, E_TYPE)
}

/// Returns the number of the machine.
#[tactic(auto, unfolding(crate::specs::Header::header_fields))]
pub fn e_machine(file: &[u8]) -> u16
    ensures { result ≡ (spec.header_fields file.now).e_machine }
{
    u16_at(file, E_MACHINE)
}

/// Returns the place of the program headers.
#[tactic(auto, unfolding(crate::specs::Header::header_fields))]
pub fn e_phoff(file: &[u8]) -> u64
    ensures { result ≡ (spec.header_fields file.now).e_phoff }
{
    u64_at(file, E_PHOFF)
}

/// Returns the place of the section headers.
#[tactic(auto, unfolding(crate::specs::Header::header_fields))]
pub fn e_shoff(file: &[u8]) -> u64
    ensures { result ≡ (spec.header_fields file.now).e_shoff }
{
    u64_at(file, E_SHOFF)
}

/// Returns how many bytes a program header has.
#[tactic(auto, unfolding(crate::specs::Header::header_fields))]
pub fn e_phentsize(file: &[u8]) -> u16
    ensures { result ≡ (spec.header_fields file.now).e_phentsize }
{
    u16_at(file, E_PHENTSIZE)
}

/// Returns how many program headers there are, or PN_XNUM.
#[tactic(auto, unfolding(crate::specs::Header::header_fields))]
pub fn e_phnum(file: &[u8]) -> u16
    ensures { result ≡ (spec.header_fields file.now).e_phnum }
{
    u16_at(file, E_PHNUM)
}

/// Returns how many bytes a section header has.
#[tactic(auto, unfolding(crate::specs::Header::header_fields))]
pub fn e_shentsize(file: &[u8]) -> u16
    ensures { result ≡ (spec.header_fields file.now).e_shentsize }
{
    u16_at(file, E_SHENTSIZE)
}

/// Returns how many section headers there are, or 0.
#[tactic(auto, unfolding(crate::specs::Header::header_fields))]
pub fn e_shnum(file: &[u8]) -> u16
    ensures { result ≡ (spec.header_fields file.now).e_shnum }
{
    u16_at(file, E_SHNUM)
}

/// Returns the number of the section with the sections' names, or SHN_XINDEX.
#[tactic(auto, unfolding(crate::specs::Header::header_fields))]
pub fn e_shstrndx(file: &[u8]) -> u16
    ensures { result ≡ (spec.header_fields file.now).e_shstrndx }
{
    u16_at(file, E_SHSTRNDX)
}

/// Returns whether the file is a core file.
pub fn is_core_file(file: &[u8]) -> bool
    ensures { result ≡ is_core file.now }
{
    e_type(file) == ET_CORE
}

/// Returns whether the file is an object that is not linked yet.
pub fn is_object(file: &[u8]) -> bool
    ensures { result ≡ is_rel file.now }
{
    e_type(file) == ET_REL
}

/// Returns the kind of the file.
#[tactic(auto, unfolding(crate::specs::Header::kind_of))]
pub fn kind_of(file: &[u8]) -> Kind
    ensures { result ≡ spec.kind_of file.now }
{
    match e_type(file) {
        ET_REL => Kind::Rel,
        ET_EXEC => Kind::Exec,
        ET_DYN => Kind::Dyn,
        _ => Kind::Core,
    }
}

/// Returns the machine of the file.
#[tactic(auto, unfolding(crate::specs::Header::arch_of))]
pub fn arch_of(file: &[u8]) -> Arch
    ensures { result ≡ spec.arch_of file.now }
{
    match e_machine(file) {
        EM_X86_64 => Arch::Amd64,
        _ => Arch::Aarch64,
    }
}
