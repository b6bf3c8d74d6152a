//! Checks of the file header and of section 0's header.

ghost use Rattle.std.specs.Prelude.{◌≡◌, ◌<◌};
ghost use Rattle.elf_read.specs.Checks as spec;

use crate::check::require;
use crate::fault::ElfFault;
use crate::header::{e_machine, e_phnum, e_shentsize, e_shoff, e_type, is_core_file};
use crate::layout::{
    E_MACHINE, E_SHENTSIZE, E_SHOFF, E_TYPE, E_VERSION, EI_CLASS, EI_DATA, EI_VERSION,
    ELF_CLASS_64, ELF_DATA_LITTLE, ELF_MAGIC, EM_AARCH64, EM_X86_64, ET_CORE, ET_REL, EV_CURRENT,
    FILE_HEADER_LEN, PN_XNUM, SECTION_HEADER_LEN,
};
use crate::number::{lies, u8_at, u32_at};

/// Checks the identification: the magic bytes, the class, the byte order and the version.
#[tactic(auto, unfolding(crate::specs::Checks::identity_check))]
pub fn check_identity(file: &[u8]) -> Result<(), ElfFault>
    ensures { result ≡ spec.identity_check file.now }
{
    let len = file.len() as u64;
    require(FILE_HEADER_LEN <= len, ElfFault::Short(len))?;
    require(u32_at(file, 0) == ELF_MAGIC, ElfFault::NotElf(0))?;
    require(
        u8_at(file, EI_CLASS) == ELF_CLASS_64,
        ElfFault::Class(EI_CLASS),
    )?;
    require(
        u8_at(file, EI_DATA) == ELF_DATA_LITTLE,
        ElfFault::Order(EI_DATA),
    )?;
    require(
        u8_at(file, EI_VERSION) == EV_CURRENT,
        ElfFault::Version(EI_VERSION),
    )?;
    require(
        u32_at(file, E_VERSION) == u32::from(EV_CURRENT),
        ElfFault::Version(E_VERSION),
    )
}

// Returns whether the machine is one of the two.
fn is_known_machine(machine: u16) -> bool
    ensures { result ≡ spec.is_known_machine machine }
{
    machine == EM_X86_64 || machine == EM_AARCH64
}

// Returns whether the type is one of the four.
fn is_known_type(kind: u16) -> bool
    ensures { result ≡ spec.is_known_type kind }
{
    ET_REL <= kind && kind <= ET_CORE
}

/// Checks the machine and the type.
#[tactic(auto, unfolding(crate::specs::Checks::purpose_check))]
pub fn check_purpose(file: &[u8]) -> Result<(), ElfFault>
    ensures { result ≡ spec.purpose_check file.now }
{
    require(
        is_known_machine(e_machine(file)),
        ElfFault::Machine(E_MACHINE),
    )?;
    require(is_known_type(e_type(file)), ElfFault::Kind(E_TYPE))
}

/// Returns whether section 0's header is needed: for sections, or for the number of segments.
#[tactic(auto, unfolding(crate::specs::Checks::needs_sections))]
pub fn needs_sections(file: &[u8]) -> bool
    ensures { result ≡ spec.needs_sections file.now }
{
    (e_shoff(file) != 0 && !is_core_file(file)) || e_phnum(file) == PN_XNUM
}

// Returns whether section 0's header lies in the file.
#[tactic(auto, unfolding(crate::specs::Checks::has_first_section))]
fn has_first_section(file: &[u8]) -> bool
    ensures { result ≡ spec.has_first_section file.now }
{
    let place = e_shoff(file);
    place != 0 && lies(file.len() as u64, place, 1, 64)
}

/// Checks section 0's header.
#[tactic(auto, unfolding(crate::specs::Checks::first_section_check))]
pub fn check_first_section(file: &[u8]) -> Result<(), ElfFault>
    ensures { result ≡ spec.first_section_check file.now }
{
    require(
        u64::from(e_shentsize(file)) == SECTION_HEADER_LEN,
        ElfFault::EntrySize(E_SHENTSIZE),
    )?;
    require(has_first_section(file), ElfFault::OutOfFile(E_SHOFF))
}
