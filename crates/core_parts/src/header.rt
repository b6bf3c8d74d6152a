//! The file header of a core file, by its bytes alone (ELF64 gABI, "ELF Header").

ghost use Rattle.std.specs.Prelude.{◌≡◌, ◌-◌, drop, length, IsTrue};
ghost use Rattle.elf_read.specs.Checks.{is_known_machine};
ghost use Rattle.elf_read.specs.Header.{header_fields};
ghost use Rattle.elf_read.specs.Header as fields;
ghost use Rattle.elf_read.specs.Number.{field_at};
ghost use Rattle.core_parts.specs.CoreHeader.{IsCoreHeader, IsElf64, IsTable};

use elf_read::layout::{
    E_MACHINE, E_PHENTSIZE, E_PHNUM, E_PHOFF, E_TYPE, E_VERSION, EI_CLASS, EI_DATA, EI_VERSION,
    ELF_CLASS_64, ELF_DATA_LITTLE, ELF_MAGIC, EM_AARCH64, EM_X86_64, ET_CORE, EV_CURRENT,
    FILE_HEADER_LEN, PN_XNUM, PROGRAM_HEADER_LEN,
};
use elf_read::{u16_at, u32_at, u64_at};
use sf_bytes::FilePart;
use sf_model::Arch;

// Returns the bytes from a place on.
fn bytes_from(bytes: &[u8], place: u64) -> &[u8]
    ensures rest { result.now ≡ drop place bytes.now }
    ensures len { length result.now ≡ length bytes.now - place }
{
    match bytes.get(place as usize..) {
        Some(rest) => rest,
        None => &[],
    }
}

// Returns the byte at a place, or 0 past the end.
#[tactic(auto, unfolding(elf_read::specs::Number::front_number))]
fn u8_at(bytes: &[u8], place: u64) -> u8
    ensures { result ≡ field_at 1 place bytes.now }
{
    match bytes_from(bytes, place) {
        [byte, ..] => *byte,
        [] => 0,
    }
}

// Returns whether these are the first bytes of a little-endian file of 64 bits.
#[tactic(auto, unfolding(elf_read::specs::Header::header_fields))]
fn is_elf64(header: &[u8]) -> bool
    ensures { IsTrue result → IsElf64 header.now }
{
    if (header.len() as u64) < FILE_HEADER_LEN {
        return false;
    }
    if u32_at(header, 0) != ELF_MAGIC || u32_at(header, E_VERSION) != u32::from(EV_CURRENT) {
        return false;
    }
    u8_at(header, EI_CLASS) == ELF_CLASS_64
        && u8_at(header, EI_DATA) == ELF_DATA_LITTLE
        && u8_at(header, EI_VERSION) == EV_CURRENT
}

// Returns whether the machine is one of the two.
#[tactic(auto, unfolding(elf_read::specs::Header::header_fields))]
fn is_for_known_machine(header: &[u8]) -> bool
    ensures { result ≡ is_known_machine (header_fields header.now).e_machine }
{
    let machine = u16_at(header, E_MACHINE);
    machine == EM_X86_64 || machine == EM_AARCH64
}

/// Returns whether a file header is that of a core file of one of the two machines that needs no section header: the
/// number of its program headers is there itself.
#[tactic(auto, unfolding(elf_read::specs::Header::header_fields))]
pub fn is_core_header(header: &[u8]) -> bool
    ensures { IsTrue result → IsCoreHeader header.now }
{
    if !is_elf64(header) || !is_for_known_machine(header) {
        return false;
    }
    u16_at(header, E_TYPE) == ET_CORE
        && u64::from(u16_at(header, E_PHENTSIZE)) == PROGRAM_HEADER_LEN
        && u16_at(header, E_PHNUM) != PN_XNUM
}

/// Returns how many program headers there are.
#[tactic(auto, unfolding(elf_read::specs::Header::header_fields))]
pub fn e_phnum(header: &[u8]) -> u16
    ensures { result ≡ (header_fields header.now).e_phnum }
{
    u16_at(header, E_PHNUM)
}

/// Returns the place of the program headers.
#[tactic(auto, unfolding(elf_read::specs::Header::header_fields))]
pub fn e_phoff(header: &[u8]) -> u64
    ensures { result ≡ (header_fields header.now).e_phoff }
{
    u64_at(header, E_PHOFF)
}

/// Returns the machine of the file.
#[tactic(auto, unfolding(elf_read::specs::Header::arch_of, elf_read::specs::Header::header_fields))]
pub fn arch_of(header: &[u8]) -> Arch
    ensures { result ≡ fields.arch_of header.now }
{
    match u16_at(header, E_MACHINE) {
        EM_X86_64 => Arch::Amd64,
        _ => Arch::Aarch64,
    }
}

/// Returns whether a part is the program headers of a file with this header and this length.
pub fn is_table(header: &[u8], table: &FilePart, len: u64) -> bool
    ensures { IsTrue result → IsTable header.now table.now len }
{
    let size = table.bytes.len() as u64;
    table.place == e_phoff(header)
        && size == PROGRAM_HEADER_LEN * u64::from(e_phnum(header))
        && u128::from(table.place) + u128::from(size) <= u128::from(len)
}
