//! The numbers of the formats, by the standards' names.

// ELF64 gABI, "ELF Header".
/// ELFMAG, ELFCLASS64, ELFDATA2LSB, EV_CURRENT, and nine bytes of zero.
pub(crate) const E_IDENT: [u8; 16] = [0x7f, b'E', b'L', b'F', 2, 1, 1, 0, 0, 0, 0, 0, 0, 0, 0, 0];

pub(crate) const ET_REL: u16 = 1;

pub(crate) const EM_X86_64: u16 = 62;

pub(crate) const EV_CURRENT: u32 = 1;
/// The file header's length in bytes.
pub(crate) const FILE_HEADER_LEN: u32 = 64;

// "Sections".
pub(crate) const SHT_PROGBITS: u32 = 1;

pub(crate) const SHT_SYMTAB: u32 = 2;

pub(crate) const SHT_STRTAB: u32 = 3;

pub(crate) const SHT_RELA: u32 = 4;

pub(crate) const SHF_ALLOC: u64 = 2;

pub(crate) const SHF_EXECINSTR: u64 = 4;

pub(crate) const SHF_INFO_LINK: u64 = 0x40;
/// A section header's length in bytes.
pub(crate) const SECTION_HEADER_LEN: u32 = 64;
/// The number of sections, with section 0.
pub(crate) const SECTION_COUNT: u16 = 7;

// "Symbol Table" and "Relocation".
/// The length in bytes of a symbol, and of a relocation with an addend.
pub(crate) const ENTRY_LEN: u32 = 24;
/// The number of symbols.
pub(crate) const SYMBOL_COUNT: u32 = 2;
/// STB_LOCAL and STT_SECTION.
pub(crate) const SECTION_SYMBOL: u8 = 3;
/// The field's four bytes: the symbol's value and the addend, counted from the field (x86-64 psABI).
pub(crate) const R_X86_64_PC32: u64 = 2;

// The sections of the made object, by their numbers.
pub(crate) const TEXT: u16 = 1;

pub(crate) const EH_FRAME: u32 = 2;

pub(crate) const SYMTAB: u32 = 4;

pub(crate) const STRTAB: u32 = 5;

pub(crate) const SHSTRTAB: u16 = 6;

/// A function's length in bytes.
pub(crate) const FUNCTION_LEN: u32 = 32;
/// The instruction nop of x86-64.
pub(crate) const NOP: u8 = 0x90;

// The section .eh_frame (LSB).
/// The length of the common information entry in bytes.
pub(crate) const CIE_LEN: u32 = 24;
/// The length of a frame description entry in bytes.
pub(crate) const FDE_LEN: u32 = 32;
/// The place of the field PC begin in a frame description entry.
pub(crate) const PC_BEGIN: u32 = 8;
/// The length of an entry's field `length`, which does not count itself, and of the field after it.
pub(crate) const WORD_LEN: u32 = 4;
/// How many bytes of instructions a frame description entry has.
pub(crate) const INSTRUCTIONS_LEN: usize = 15;

// Pointer encodings (LSB, "DWARF Exception Header Encoding").
pub(crate) const DW_EH_PE_SDATA4: u8 = 0x0b;

pub(crate) const DW_EH_PE_PCREL: u8 = 0x10;

// Call frame instructions (DWARF 5, section 7.24).
pub(crate) const DW_CFA_ADVANCE_LOC: u8 = 0x40;

pub(crate) const DW_CFA_OFFSET: u8 = 0x80;

pub(crate) const DW_CFA_DEF_CFA: u8 = 0x0c;

pub(crate) const DW_CFA_DEF_CFA_REGISTER: u8 = 0x0d;

pub(crate) const DW_CFA_DEF_CFA_OFFSET: u8 = 0x0e;

// Registers (x86-64 psABI, "DWARF Register Number Mapping").
pub(crate) const REGISTER_RBP: u8 = 6;

pub(crate) const REGISTER_RSP: u8 = 7;

pub(crate) const REGISTER_R10: u8 = 10;
/// The return address's column.
pub(crate) const RETURN_ADDRESS: u8 = 16;
