//! The numbers of ELF64 files by the standard's names: where each field is, and what its values mean (ELF64
//! gABI, "File Header", "Section Header", "Symbol Table", "Relocation", "Program Header").

/// How many bytes the file header has.
pub const FILE_HEADER_LEN: u64 = 64;
/// The first four bytes of a file, as a number.
pub const ELF_MAGIC: u32 = 0x464c_457f;
/// The class of files of 64 bits, ELFCLASS64.
pub const ELF_CLASS_64: u8 = 2;
/// Little-endian numbers, ELFDATA2LSB.
pub const ELF_DATA_LITTLE: u8 = 1;
/// The one version.
pub const EV_CURRENT: u8 = 1;

/// A relocatable object.
pub const ET_REL: u16 = 1;
/// An executable at fixed addresses.
pub const ET_EXEC: u16 = 2;
/// A shared object, or an executable that can lie anywhere.
pub const ET_DYN: u16 = 3;
/// A core file.
pub const ET_CORE: u16 = 4;

/// AMD64.
pub const EM_X86_64: u16 = 62;
/// AArch64.
pub const EM_AARCH64: u16 = 183;

/// The place of the class byte.
pub const EI_CLASS: u64 = 4;
/// The place of the byte order.
pub const EI_DATA: u64 = 5;
/// The place of the version byte.
pub const EI_VERSION: u64 = 6;
/// The place of the kind of file, two bytes.
pub const E_TYPE: u64 = 16;
/// The place of the machine, two bytes.
pub const E_MACHINE: u64 = 18;
/// The place of the version word, four bytes.
pub const E_VERSION: u64 = 20;
/// The place of the program headers' file offset, eight bytes.
pub const E_PHOFF: u64 = 32;
/// The place of the section headers' file offset, eight bytes.
pub const E_SHOFF: u64 = 40;
/// The place of a program header's length, two bytes.
pub const E_PHENTSIZE: u64 = 54;
/// The place of the number of program headers, two bytes.
pub const E_PHNUM: u64 = 56;
/// The place of a section header's length, two bytes.
pub const E_SHENTSIZE: u64 = 58;
/// The place of the number of section headers, two bytes.
pub const E_SHNUM: u64 = 60;
/// The place of the name table's section number, two bytes.
pub const E_SHSTRNDX: u64 = 62;

/// Section 0's info is the number of segments.
pub const PN_XNUM: u16 = 0xffff;
/// Section 0's link is the number of the name table.
pub const SHN_XINDEX: u16 = 0xffff;
/// From here on an index is no section's number.
pub const SHN_LORESERVE: u16 = 0xff00;
/// A symbol of no section here: another file has it.
pub const SHN_UNDEF: u16 = 0;
/// A symbol whose value is no address in a section.
pub const SHN_ABS: u16 = 0xfff1;

/// How many bytes a section header has. The places below count from its start.
pub const SECTION_HEADER_LEN: u64 = 64;
/// The place of the name's offset in the name table, four bytes.
pub const SH_NAME: u64 = 0;
/// The place of the section's type, four bytes.
pub const SH_TYPE: u64 = 4;
/// The place of the section's flags, eight bytes.
pub const SH_FLAGS: u64 = 8;
/// The place of the section's address, eight bytes.
pub const SH_ADDR: u64 = 16;
/// The place of the file offset of the section's bytes, eight bytes.
pub const SH_OFFSET: u64 = 24;
/// The place of the section's size, eight bytes.
pub const SH_SIZE: u64 = 32;
/// The place of the number of a linked section, four bytes.
pub const SH_LINK: u64 = 40;
/// The place of the type's extra number, four bytes.
pub const SH_INFO: u64 = 44;
/// The place of the alignment, eight bytes.
pub const SH_ADDRALIGN: u64 = 48;
/// The place of the length of one entry, eight bytes.
pub const SH_ENTSIZE: u64 = 56;

/// A section header that is not used.
pub const SHT_NULL: u32 = 0;
/// Bytes whose meaning is the program's.
pub const SHT_PROGBITS: u32 = 1;
/// A symbol table.
pub const SHT_SYMTAB: u32 = 2;
/// A string table.
pub const SHT_STRTAB: u32 = 3;
/// Relocations with addends.
pub const SHT_RELA: u32 = 4;
/// A section without bytes in the file.
pub const SHT_NOBITS: u32 = 8;
/// Relocations without addends.
pub const SHT_REL: u32 = 9;
/// A section group.
pub const SHT_GROUP: u32 = 17;
/// Compact relocations, a form that is proposed for the gABI.
pub const SHT_CREL: u32 = 0x4000_0014;
/// Call frame information (System V AMD64 psABI, "Sections").
pub const SHT_X86_64_UNWIND: u32 = 0x7000_0001;

/// The section is loaded.
pub const SHF_ALLOC: u64 = 2;
/// The section's info is the number of a section.
pub const SHF_INFO_LINK: u64 = 0x40;
/// The section's bytes are compressed.
pub const SHF_COMPRESSED: u64 = 0x800;

/// How many bytes a program header has. The places below count from its start.
pub const PROGRAM_HEADER_LEN: u64 = 56;
/// The place of the segment's type, four bytes.
pub const P_TYPE: u64 = 0;
/// The place of the segment's flags, four bytes.
pub const P_FLAGS: u64 = 4;
/// The place of the file offset of the segment's bytes, eight bytes.
pub const P_OFFSET: u64 = 8;
/// The place of the segment's address, eight bytes.
pub const P_VADDR: u64 = 16;
/// The place of the number of bytes in the file, eight bytes.
pub const P_FILESZ: u64 = 32;
/// The place of the number of bytes in memory, eight bytes.
pub const P_MEMSZ: u64 = 40;

/// The flag of an executable segment.
pub const PF_X: u64 = 0x1;

/// How many bytes a symbol has, and a relocation with an addend. The places below count from its start.
pub const ENTRY_LEN: u64 = 24;
/// The place of the name's offset in the string table, four bytes.
pub const ST_NAME: u64 = 0;
/// The place of the symbol's section number, two bytes.
pub const ST_SHNDX: u64 = 6;
/// The place of the symbol's value, eight bytes.
pub const ST_VALUE: u64 = 8;
/// The place of the field's offset in its section, eight bytes.
pub const R_OFFSET: u64 = 0;
/// The place of the relocation's type, four bytes.
pub const R_TYPE: u64 = 8;
/// The place of the number of its symbol, four bytes.
pub const R_SYMBOL: u64 = 12;
/// The place of the addend, eight bytes.
pub const R_ADDEND: u64 = 16;

/// How many bytes the words of a group have.
pub const GROUP_WORD_LEN: u64 = 4;
/// The name of a section with call frame information.
pub const EH_FRAME: &[u8] = b".eh_frame";
