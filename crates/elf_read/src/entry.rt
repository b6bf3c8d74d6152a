//! What a file's tables hold, as values.

use crate::text::Text;

/// A section header's fields (ELF64 gABI, "Sections").
#[derive(Clone, Copy, PartialEq, Eq)]
pub struct Section {
    /// sh_type.
    pub kind: u32,
    /// sh_flags.
    pub flags: u64,
    /// sh_addr.
    pub addr: u64,
    /// sh_offset: the place of its bytes in the file.
    pub offset: u64,
    /// sh_size, in bytes.
    pub size: u64,
    /// sh_link.
    pub link: u32,
    /// sh_info.
    pub info: u32,
    /// sh_addralign, in bytes.
    pub align: u64,
    /// sh_entsize: how many bytes an entry has.
    pub entry: u64,
}

/// A segment (ELF64 gABI, "Program Header").
#[derive(Clone, Copy)]
pub struct Segment<'a> {
    /// p_type.
    pub kind: u32,
    /// p_vaddr: its address.
    pub vaddr: u64,
    /// p_offset: the place of its bytes in the file.
    pub place: u64,
    /// Its bytes in the file.
    pub bytes: &'a [u8],
}

/// A relocation with an addend (ELF64 gABI, "Relocation").
#[derive(Clone, Copy, Debug, PartialEq, Eq)]
pub struct Rela {
    /// r_offset: the place of its field in the section that it applies to.
    pub offset: u64,
    /// The number of its symbol.
    pub symbol: u32,
    /// Its type.
    pub kind: u32,
    /// r_addend.
    pub addend: i64,
}

/// A symbol (ELF64 gABI, "Symbol Table").
#[derive(Clone, Copy, Debug, PartialEq, Eq)]
pub struct Symbol {
    /// st_name: the place of its name in the string table.
    pub name: u32,
    /// st_shndx: the number of its section, or a reserved index.
    pub section: u16,
    /// st_value.
    pub value: u64,
}

/// A section group (ELF64 gABI, "Section Groups").
#[derive(Clone, Copy)]
pub struct GroupHead<'a> {
    /// True if one copy of it is kept.
    pub comdat: bool,
    /// What its copies have in common.
    pub signature: Text<'a>,
    /// How many sections it names.
    pub count: u32,
}
