//! The numbers of the encodings, by the standard's names without their prefix `DW_EH_PE_`.

/// How many values a format has: it is the low four bits.
pub const FORMATS: u8 = 16;

/// An absolute pointer of eight bytes.
pub const ABSPTR: u8 = 0x00;

/// An unsigned LEB128 number.
pub const ULEB128: u8 = 0x01;

/// Two unsigned bytes.
pub const UDATA2: u8 = 0x02;

/// Four unsigned bytes.
pub const UDATA4: u8 = 0x03;

/// Eight unsigned bytes.
pub const UDATA8: u8 = 0x04;

/// A signed LEB128 number.
pub const SLEB128: u8 = 0x09;

/// Two signed bytes.
pub const SDATA2: u8 = 0x0a;

/// Four signed bytes.
pub const SDATA4: u8 = 0x0b;

/// Eight signed bytes.
pub const SDATA8: u8 = 0x0c;

/// The application relative to the field's own address, shifted down by the format's four bits.
pub const PCREL: u8 = 1;

/// The aligned application, shifted down by the format's four bits.
pub const ALIGNED: u8 = 5;

/// How many values an application has: the indirect bit is above its three bits.
pub const APPLICATIONS: u8 = 8;
