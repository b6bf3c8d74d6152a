//! The opcodes of call frame instructions (DWARF 5, section 7.24, table 7.29; DWARF for the Arm 64-bit Architecture; GNU).

/// `DW_CFA_nop`.
pub const DW_CFA_NOP: u8 = 0x00;

/// `DW_CFA_advance_loc1`.
pub const DW_CFA_ADVANCE_LOC1: u8 = 0x02;

/// `DW_CFA_advance_loc2`.
pub const DW_CFA_ADVANCE_LOC2: u8 = 0x03;

/// `DW_CFA_advance_loc4`.
pub const DW_CFA_ADVANCE_LOC4: u8 = 0x04;

/// `DW_CFA_offset_extended`.
pub const DW_CFA_OFFSET_EXTENDED: u8 = 0x05;

/// `DW_CFA_restore_extended`.
pub const DW_CFA_RESTORE_EXTENDED: u8 = 0x06;

/// `DW_CFA_undefined`.
pub const DW_CFA_UNDEFINED: u8 = 0x07;

/// `DW_CFA_same_value`.
pub const DW_CFA_SAME_VALUE: u8 = 0x08;

/// `DW_CFA_register`.
pub const DW_CFA_REGISTER: u8 = 0x09;

/// `DW_CFA_remember_state`.
pub const DW_CFA_REMEMBER_STATE: u8 = 0x0a;

/// `DW_CFA_restore_state`.
pub const DW_CFA_RESTORE_STATE: u8 = 0x0b;

/// `DW_CFA_def_cfa`.
pub const DW_CFA_DEF_CFA: u8 = 0x0c;

/// `DW_CFA_def_cfa_register`.
pub const DW_CFA_DEF_CFA_REGISTER: u8 = 0x0d;

/// `DW_CFA_def_cfa_offset`.
pub const DW_CFA_DEF_CFA_OFFSET: u8 = 0x0e;

/// `DW_CFA_def_cfa_expression`.
pub const DW_CFA_DEF_CFA_EXPRESSION: u8 = 0x0f;

/// `DW_CFA_expression`.
pub const DW_CFA_EXPRESSION: u8 = 0x10;

/// `DW_CFA_offset_extended_sf`.
pub const DW_CFA_OFFSET_EXTENDED_SF: u8 = 0x11;

/// `DW_CFA_def_cfa_sf`.
pub const DW_CFA_DEF_CFA_SF: u8 = 0x12;

/// `DW_CFA_def_cfa_offset_sf`.
pub const DW_CFA_DEF_CFA_OFFSET_SF: u8 = 0x13;

/// `DW_CFA_val_offset`.
pub const DW_CFA_VAL_OFFSET: u8 = 0x14;

/// `DW_CFA_val_offset_sf`.
pub const DW_CFA_VAL_OFFSET_SF: u8 = 0x15;

/// `DW_CFA_val_expression`.
pub const DW_CFA_VAL_EXPRESSION: u8 = 0x16;

/// `DW_CFA_AARCH64_negate_ra_state`.
pub const DW_CFA_AARCH64_NEGATE_RA_STATE: u8 = 0x2d;

/// `DW_CFA_GNU_args_size`.
pub const DW_CFA_GNU_ARGS_SIZE: u8 = 0x2e;

/// The first of the 64 opcodes of `DW_CFA_advance_loc`, whose low six bits are the advance.
pub const DW_CFA_ADVANCE_LOC: u8 = 0x40;

/// The first of the 64 opcodes of `DW_CFA_offset`, whose low six bits are the register.
pub const DW_CFA_OFFSET: u8 = 0x80;

/// The first of the 64 opcodes of `DW_CFA_restore`, whose low six bits are the register.
pub const DW_CFA_RESTORE: u8 = 0xc0;
