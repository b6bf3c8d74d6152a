//! The numbers of the format (SFrame Version 2), each with the specification's name of its field.

/// `SFRAME_MAGIC`, the first two bytes, little-endian.
pub const MAGIC: u16 = 0xdee2;
/// `SFRAME_VERSION_2`, the version that is read.
pub const VERSION: u8 = 2;
/// `SFRAME_F_FDE_SORTED`: functions are sorted by start.
pub const SORTED: u8 = 0x1;
/// `SFRAME_F_FDE_FUNC_START_PCREL`: a start counts from the address of its own field.
pub const COUNTS_FROM_FIELD: u8 = 0x4;
/// One above the greatest mix of flags.
pub const FLAGS_END: u8 = 8;
/// `SFRAME_ABI_AARCH64_ENDIAN_LITTLE`.
pub const ABI_AARCH64: u8 = 2;
/// `SFRAME_ABI_AMD64_ENDIAN_LITTLE`.
pub const ABI_AMD64: u8 = 3;
/// `sfh_cfa_fixed_ra_offset` of AMD64, -8 as a byte.
pub const FIXED_RETURN_AMD64: u8 = 0xf8;

/// The header's length in bytes, without the auxiliary header.
pub const HEADER_LEN: u64 = 28;

/// The place of `sfp_magic`.
pub const MAGIC_PLACE: u64 = 0;

/// The place of `sfp_version`.
pub const VERSION_PLACE: u64 = 2;

/// The place of `sfp_flags`.
pub const FLAGS_PLACE: u64 = 3;

/// The place of `sfh_abi_arch`.
pub const ABI_PLACE: u64 = 4;

/// The place of `sfh_cfa_fixed_fp_offset`, the frame pointer's.
pub const FIXED_FRAME_POINTER_PLACE: u64 = 5;

/// The place of `sfh_cfa_fixed_ra_offset`, the return address's.
pub const FIXED_RETURN_PLACE: u64 = 6;

/// The place of `sfh_auxhdr_len`, the auxiliary header's length.
pub const AUXILIARY_LEN_PLACE: u64 = 7;

/// The place of `sfh_num_fdes`, the number of functions.
pub const FUNCTION_COUNT_PLACE: u64 = 8;

/// The place of `sfh_num_fres`, the number of rows.
pub const ROW_COUNT_PLACE: u64 = 12;

/// The place of `sfh_fre_len`, the rows' length in bytes.
pub const ROWS_LEN_PLACE: u64 = 16;

/// The place of `sfh_fdeoff`, the offset of the function descriptor entries.
pub const FUNCTIONS_OFFSET_PLACE: u64 = 20;

/// The place of `sfh_freoff`, the offset of the rows.
pub const ROWS_OFFSET_PLACE: u64 = 24;

/// The length of a function descriptor entry in bytes.
pub const FUNCTION_ENTRY_LEN: u64 = 20;

/// The place of `sfde_func_size` in an entry.
pub const SIZE_PLACE: u64 = 4;

/// The place of `sfde_func_start_fre_off`, the offset of the function's first row.
pub const ROW_OFFSET_PLACE: u64 = 8;

/// The place of `sfde_func_num_fres`, the number of the function's rows.
pub const ENTRY_ROW_COUNT_PLACE: u64 = 12;

/// The place of `sfde_func_info`.
pub const INFO_PLACE: u64 = 16;

/// The place of `sfde_func_rep_size`.
pub const REPEAT_SIZE_PLACE: u64 = 17;

/// The greatest width of a number of a row: 4 bytes.
pub const MOST_WIDTH: u8 = 2;

/// How many row types the low four bits of a function descriptor entry's info byte have room for.
pub const ROW_TYPES: u8 = 16;

/// What the type of the function (PCINC 0, PCMASK 1) counts in a function descriptor entry's info byte.
pub const FUNCTION_TYPE: u8 = 16;

/// What `pauth_key`, the key of signed return addresses, counts in a function descriptor entry's info byte.
pub const KEY: u8 = 32;

/// What `fre_offset_count` counts in the info byte of a row. Its lowest bit is the base register
/// (`fre_cfa_base_reg_id`).
pub const OFFSET_COUNT: u8 = 2;

/// How many numbers of offsets a row's info byte has room for.
pub const OFFSET_COUNTS: u8 = 16;

/// What `fre_offset_size`, the width of the offsets, counts in a row's info byte.
pub const OFFSET_WIDTH: u8 = 32;

/// How many widths of offsets a row's info byte has room for.
pub const OFFSET_WIDTHS: u8 = 4;

/// What `fre_mangled_ra_p`, a signed return address, counts in a row's info byte.
pub const SIGNED: u8 = 128;
