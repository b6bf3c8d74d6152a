//! The call frame instructions with their operands.

/// A call frame instruction (DWARF 5, section 6.4.2; the last two are AArch64's and GNU's). Registers
/// are DWARF numbers, and a factored operand is still to be multiplied by the data alignment factor, an
/// advance by the code alignment factor.
#[derive(Clone, Copy)]
pub enum Insn<'a> {
    /// `DW_CFA_advance_loc`: the advance in the opcode's low six bits.
    AdvanceLoc(u8),
    /// `DW_CFA_offset`: the register in the opcode's low six bits, and a factored offset.
    Offset(u8, u64),
    /// `DW_CFA_restore`: the register in the opcode's low six bits.
    Restore(u8),
    /// `DW_CFA_nop`.
    Nop,
    /// `DW_CFA_advance_loc1`, `DW_CFA_advance_loc2`, `DW_CFA_advance_loc4`: the advance.
    AdvanceLocN(u32),
    /// `DW_CFA_offset_extended`: a register and a factored offset.
    OffsetExtended(u64, u64),
    /// `DW_CFA_restore_extended`: a register.
    RestoreExtended(u64),
    /// `DW_CFA_undefined`: a register.
    Undefined(u64),
    /// `DW_CFA_same_value`: a register.
    SameValue(u64),
    /// `DW_CFA_register`: a register, and the one that holds its value.
    Register(u64, u64),
    /// `DW_CFA_remember_state`.
    RememberState,
    /// `DW_CFA_restore_state`.
    RestoreState,
    /// `DW_CFA_def_cfa`: a register and an offset in bytes.
    DefCfa(u64, u64),
    /// `DW_CFA_def_cfa_register`: a register.
    DefCfaRegister(u64),
    /// `DW_CFA_def_cfa_offset`: an offset in bytes.
    DefCfaOffset(u64),
    /// `DW_CFA_def_cfa_expression`: the expression's bytes.
    DefCfaExpression(&'a [u8]),
    /// `DW_CFA_expression`: a register and the expression's bytes.
    Expression(u64, &'a [u8]),
    /// `DW_CFA_offset_extended_sf`: a register and a factored offset.
    OffsetExtendedSf(u64, i64),
    /// `DW_CFA_def_cfa_sf`: a register and a factored offset.
    DefCfaSf(u64, i64),
    /// `DW_CFA_def_cfa_offset_sf`: a factored offset.
    DefCfaOffsetSf(i64),
    /// `DW_CFA_val_offset`: a register and a factored offset.
    ValOffset(u64, u64),
    /// `DW_CFA_val_offset_sf`: a register and a factored offset.
    ValOffsetSf(u64, i64),
    /// `DW_CFA_val_expression`: a register and the expression's bytes.
    ValExpression(u64, &'a [u8]),
    /// `DW_CFA_AARCH64_negate_ra_state`.
    NegateRaState,
    /// `DW_CFA_GNU_args_size`: a size in bytes.
    GnuArgsSize(u64),
}
