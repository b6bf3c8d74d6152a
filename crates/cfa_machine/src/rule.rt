//! Rules of a row: how the CFA and the caller's registers are recovered.

/// How the canonical frame address is computed.
#[derive(Clone, Copy, Debug, PartialEq, Eq)]
pub enum CfaRule {
    /// No rule was given.
    Missing,
    /// A register plus an offset in bytes.
    Reg {
        /// The DWARF number of the register.
        register: u64,
        /// The offset in bytes.
        offset: i128,
    },
    /// A DWARF expression, which isn't evaluated.
    Expression,
}

/// How the caller's value of a register is recovered (DWARF 5, section 6.4.1).
#[derive(Clone, Copy, Debug, PartialEq, Eq)]
pub enum Rule {
    /// No rule was given.
    Missing,
    /// It has no recoverable value.
    Undefined,
    /// It is unchanged.
    Same,
    /// It is saved at the CFA plus this offset in bytes.
    Offset(i128),
    /// It is the CFA plus this offset in bytes.
    ValOffset(i128),
    /// It is in another register.
    Register(u64),
    /// It is saved where an expression says.
    Expression,
    /// It is the value of an expression.
    ValExpression,
}
