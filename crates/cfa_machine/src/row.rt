//! Rows.

use crate::rule::{CfaRule, Rule};

/// The state of a frame from one offset of its function on.
#[derive(Clone, Copy, Debug, PartialEq, Eq)]
pub struct DwRow {
    /// The first offset that it covers, in bytes from the function's start.
    pub start: u64,
    /// The canonical frame address.
    pub cfa: CfaRule,
    /// The stack pointer's rule.
    pub sp: Rule,
    /// The frame pointer's rule.
    pub fp: Rule,
    /// The rule of the return address: register 16 on AMD64, 30 on AArch64.
    pub ra: Rule,
    /// The rule of the sign state, register 34, on AArch64. It has one once it is restored. On AMD64 it is missing.
    pub sign: Rule,
    /// True if the return address is signed.
    pub signed: bool,
}
