//! The part of a row that is kept: the CFA, four registers and the sign state.

ghost use Rattle.std.specs.Prelude.{◌≡◌};
ghost use Rattle.cfa_machine.specs.FullRow.{or_same as rule_or_same};
ghost use Rattle.cfa_machine.specs.Columns.{no_columns, with_rule, with_cfa_offset, restored, changed, Changes};

use crate::effect::RowEffect;
use crate::fault::MachineFault;
use crate::registers::{frame_pointer_of, is_sign_state_of, return_address_of, stack_pointer_of};
use crate::rule::{CfaRule, Rule};
use cfa_insn::InsnFault;
use cfa_insn::opcodes::DW_CFA_AARCH64_NEGATE_RA_STATE;
use sf_model::Arch;

/// A row without its start.
#[derive(Clone, Copy)]
pub struct Columns {
    pub cfa: CfaRule,
    pub sp: Rule,
    pub fp: Rule,
    pub ra: Rule,
    pub sign: Rule,
    pub signed: bool,
}

/// Returns the row before any instruction.
#[inline(always)]
pub fn empty_columns() -> Columns
    ensures { result ≡ no_columns }
{
    Columns {
        cfa: CfaRule::Missing,
        sp: Rule::Missing,
        fp: Rule::Missing,
        ra: Rule::Missing,
        sign: Rule::Missing,
        signed: false,
    }
}

impl Default for Columns {
    fn default() -> Columns {
        empty_columns()
    }
}

/// Gives a register a rule. Registers that the row doesn't keep change nothing.
#[inline(always)]
pub fn set_rule(arch: Arch, register: u64, rule: Rule, columns: &mut Columns)
    ensures { columns.new ≡ with_rule arch register rule columns.old }
{
    if register == stack_pointer_of(arch) {
        columns.sp = rule;
    }
    if register == frame_pointer_of(arch) {
        columns.fp = rule;
    }
    if register == return_address_of(arch) {
        columns.ra = rule;
    }
    if is_sign_state_of(arch, register) {
        columns.sign = rule;
    }
}

// Returns a rule; without one the register keeps its value.
#[inline(always)]
fn or_same(rule: Rule) -> Rule
    ensures { result ≡ rule_or_same rule }
{
    match rule {
        Rule::Missing => Rule::Same,
        given => given,
    }
}

/// Gives a register its initial rule again. The sign state has a rule then, also where it had none.
#[inline(always)]
pub fn restore_rule(arch: Arch, register: u64, initial: &Columns, columns: &mut Columns)
    ensures { columns.new ≡ restored arch register initial.now columns.old }
{
    if register == stack_pointer_of(arch) {
        columns.sp = initial.sp;
    }
    if register == frame_pointer_of(arch) {
        columns.fp = initial.fp;
    }
    if register == return_address_of(arch) {
        columns.ra = initial.ra;
    }
    if is_sign_state_of(arch, register) {
        columns.sign = or_same(initial.sign);
    }
}

/// Gives the CFA another offset, in bytes, by the instruction at `place`. On a fault the row is as it was.
#[inline(always)]
pub fn set_cfa_offset(place: u64, offset: i128, columns: &mut Columns) -> Result<(), MachineFault>
    ensures { Changes columns.new result (with_cfa_offset place offset columns.old.cfa columns.old) }
{
    match columns.cfa {
        CfaRule::Reg {
            register,
            offset: _,
        } => {
            columns.cfa = CfaRule::Reg { register, offset };
            Ok(())
        }
        CfaRule::Missing => Err(MachineFault::NoCfaRegister(place)),
        CfaRule::Expression => Err(MachineFault::NoCfaRegister(place)),
    }
}

/// Changes the row by the instruction at `place`. On a fault it is as it was.
#[inline(always)]
pub fn change_row(
    arch: Arch,
    place: u64,
    change: RowEffect,
    columns: &mut Columns,
) -> Result<(), MachineFault>
    ensures { Changes columns.new result (changed arch place change columns.old) }
{
    match change {
        RowEffect::Nothing => Ok(()),
        RowEffect::SetRule(register, rule) => {
            set_rule(arch, register, rule, columns);
            Ok(())
        }
        RowEffect::SetCfa(cfa) => {
            columns.cfa = cfa;
            Ok(())
        }
        RowEffect::SetCfaRegister(register) => match columns.cfa {
            CfaRule::Reg {
                register: _,
                offset,
            } => {
                columns.cfa = CfaRule::Reg { register, offset };
                Ok(())
            }
            CfaRule::Missing => Err(MachineFault::NoCfaRegister(place)),
            CfaRule::Expression => Err(MachineFault::NoCfaRegister(place)),
        },
        RowEffect::SetCfaOffset(offset) => set_cfa_offset(place, offset, columns),
        RowEffect::NegateSign => match arch {
            Arch::Amd64 => Err(MachineFault::Insn(InsnFault::Opcode(
                place,
                DW_CFA_AARCH64_NEGATE_RA_STATE,
            ))),
            Arch::Aarch64 => {
                columns.signed = !columns.signed;
                Ok(())
            }
        },
    }
}
