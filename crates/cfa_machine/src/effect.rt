//! What an instruction does, in ten kinds.

ghost use Rattle.std.specs.Prelude.{◌≡◌, pos, ◌*ℤ◌};
ghost use Rattle.cfa_insn.specs.Instruction.{instruction};
ghost use Rattle.cfa_machine.specs.Effects.{effect_by};

use crate::rule::{CfaRule, Rule};
use cfa_insn::Insn;

/// A change of the present row alone.
#[derive(Clone, Copy)]
pub enum RowEffect {
    /// Nothing changes.
    Nothing,
    /// A register gets a rule.
    SetRule(u64, Rule),
    /// The CFA gets a rule.
    SetCfa(CfaRule),
    /// The CFA counts from another register.
    SetCfaRegister(u64),
    /// The CFA has another offset, in bytes.
    SetCfaOffset(i128),
    /// The sign state is inverted.
    NegateSign,
}

/// What an instruction does.
#[derive(Clone, Copy)]
pub enum Effect {
    /// It changes the present row.
    Row(RowEffect),
    /// The offset grows by this many code alignments.
    Advance(u32),
    /// A register gets its initial rule.
    Restore(u64),
    /// The row is remembered.
    Remember,
    /// The row that was remembered last comes back.
    Recall,
}

/// Returns an operand times the data alignment factor.
#[inline(always)]
pub fn scaled(operand: u64, factor: i64) -> i128
    ensures { result ≡ pos operand *ℤ factor }
{
    i128::from(operand) * i128::from(factor)
}

// Returns a signed operand times the data alignment factor.
#[inline(always)]
fn scaled_signed(operand: i64, factor: i64) -> i128
    ensures { result ≡ operand *ℤ factor }
{
    i128::from(operand) * i128::from(factor)
}

// Returns the effect that a register gets a rule.
#[inline(always)]
fn rule_for(register: u64, rule: Rule) -> Effect
    ensures { result ≡ Effect.Row (RowEffect.SetRule register rule) }
{
    Effect::Row(RowEffect::SetRule(register, rule))
}

// Returns the effect that the CFA is a register plus an offset.
#[inline(always)]
fn cfa_at(register: u64, offset: i128) -> Effect
    ensures { result ≡ Effect.Row (RowEffect.SetCfa (CfaRule.Reg register offset)) }
{
    Effect::Row(RowEffect::SetCfa(CfaRule::Reg { register, offset }))
}

/// Returns the effect of an instruction under a data alignment factor.
#[tactic(auto, unfolding(crate::specs::Effects::effect_by), using(std::proofs::lemmas::Int::ints))]
#[inline(always)]
pub fn effect_of(factor: i64, insn: Insn<'_>) -> Effect
    ensures { result ≡ effect_by factor (instruction insn.entry) }
{
    match insn {
        Insn::AdvanceLoc(n) => Effect::Advance(u32::from(n)),
        Insn::Offset(r, n) => rule_for(u64::from(r), Rule::Offset(scaled(n, factor))),
        Insn::Restore(r) => Effect::Restore(u64::from(r)),
        Insn::Nop => Effect::Row(RowEffect::Nothing),
        Insn::AdvanceLocN(n) => Effect::Advance(n),
        Insn::OffsetExtended(r, n) => rule_for(r, Rule::Offset(scaled(n, factor))),
        Insn::RestoreExtended(r) => Effect::Restore(r),
        Insn::Undefined(r) => rule_for(r, Rule::Undefined),
        Insn::SameValue(r) => rule_for(r, Rule::Same),
        Insn::Register(r, q) => rule_for(r, Rule::Register(q)),
        Insn::RememberState => Effect::Remember,
        Insn::RestoreState => Effect::Recall,
        Insn::DefCfa(r, n) => cfa_at(r, i128::from(n)),
        Insn::DefCfaRegister(r) => Effect::Row(RowEffect::SetCfaRegister(r)),
        Insn::DefCfaOffset(n) => Effect::Row(RowEffect::SetCfaOffset(i128::from(n))),
        Insn::DefCfaExpression(_) => Effect::Row(RowEffect::SetCfa(CfaRule::Expression)),
        Insn::Expression(r, _) => rule_for(r, Rule::Expression),
        Insn::OffsetExtendedSf(r, n) => rule_for(r, Rule::Offset(scaled_signed(n, factor))),
        Insn::DefCfaSf(r, n) => cfa_at(r, scaled_signed(n, factor)),
        Insn::DefCfaOffsetSf(n) => Effect::Row(RowEffect::SetCfaOffset(scaled_signed(n, factor))),
        Insn::ValOffset(r, n) => rule_for(r, Rule::ValOffset(scaled(n, factor))),
        Insn::ValOffsetSf(r, n) => rule_for(r, Rule::ValOffset(scaled_signed(n, factor))),
        Insn::ValExpression(r, _) => rule_for(r, Rule::ValExpression),
        Insn::NegateRaState => Effect::Row(RowEffect::NegateSign),
        Insn::GnuArgsSize(_) => Effect::Row(RowEffect::Nothing),
    }
}
