//! What an instruction does to the rules of a row (DWARF 5, section 6.4.2).

ghost use Rattle.std.specs.Prelude.{◌≡◌};
ghost use Rattle.cfa_insn.specs.Instruction.{instruction};
ghost use Rattle.signal_frames.specs.Rules.{change_by, change_view};

use cfa_insn::Insn;

/// What has a rule in a row.
#[derive(Clone, Copy)]
pub enum Column {
    /// The canonical frame address.
    Cfa,
    /// The register of this number.
    Register(u64),
}

/// A rule.
#[derive(Clone, Copy)]
pub enum Rule<'a> {
    /// That of `DW_CFA_def_cfa_expression` or `DW_CFA_expression`, with the expression's bytes.
    Expression(&'a [u8]),
    /// Any other.
    Other,
}

/// What an instruction does.
#[derive(Clone, Copy)]
pub enum Change<'a> {
    /// It changes no rule.
    Nothing,
    /// It gives a rule.
    Gives(Column, Rule<'a>),
    /// It begins another row, or brings rules of another row back.
    AnotherRow,
}

// Returns the change that gives a register a rule which isn't an expression.
fn other_rule<'a>(register: u64) -> Change<'a>
    ensures { change_view result ≡ Rattle.signal_frames.specs.Rules.Gives (Column.Register register) Rattle.signal_frames.specs.Rules.Other }
{
    Change::Gives(Column::Register(register), Rule::Other)
}

/// Returns what an instruction does.
#[tactic(auto, unfolding(crate::specs::Rules::change_by))]
pub fn change_of<'a>(insn: Insn<'a>) -> Change<'a>
    ensures { change_view result ≡ change_by (instruction insn.entry) }
{
    match insn {
        Insn::AdvanceLoc(_) => Change::AnotherRow,
        Insn::AdvanceLocN(_) => Change::AnotherRow,
        Insn::DefCfa(_, _) => Change::Gives(Column::Cfa, Rule::Other),
        Insn::DefCfaSf(_, _) => Change::Gives(Column::Cfa, Rule::Other),
        Insn::DefCfaRegister(_) => Change::Gives(Column::Cfa, Rule::Other),
        Insn::DefCfaOffset(_) => Change::Gives(Column::Cfa, Rule::Other),
        Insn::DefCfaOffsetSf(_) => Change::Gives(Column::Cfa, Rule::Other),
        Insn::DefCfaExpression(bytes) => Change::Gives(Column::Cfa, Rule::Expression(bytes)),
        Insn::Undefined(register) => other_rule(register),
        Insn::SameValue(register) => other_rule(register),
        Insn::Offset(register, _) => other_rule(u64::from(register)),
        Insn::OffsetExtended(register, _) => other_rule(register),
        Insn::OffsetExtendedSf(register, _) => other_rule(register),
        Insn::ValOffset(register, _) => other_rule(register),
        Insn::ValOffsetSf(register, _) => other_rule(register),
        Insn::Register(register, _) => other_rule(register),
        Insn::Expression(register, bytes) => {
            Change::Gives(Column::Register(register), Rule::Expression(bytes))
        }
        Insn::ValExpression(register, _) => other_rule(register),
        Insn::Restore(_) => Change::AnotherRow,
        Insn::RestoreExtended(_) => Change::AnotherRow,
        Insn::RememberState => Change::AnotherRow,
        Insn::RestoreState => Change::AnotherRow,
        Insn::NegateRaState => Change::AnotherRow,
        Insn::Nop => Change::Nothing,
        Insn::GnuArgsSize(_) => Change::Nothing,
    }
}
