//! The four rules that a signal frame needs, by one pass over the instructions.

ghost use Rattle.std.specs.Prelude.{◌≡◌, ◌++◌, List};
ghost use Rattle.std.specs.Option.{option_map, option_or};
ghost use Rattle.sf_bytes.specs.Cursor.{cursor};
ghost use Rattle.cfa_insn.specs.Listing.{Item, item, listing};
ghost use Rattle.signal_frames.specs.Rules as spec;
ghost use Rattle.signal_frames.specs.Rules.{change_view, given_to, is_column, rule_view, rules_view};
ghost use Rattle.signal_frames.specs.InitialRules.{AreInitialRules};
ghost use Rattle.signal_frames.specs.Run.{after_item, changed, no_rules, rules_by};

use crate::change::{Change, Column, Rule, change_of};
use cfa_insn::{Insn, InsnFault, Insns};
use cfa_machine::{frame_pointer_of, return_address_of, stack_pointer_of};
use sf_bytes::Part;
use sf_model::Arch;

/// The rules of the canonical frame address and of three registers of AMD64, those that were given.
#[derive(Clone, Copy)]
pub struct Rules<'a> {
    /// The canonical frame address.
    pub cfa: Option<Rule<'a>>,
    /// The return address.
    pub return_address: Option<Rule<'a>>,
    /// The frame pointer.
    pub frame_pointer: Option<Rule<'a>>,
    /// The stack pointer.
    pub stack_pointer: Option<Rule<'a>>,
}

// Returns whether two columns are the same.
fn is_column(column: Column, other: Column) -> bool
    ensures { result ≡ is_column column other }
{
    match (column, other) {
        (Column::Cfa, Column::Cfa) => true,
        (Column::Register(q), Column::Register(r)) => q == r,
        (Column::Cfa, Column::Register(_)) => false,
        (Column::Register(_), Column::Cfa) => false,
    }
}

// Returns a column's rule after `given` was given to another column or to this one.
fn rule_after<'a>(
    column: Column,
    given: Column,
    rule: Rule<'a>,
    before: Option<Rule<'a>>,
) -> Option<Rule<'a>>
    ensures { option_map rule_view result ≡ option_or (given_to column (spec.Gives given (rule_view rule.entry))) (option_map rule_view before.entry) }
{
    if is_column(column, given) {
        Some(rule)
    } else {
        before
    }
}

// Returns the rules after a change, or `None` if the function has another row.
fn changed<'a>(change: Change<'a>, rules: &Rules<'a>) -> Option<Rules<'a>>
    ensures { option_map rules_view result ≡ changed (change_view change.entry) (rules_view rules.now) }
{
    let (given, rule) = match change {
        Change::Nothing => return Some(*rules),
        Change::AnotherRow => return None,
        Change::Gives(given, rule) => (given, rule),
    };
    Some(Rules {
        cfa: rule_after(Column::Cfa, given, rule, rules.cfa),
        return_address: rule_after(
            Column::Register(return_address_of(Arch::Amd64)),
            given,
            rule,
            rules.return_address,
        ),
        frame_pointer: rule_after(
            Column::Register(frame_pointer_of(Arch::Amd64)),
            given,
            rule,
            rules.frame_pointer,
        ),
        stack_pointer: rule_after(
            Column::Register(stack_pointer_of(Arch::Amd64)),
            given,
            rule,
            rules.stack_pointer,
        ),
    })
}

// Returns the rules after an instruction, or `None` if it can't be read or the function has another row.
fn after_item<'a>(read: Result<(u64, Insn<'a>), InsnFault>, rules: &Rules<'a>) -> Option<Rules<'a>>
    ensures { option_map rules_view result ≡ after_item (item read.entry) (rules_view rules.now) }
{
    match read {
        Ok((_, insn)) => changed(change_of(insn), rules),
        Err(_) => None,
    }
}

// Returns the rules after the instructions of a part, or `None` if one can't be read or the function has another row.
fn run<'a>(part: Part<'a>, before: Rules<'a>) -> Option<Rules<'a>>
    ensures { option_map rules_view result ≡ rules_by (listing (cursor part.entry)) (rules_view before.entry) }
{
    let mut rules = before;
    for item in Insns::new(part) {
        rules = after_item(item, &rules)?;
    }
    Some(rules)
}

/// The rules that the instructions of a common information entry give, for all functions that name it.
#[derive(Clone, Copy)]
pub struct InitialRules<'a> {
    /// `None` if an instruction can't be read or another row begins.
    rules: Option<Rules<'a>>,
}

/// Returns the rules that the instructions of a common information entry give.
pub fn initial_rules<'a>(initial: Part<'a>) -> InitialRules<'a>
    ensures { AreInitialRules (listing (cursor initial.entry)) result }
{
    let none = Rules {
        cfa: None,
        return_address: None,
        frame_pointer: None,
        stack_pointer: None,
    };
    InitialRules {
        rules: run(initial, none),
    }
}

// Returns the rules after the instructions of the common information entry, which gave these, and of the function, or `None`
// if one can't be read or the function has another row.
pub fn rules_of<'a>(initial: &InitialRules<'a>, own: Part<'a>) -> Option<Rules<'a>>
    ensures { (common : List Item) → AreInitialRules common initial.now → option_map rules_view result ≡ rules_by (common ++ listing (cursor own.entry)) no_rules }
{
    let Some(common) = initial.rules else {
        return None;
    };
    run(own, common)
}
