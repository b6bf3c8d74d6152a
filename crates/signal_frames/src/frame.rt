//! Signal frames (GNU's augmentation letter `S`; DWARF 5, section 6.4.1).

ghost use Rattle.std.specs.Prelude.{◌≡◌, ℤ, List, Some, IfSome, IsTrue};
ghost use Rattle.std.specs.Option.{option_map};
ghost use Rattle.sf_bytes.specs.Cursor.{cursor};
ghost use Rattle.cfa_insn.specs.Listing.{Item, listing};
ghost use Rattle.signal_frames.specs.declared.frame.SignalFrame.{SignalFrame as frame};
ghost use Rattle.signal_frames.specs.InitialRules.{AreInitialRules};
ghost use Rattle.signal_frames.specs.Rules.{rule_view, rules_view};
ghost use Rattle.signal_frames.specs.SignalFrame.{HaveConstants, IsFrameAddress, IsSavedAt, IsSignal, IsSignalFrame, IsValueAt};

use crate::change::Rule;
use crate::expression::{stack_address, stack_value};
use crate::rules::{InitialRules, Rules, rules_of};
use cfa_machine::return_address_of;
use sf_bytes::Part;
use sf_model::{Arch, FdeFacts};

/// Where a signal frame has what was interrupted: three distances from its stack pointer, in bytes.
#[derive(Clone, Copy, Debug, PartialEq, Eq)]
pub struct SignalFrame {
    /// To where the canonical frame address is saved, the interrupted stack pointer.
    pub frame_address: i64,
    /// To where the return address is saved, the interrupted program counter.
    pub return_address: i64,
    /// To where the interrupted frame pointer is saved.
    pub frame_pointer: i64,
}

// Returns the constant of a rule that gives what is saved at the stack pointer plus a constant.
fn value_at(rule: Option<Rule<'_>>) -> Option<i64>
    ensures found { IfSome result (λ constant. IsValueAt constant (option_map rule_view rule.entry)) }
    ensures only { (constant : ℤ) → IsValueAt constant (option_map rule_view rule.entry) → result ≡ Some constant }
{
    match rule {
        Some(Rule::Expression(bytes)) => stack_value(bytes),
        Some(Rule::Other) => None,
        None => None,
    }
}

// Returns the constant of a rule by which a register is saved at the stack pointer plus a constant.
fn saved_at(rule: Option<Rule<'_>>) -> Option<i64>
    ensures found { IfSome result (λ constant. IsSavedAt constant (option_map rule_view rule.entry)) }
    ensures only { (constant : ℤ) → IsSavedAt constant (option_map rule_view rule.entry) → result ≡ Some constant }
{
    match rule {
        Some(Rule::Expression(bytes)) => stack_address(bytes),
        Some(Rule::Other) => None,
        None => None,
    }
}

// Returns whether the stack pointer has no rule, or is saved at the stack pointer plus a constant.
fn is_frame_address(constant: i64, rule: Option<Rule<'_>>) -> bool
    ensures found { IsTrue result → IsFrameAddress constant (option_map rule_view rule.entry) }
    ensures only { IsFrameAddress constant (option_map rule_view rule.entry) → IsTrue result }
{
    let Some(given) = rule else {
        return true;
    };
    match saved_at(Some(given)) {
        Some(saved) => saved == constant,
        None => false,
    }
}

// Returns the signal frame that has the constants of four rules.
fn frame_by(rules: &Rules<'_>) -> Option<SignalFrame>
    ensures found { IfSome result (λ f. HaveConstants (rules_view rules.now) f) }
    ensures only { (f : frame) → HaveConstants (rules_view rules.now) f → result ≡ Some f }
{
    let frame_address = value_at(rules.cfa)?;
    let return_address = saved_at(rules.return_address)?;
    let frame_pointer = saved_at(rules.frame_pointer)?;
    if !is_frame_address(frame_address, rules.stack_pointer) {
        return None;
    }
    Some(SignalFrame {
        frame_address,
        return_address,
        frame_pointer,
    })
}

/// Returns whether a function's return address column is the machine's and its frame a signal's.
pub fn is_signal(arch: Arch, facts: &FdeFacts) -> bool
    ensures found { IsTrue result → IsSignal arch facts.now }
    ensures only { IsSignal arch facts.now → IsTrue result }
{
    match arch {
        Arch::Amd64 => facts.signal && facts.column == return_address_of(Arch::Amd64),
        Arch::Aarch64 => false,
    }
}

/// Returns the signal frame that a function has at each of its addresses, by the rules of its common information entry and
/// its own instructions. Returns `None` if its frame isn't a signal's, if one of its rules has another form, if it has more
/// than one row, or if an instruction can't be read.
pub fn signal_frame(
    arch: Arch,
    facts: &FdeFacts,
    initial: &InitialRules<'_>,
    own: Part<'_>,
) -> Option<SignalFrame>
    // What is returned is the function's signal frame.
    ensures found { (common : List Item) → AreInitialRules common initial.now → IfSome result (λ f. IsSignalFrame arch facts.now common (listing (cursor own.entry)) f) }
    // A signal frame that the function has is returned.
    ensures only { (common : List Item) (f : frame) → AreInitialRules common initial.now → IsSignalFrame arch facts.now common (listing (cursor own.entry)) f → result ≡ Some f }
{
    if !is_signal(arch, facts) {
        return None;
    }
    let rules = rules_of(initial, own)?;
    frame_by(&rules)
}
