//! The first function that contains an address (SFrame Version 2, function descriptor entries).

ghost use Rattle.std.specs.Prelude.{◌≡◌, ◌+◌, ◌-◌, ◌<◌, ◌≤◌, ◌&&◌, IsTrue, IfSome, length, nat_le, nat_lt};
ghost use Rattle.std.specs.List.{find};
ghost use Rattle.std.specs.Option.{option_map};
ghost use Rattle.sf_model.specs.Lookup.{contains};
ghost use Rattle.sf_model.specs.Section.{is_sorted};
ghost use Rattle.sf_decode.specs.View.{table_of, function_of};
ghost use Rattle.sf_lookup.specs.Steps.{IsWithinDigits};

use crate::search::last_start;
use crate::sound::{functions_stand_apart, starts_never_fall};
use crate::steps::Steps;
use sf_decode::layout::SORTED;
use sf_decode::{View, functions_are_numbered};
use sf_model::FuncHead;
use std::sync::ledger::Ledger;

/// Returns whether the function's bytes hold the address.
#[inline(always)]
fn contains(func: &FuncHead, pc: u64) -> bool
    ensures { result ≡ (nat_le func.now.start pc && nat_lt pc (func.now.start + func.now.size)) }
{
    func.start <= pc && pc - func.start < u64::from(func.size)
}

/// Returns whether the functions are sorted by start.
#[inline(always)]
pub fn is_sorted(flags: u8) -> bool
    ensures { result ≡ is_sorted flags }
{
    flags % 2 == SORTED
}

/// Finds the number of the first function that contains the address, where functions are sorted. An earlier one
/// than the last that starts by then has ended, so that this one contains the address or none does.
pub fn by_start<L: Ledger>(view: &View<'_>, pc: u64, steps: &mut Steps<L>) -> Option<u32>
    requires { IsTrue (is_sorted (table_of view.now).flags) }
    ensures within { IfSome result (λ i. i < length (table_of view.now).functions) }
    ensures first { option_map (function_of view.now) result ≡ find (contains pc) (table_of view.now).functions }
    ensures counted { steps.old ≤ steps.new }
    ensures cost { IsWithinDigits (steps.new - steps.old) (length (table_of view.now).functions) }
{
    functions_stand_apart(view);
    starts_never_fall(view);
    functions_are_numbered(view);
    let i = last_start(view, pc, steps)?;
    contains(&view.func(i), pc).then_some(i)
}

/// Finds the number of the first function that contains the address, in whatever order the functions are.
fn by_scan(view: &View<'_>, pc: u64) -> Option<u32>
    ensures within { IfSome result (λ i. i < length (table_of view.now).functions) }
    ensures first { option_map (function_of view.now) result ≡ find (contains pc) (table_of view.now).functions }
{
    functions_are_numbered(view);
    for i in 0..view.len() {
        if contains(&view.func(i), pc) {
            return Some(i);
        }
    }
    None
}

/// Finds the number of the first function that contains the address. Only the steps among sorted functions are counted.
pub fn first_containing<L: Ledger>(view: &View<'_>, pc: u64, steps: &mut Steps<L>) -> Option<u32>
    ensures within { IfSome result (λ i. i < length (table_of view.now).functions) }
    ensures first { option_map (function_of view.now) result ≡ find (contains pc) (table_of view.now).functions }
{
    if is_sorted(view.flags()) {
        by_start(view, pc, steps)
    } else {
        by_scan(view, pc)
    }
}
