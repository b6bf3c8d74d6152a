//! The number of functions that are compared, and of those that a section lacks.

ghost use Rattle.std.specs.Prelude.{◌≡◌, ◌≤◌, ◌<◌, ◌^◌, ◌&&◌, ◌==◌, IsTrue, get_or, length};
ghost use Rattle.std.specs.List.{filter};
ghost use Rattle.sf_model.specs.declared.function.Func.{Func as func};
ghost use Rattle.sf_decode.specs.View.{head_of, table_of};
ghost use Rattle.sf_merge.specs.declared.located.Located.{Located as located};
ghost use Rattle.sf_merge.specs.Located.{located_functions};
ghost use Rattle.sf_verify.specs.Agreement as spec;
ghost use Rattle.sf_verify.specs.Counting.{KeptRise, StartBefore, StartsRise, represents_kept, is_absent};

use crate::kept::Kept;
use crate::sweep::is_plain_shape;
use sf_decode::{View, functions_are_numbered};
use sf_merge::SectionFunctions;
use sf_model::FuncHead;

/// Counts the plain functions of a section.
pub fn count_plain(view: &View<'_>) -> u32
    ensures { result ≡ length (filter spec.is_plain (table_of view.now).functions) }
{
    functions_are_numbered(view);
    let mut count = 0;
    for number in 0..view.len() {
        if is_plain_shape(view.func(number).shape) {
            count += 1;
        }
    }
    count
}

/// Returns the place of the first function, from a place on, that doesn't start before an address.
fn pass(functions: &SectionFunctions<'_>, passed: usize, start: u64) -> usize
    requires { StartBefore functions.now passed start }
    ensures passed { StartBefore functions.now result start }
    ensures here { (d : located) → result < length functions.now → start ≤ (get_or functions.now result d).func.start }
{
    let mut next = passed;
    while next < functions.len() && functions.start(next) < start {
        next += 1;
    }
    next
}

/// Returns whether the function at a place is a plain one with the start and size of a kept one.
fn is_there(functions: &SectionFunctions<'_>, place: usize, kept: &FuncHead) -> bool
    ensures within { IsTrue result → place < length functions.now }
    ensures there { (k : func) (d : located) → kept.now ≡ head_of k → place < length functions.now → result ≡ represents_kept k (get_or functions.now place d).func }
{
    place < functions.len() && represents_kept(&functions.head(place), kept)
}

/// Returns whether a function is a plain one with the start and size of a kept one.
#[inline(always)]
fn represents_kept(head: &FuncHead, kept: &FuncHead) -> bool
    ensures { (k f : func) → kept.now ≡ head_of k → head.now ≡ head_of f → result ≡ represents_kept k f }
{
    is_plain_shape(head.shape) && head.start == kept.start && head.size == kept.size
}

/// Counts the kept functions for which there is no plain function of the same start and size. Both lists
/// are by rising start, and are scanned once.
pub fn count_missing(kept: &Kept<'_>, functions: &SectionFunctions<'_>) -> u32
    requires few { length kept.now ≤ 2 ^ 21 }
    requires kept { KeptRise kept.now }
    requires functions { StartsRise functions.now }
    ensures { result ≡ length (filter (is_absent (located_functions functions.now)) kept.now) }
{
    let mut missing = 0;
    let mut next = 0;
    for place in 0..kept.len() {
        let head = kept.head(place);
        next = pass(functions, next, head.start);
        if !is_there(functions, next, &head) {
            missing += 1;
        }
    }
    missing
}
