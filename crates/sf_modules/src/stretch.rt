//! Stretches of lines: the entries of a process, by their files.
//!
//! The entries of one name whose addresses are equally far from their places in the file are on one line, and each is a
//! stretch of it. Stretches are put in the order of their lines, and of their starts on a line; with each goes the greatest
//! end of the line so far.

ghost use Rattle.std.specs.Prelude.{◌≡◌, ◌≤◌, ◌<◌, ◌^◌, ◌&&◌, ◌||◌, ◌==◌, ℕ, IfOk, length, map, nat_le, nat_lt, slice_index_or, take};
ghost use Rattle.std.specs.List.{list_any};
ghost use Rattle.std.specs.List.Sorted.{IsNonDecreasingBy, IsPermutation};
ghost use Rattle.std.specs.Ordering.{nat_cmp};
ghost use Rattle.sf_modules.specs.Entry.{mapping_view};
ghost use Rattle.sf_modules.specs.Stretch as spec;

use crate::entry::Entry;
use sf_base::NoMemory;
use std::alloc::Global;
use std::cmp::Ordering;
use std::collections::BTreeMap;

/// The addresses of an entry, on its line.
#[derive(Clone, Copy)]
pub struct Stretch {
    /// The line.
    pub line: u128,
    /// The first address.
    pub start: u64,
    /// The address after the last.
    pub end: u64,
}

/// Returns the line of a name's number, an address, and the file's place there.
pub fn line_of(number: u32, address: u64, place: u64) -> u128
    ensures { result ≡ spec.line_of number address place }
{
    u128::from(number) * (1 << 65) + (u128::from(address) + (1 << 64) - u128::from(place))
}

// Returns the stretch of an entry, by the number of its name.
fn stretch_of(entry: &Entry<'_>, number: u32) -> Stretch
    ensures { (other address place : ℕ) → address < 2 ^ 64 → place < 2 ^ 64 → spec.has_place other address place result ≡ (spec.has_at address place (mapping_view entry.now) && (number == other)) }
{
    Stretch {
        line: line_of(number, entry.start, entry.offset),
        start: entry.start,
        end: entry.end,
    }
}

/// Returns the names of entries.
pub fn names_of<'n>(alloc: Global, entries: &[Entry<'n>]) -> Result<Vec<&'n [u8]>, NoMemory>
    ensures { IfOk result (λ names. map (λ n. n.now) names.items ≡ spec.names_in (map mapping_view entries.now)) }
{
    let mut names = Vec::with_capacity(alloc, entries.len())?;
    for entry in entries {
        names.push(entry.name)?;
    }
    Ok(names)
}

/// Returns the stretches of entries, in the order of the entries. Each name has its number.
pub fn stretches_of(
    alloc: Global,
    entries: &[Entry<'_>],
    numbers: &BTreeMap<&[u8], u32>,
) -> Result<Vec<Stretch>, NoMemory>
    requires { spec.AreNumbers numbers.now (map mapping_view entries.now) }
    ensures { IfOk result (λ stretches. spec.AreOf (map mapping_view entries.now) (map mapping_view entries.now) stretches.items) }
{
    let mut stretches = Vec::with_capacity(alloc, entries.len())?;
    for entry in entries {
        let number = match numbers.get(entry.name) {
            Some(number) => *number,
            None => unreachable!(),
        };
        stretches.push(stretch_of(entry, number))?;
    }
    Ok(stretches)
}

// Compares stretches: by their lines, then by their starts.
fn order(a: &Stretch, b: &Stretch) -> Ordering
    ensures { result ≡ nat_cmp (spec.start_point a.now) (spec.start_point b.now) }
{
    let (start, other_start) = (a.start, b.start);
    match a.line.cmp(&b.line) {
        Ordering::Equal => start.cmp(&other_start),
        unequal => unequal,
    }
}

/// Puts stretches in order.
pub fn put_in_order(stretches: &mut [Stretch])
    ensures permutation { IsPermutation stretches.old stretches.new }
    ensures rise { IsNonDecreasingBy spec.start_point stretches.new }
{
    stretches.sort_unstable_by(|a, b| order(a, b));
}

// Returns the greatest end on a stretch's line, of it and those before it, by the greatest end on the line of the last of
// these.
fn further(line: u128, end: u64, stretch: &Stretch) -> u64
    requires { spec.point line 0 ≤ spec.start_point stretch.now }
    ensures { (at : ℕ) → nat_lt at (spec.point stretch.now.line result) ≡ (nat_lt at (spec.point line end) || nat_lt at (spec.end_point stretch.now)) }
{
    let Stretch {
        line: own,
        start: _start,
        end: own_end,
    } = *stretch;
    if own == line {
        end.max(own_end)
    } else {
        own_end
    }
}

/// Returns the greatest end on the line of each stretch, of it and those before it.
pub fn reach_of(alloc: Global, stretches: &[Stretch]) -> Result<Vec<u64>, NoMemory>
    requires { IsNonDecreasingBy spec.start_point stretches.now }
    ensures { IfOk result (λ reach. spec.AreReached stretches.now reach.items) }
{
    let mut reach = Vec::with_capacity(alloc, stretches.len())?;
    let mut line = 0;
    let mut end = 0;
    for stretch in stretches {
        end = further(line, end, stretch);
        line = stretch.line;
        reach.push(end)?;
    }
    Ok(reach)
}

// Returns whether a stretch starts by a point.
fn is_by(stretch: &Stretch, line: u128, address: u64) -> bool
    ensures { result ≡ nat_le (spec.start_point stretch.now) (spec.point line address) }
{
    let Stretch {
        line: own,
        start,
        ..
    } = *stretch;
    own < line || (own == line && start <= address)
}

/// Returns how many stretches start by a point.
pub fn count_by(stretches: &[Stretch], line: u128, address: u64) -> usize
    requires { IsNonDecreasingBy spec.start_point stretches.now }
    ensures within { result ≤ length stretches.now }
    ensures by { (k : ℕ) (d : spec.stretch) → k < result → spec.start_point (slice_index_or stretches.now k d) ≤ spec.point line address }
    ensures any { list_any (spec.has_point (spec.point line address)) stretches.now ≡ list_any (spec.ends_after (spec.point line address)) (take result stretches.now) }
{
    stretches.partition_point(|stretch| is_by(stretch, line, address))
}

/// Returns whether the last stretch that starts by a point has it, or one before does: by the greatest end on its line.
pub fn is_beyond(stretch: &Stretch, reach: u64, line: u128, address: u64) -> bool
    requires { spec.start_point stretch.now ≤ spec.point line address }
    ensures { result ≡ nat_lt (spec.point line address) (spec.point stretch.now.line reach) }
{
    let Stretch {
        line: own,
        start: _start,
        ..
    } = *stretch;
    own == line && address < reach
}
