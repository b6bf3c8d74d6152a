//! The content of a function's rows from offset to offset, kept or omitted.

ghost use Rattle.std.specs.Prelude.{◌≡◌, ◌≢◌, ◌≤◌, ◌<◌, ◌+◌, ◌++◌, [], ℕ, get_or, length, map, None, Some, OnOk, IfOk};
ghost use Rattle.cfa_machine.specs.Columns.{row_from};
ghost use Rattle.cfa_machine.specs.Left.{present, rows_left};
ghost use Rattle.cfa_machine.specs.Pass.{Gives};
ghost use Rattle.sf_express.specs.declared.content_ranges.ContentRange.{ContentRange as range};
ghost use Rattle.sf_express.specs.Rules.{content_of};
ghost use Rattle.sf_express.specs.ContentRanges as spec;
ghost use Rattle.sf_express.specs.ContentRanges.{AreRanges, RangesDiffer, content_by};
ghost use Rattle.sf_express.specs.Run.{on_rows};

use crate::function::is_same;
use crate::row::content_at;
use cfa_machine::{MachineFault, Runner};
use sf_model::{Arch, Content, Row};
use std::alloc::{AllocError, Global};

/// A range: from an offset up to the next range, the content of a function's rows, if SFrame has a form for
/// it.
#[derive(Clone, Copy, PartialEq, Eq)]
pub struct ContentRange {
    /// The first offset, in bytes from the function's start.
    pub start: u64,
    /// The content, or none if there is a reason against the row.
    pub content: Option<Content>,
}

// Returns whether two rows have the same content.
#[inline(always)]
fn same_if_any(last: Option<Content>, content: Option<Content>) -> bool
    ensures { result ≡ spec.same_if_any last content }
{
    match last {
        None => content.is_none(),
        Some(last) => match content {
            None => false,
            Some(content) => is_same(last, content),
        },
    }
}

// Returns whether a row has the content of the row before.
#[inline(always)]
fn is_as_before(last: Option<Option<Content>>, content: Option<Content>) -> bool
    ensures { result ≡ spec.is_as_before last content }
{
    match last {
        None => false,
        Some(last) => same_if_any(last, content),
    }
}

// Appends the range, unless it has the content of the row before.
#[inline(always)]
fn append(
    ranges: &mut Vec<ContentRange>,
    last: Option<Option<Content>>,
    range: ContentRange,
) -> Result<(), AllocError>
    ensures { OnOk result (ranges.new.items ≡ ranges.old.items ++ spec.unless_again last range []) }
{
    if !is_as_before(last, range.content) {
        ranges.push(range)?;
    }
    Ok(())
}

// Returns the content of the row that a runner gave last.
#[inline(always)]
fn present_content(arch: Arch, run: &Runner<'_>) -> Option<Content>
    ensures { (start : ℕ) → result ≡ spec.content_in (content_of arch (row_from start (present run.now))) }
{
    content_at(arch, run.columns()).ok()
}

/// Returns the ranges of the rows that a runner was started on: a range where a row's content is not that
/// of the row before.
///
/// # Errors
///
/// The first fault of the instructions. `NoMemory` if memory runs out.
pub fn ranges_run(
    alloc: Global,
    arch: Arch,
    run: &mut Runner<'_>,
) -> Result<Vec<ContentRange>, MachineFault>
    ensures exact { Gives (λ ranges. ranges.items) result (on_rows (spec.ranges_of arch None) (rows_left run.old)) }
{
    let mut ranges = Vec::new(alloc);
    let mut last = None;
    while let Some(start) = run.next_row()? {
        let content = present_content(arch, run);
        append(&mut ranges, last, ContentRange { start, content })?;
        last = Some(content);
    }
    Ok(ranges)
}

/// Returns the rows of a section's function as ranges.
pub fn ranges_of_rows(alloc: Global, rows: &[Row]) -> Result<Vec<ContentRange>, AllocError>
    ensures { IfOk result (λ ranges. ranges.items ≡ map spec.range_of_row rows.now) }
{
    let mut ranges = Vec::new(alloc);
    for row in rows {
        ranges.push(ContentRange {
            start: u64::from(row.start),
            content: Some(row.content),
        })?;
    }
    Ok(ranges)
}

// Returns the place of the last range that begins by an offset. The first one does.
fn last_begun(ranges: &[ContentRange], offset: u64) -> usize
    requires some { 0 < length ranges.now }
    requires first { (d : range) → (get_or ranges.now 0 d).start ≤ offset }
    ensures within { result < length ranges.now }
    ensures begun { (d : range) → (get_or ranges.now result d).start ≤ offset }
    ensures last { (d : range) → result + 1 < length ranges.now → offset < (get_or ranges.now (result + 1) d).start }
{
    // The range at `low` begins by the offset, and none from `high` on does.
    let mut low = 0;
    let mut high = ranges.len();
    while high - low > 1 {
        let middle = low + (high - low) / 2;
        if ranges[middle].start <= offset {
            low = middle;
        } else {
            high = middle;
        }
    }
    low
}

/// Returns the content at an offset below the size, and the last offset below the size up to which the same
/// range goes.
pub fn range_at(ranges: &[ContentRange], size: u64, offset: u64) -> (Option<Content>, u64)
    requires ranges { AreRanges size ranges.now }
    requires below { offset < size }
    ensures from { offset ≤ result.1 }
    ensures within { result.1 < size }
    ensures says { (o : ℕ) → offset ≤ o → o ≤ result.1 → content_by o None ranges.now ≡ Some result.0 }
    ensures after { RangesDiffer None ranges.now → result.1 + 1 < size → content_by (result.1 + 1) None ranges.now ≢ Some result.0 }
{
    let place = last_begun(ranges, offset);
    let end = if place + 1 < ranges.len() {
        ranges[place + 1].start
    } else {
        size
    };
    (ranges[place].content, end - 1)
}
