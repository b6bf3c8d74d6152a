//! One pass over a function's rows.

ghost use Rattle.std.specs.Prelude.{◌≡◌, None, OnOk};
ghost use Rattle.sf_decode.specs.View.{rows_left};
ghost use Rattle.sf_slim.specs.Pass as spec;

use sf_base::NoMemory;
use sf_decode::RowIter;
use sf_express::is_repeated;
use sf_model::{Content, Func, FuncHead, Key, Row, Rows, Shape};
use std::alloc::Global;

/// Returns whether a row begins within the function, and its content isn't that of the last row that was kept.
#[inline(always)]
fn is_needed(last: Option<Content>, size: u32, row: &Row) -> bool
    ensures { result ≡ spec.is_needed last size row.now }
{
    row.start < size && !is_repeated(last, row.content)
}

/// Reads the rows that begin within the function and change the content, over the rows that are there.
fn keep_rows(size: u32, rows: RowIter<'_>, kept: &mut Rows) -> Result<(), NoMemory>
    ensures { OnOk result (kept.new ≡ spec.kept None size (rows_left rows.entry)) }
{
    kept.clear();
    let mut last = None;
    for row in rows {
        if is_needed(last, size, &row) {
            kept.push(row)?;
            last = Some(row.content);
        }
    }
    Ok(())
}

/// Reads all rows, over the rows that are there.
fn all_rows(rows: RowIter<'_>, all: &mut Rows) -> Result<(), NoMemory>
    ensures { OnOk result (all.new ≡ rows_left rows.entry) }
{
    all.clear();
    for row in rows {
        all.push(row)?;
    }
    Ok(())
}

/// Reads the rows of a function that are needed, over the rows that are there. A function of repeated
/// blocks keeps its rows.
#[inline(always)]
fn needed_rows(head: &FuncHead, rows: RowIter<'_>, kept: &mut Rows) -> Result<(), NoMemory>
    ensures { OnOk result (kept.new ≡ spec.needed_rows head.now.shape head.now.size (rows_left rows.entry)) }
{
    match head.shape {
        Shape::Repeat(_) => all_rows(rows, kept),
        Shape::Plain => keep_rows(head.size, rows, kept),
    }
}

/// Reads a function with the rows that are needed, over the one that is there.
#[inline(always)]
pub(crate) fn keep_function(
    head: &FuncHead,
    rows: RowIter<'_>,
    kept: &mut Func,
) -> Result<(), NoMemory>
    ensures { OnOk result (kept.new ≡ spec.kept_function (spec.head_with_rows head.now (rows_left rows.entry))) }
{
    kept.start = head.start;
    kept.size = head.size;
    kept.shape = head.shape;
    kept.key = head.key;
    needed_rows(head, rows, &mut kept.rows)
}

/// Makes a function to read into.
pub(crate) fn empty_function(alloc: Global) -> Func {
    Func {
        start: 0,
        size: 0,
        shape: Shape::Plain,
        key: Key::A,
        rows: Rows::new(alloc),
    }
}

/// Returns whether an offset is within a block.
#[inline(always)]
fn is_in_block(shape: Shape, offset: u32) -> bool
    ensures { result ≡ spec.is_in_block shape offset }
{
    match shape {
        Shape::Plain => true,
        Shape::Repeat(block) => offset < u32::from(block),
    }
}

/// Returns whether a function has a row at some address: its first row begins within it.
#[inline(always)]
pub(crate) fn has_row(head: &FuncHead, rows: RowIter<'_>) -> bool
    ensures { result ≡ spec.has_row (spec.head_with_rows head.now (rows_left rows.entry)) }
{
    let mut rows = rows;
    match rows.next() {
        None => false,
        Some(first) => first.start < head.size && is_in_block(head.shape, first.start),
    }
}
