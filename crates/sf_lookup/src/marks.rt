//! Rows from which a look-up reads on.

ghost use Rattle.std.specs.Prelude.{◌≡◌, ◌+◌, ◌-◌, ◌^◌, ◌<◌, ◌≤◌, IfOk, OnOk, length, map};
ghost use Rattle.sf_model.specs.Function.{RowsRise};
ghost use Rattle.sf_model.specs.Lookup.{row_at};
ghost use Rattle.sf_model.specs.Table.{row_count};
ghost use Rattle.sf_decode.specs.View.{function_of, rows_left, table_of};
ghost use Rattle.sf_lookup.specs.Mark.{AreMarks, AreMarksUpto, start_seen};
ghost use Rattle.sf_lookup.specs.Steps.{IsWithinDigits, rows_read};

use crate::row::row_at;
use crate::search::last_start;
use crate::sound::{fits_in_four_bytes, function_is_sound, rows_are_limited};
use crate::starts::Starts;
use crate::steps::Steps;
use sf_decode::{RowIter, View, functions_are_numbered};
use sf_model::Row;
use std::alloc::{AllocError, Global};
use std::sync::ledger::Ledger;

/// The number of rows of a function from one mark to the next.
const STRIDE: u32 = 64;

/// A row of a function, and the rows from it on.
#[derive(Clone, Copy)]
pub struct Mark<'a> {
    /// The number of the function.
    pub function: u32,
    /// The number of the row in the function.
    pub number: u32,
    /// The offset at which the row starts.
    pub start: u32,
    /// The row and those after it.
    pub rows: RowIter<'a>,
}

// Marks each row of a function whose number is a positive multiple of the stride.
fn mark_rows<'a>(view: &View<'a>, i: u32, marks: &mut Vec<Mark<'a>>) -> Result<(), AllocError>
    requires within { i < length (table_of view.now).functions }
    requires marks { AreMarksUpto view.now i 0 marks.old.items }
    ensures { OnOk result (AreMarksUpto view.now (i + 1) 0 marks.new.items) }
{
    functions_are_numbered(view);
    let mut rows = view.rows(i);
    for number in 0..view.func(i).rows {
        let from = rows;
        let Some(row) = rows.next() else {
            return Ok(());
        };
        fits_in_four_bytes(row.start);
        if number > 0 && number % STRIDE == 0 {
            marks.push(Mark {
                function: i,
                number,
                start: row.start,
                rows: from,
            })?;
        }
    }
    Ok(())
}

/// Makes the marks of the functions of a section, in order. Functions of 64 rows or fewer have none.
pub fn marks_of<'a>(alloc: Global, view: &View<'a>) -> Result<Vec<Mark<'a>>, AllocError>
    ensures { IfOk result (λ marks. AreMarks view.now marks.items) }
{
    functions_are_numbered(view);
    let mut marks = Vec::new(alloc);
    for i in 0..view.len() {
        if view.func(i).rows > STRIDE {
            mark_rows(view, i, &mut marks)?;
        }
    }
    Ok(marks)
}

// The marks of all functions, as the rows of one function see them.
#[derive(Clone, Copy)]
struct Seen<'m, 'a> {
    marks: &'m [Mark<'a>],
    function: u32,
    ghost few: { length marks.now < 2 ^ 32 },
}

impl<'m, 'a, L: Ledger> Starts<L> for Seen<'m, 'a> {
    ghost starts = { λ seen. map (start_seen seen.function) seen.marks.now };

    #[inline(always)]
    fn count(&self) -> u32 {
        self.marks.len() as u32
    }

    #[inline(always)]
    fn start_at(&self, i: u32, steps: &mut Steps<L>) -> u64 {
        steps.tick();
        let mark = &self.marks[i as usize];
        if mark.function < self.function {
            0
        } else if self.function < mark.function {
            u64::MAX
        } else {
            u64::from(mark.start)
        }
    }
}

// Finds the rows of a function from its last mark on that an offset has reached, or else from the first on. Each mark
// that is looked at is a step.
fn rows_near<'a, L: Ledger>(
    view: &View<'a>,
    marks: &[Mark<'a>],
    i: u32,
    offset: u64,
    steps: &mut Steps<L>,
) -> RowIter<'a>
    requires within { i < length (table_of view.now).functions }
    requires marks { AreMarks view.now marks.now }
    requires below { offset < 2 ^ 32 }
    ensures same { row_at offset (rows_left result) ≡ row_at offset (function_of view.now i).rows }
    ensures rise { RowsRise (rows_left result) }
    ensures counted { steps.old ≤ steps.new }
    ensures cost { IsWithinDigits (steps.new - steps.old + rows_read offset (rows_left result) - 64) (row_count (table_of view.now).functions) }
{
    function_is_sound(view, i);
    rows_are_limited(view);
    let seen = Seen { marks, function: i };
    if let Some(last) = last_start(&seen, offset, steps) {
        let mark = &marks[last as usize];
        if mark.function == i {
            return mark.rows;
        }
    }
    view.rows(i)
}

/// Finds the row of a function that holds at an offset, from the last mark on that the offset has reached. Each mark
/// that is looked at and each row that is read is a step.
pub fn row_near<L: Ledger>(
    view: &View<'_>,
    marks: &[Mark<'_>],
    i: u32,
    offset: u64,
    steps: &mut Steps<L>,
) -> Option<Row>
    requires within { i < length (table_of view.now).functions }
    requires marks { AreMarks view.now marks.now }
    requires below { offset < 2 ^ 32 }
    ensures row { result ≡ row_at offset (function_of view.now i).rows }
    ensures counted { steps.old ≤ steps.new }
    ensures cost { IsWithinDigits (steps.new - steps.old - 64) (row_count (table_of view.now).functions) }
{
    let rows = rows_near(view, marks, i, offset, steps);
    row_at(rows, offset, steps)
}
