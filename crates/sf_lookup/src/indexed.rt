//! A section put in order for many look-ups.

ghost use Rattle.std.specs.Prelude.{◌≡◌, IfOk, IsTrue, None};
ghost use Rattle.sf_model.specs.Section.{is_sorted};
ghost use Rattle.sf_decode.specs.View.{table_of};
ghost use Rattle.sf_lookup.specs.Mark.{AreMarks};
ghost use Rattle.sf_lookup.specs.Numbered.{AreInOrder, numbered};

use crate::function::{by_start, is_sorted};
use crate::lookup::{Found, found_of, offset_at};
use crate::marks::{Mark, marks_of, row_near};
use crate::span::Span;
use crate::spans::Spans;
use crate::steps::Steps;
use sf_decode::{View, functions_are_numbered};
use std::alloc::{AllocError, Global};
use std::marker::Brand;
use std::sync::ledger::{Blank, Ledger};

/// A section whose functions are found by halves, whether they are sorted or not, and so are the rows of a function.
/// The spans of functions that are not sorted are put in order, and each 64th row of a function is marked.
#[derive(Drop)]
pub struct Indexed<'a> {
    view: View<'a>,
    spans: Option<Spans<u32>>,
    marks: Vec<Mark<'a>>,
    ghost ordered: { AreInOrder spans (table_of view).functions },
    ghost sorted: { spans ≡ None → IsTrue (is_sorted (table_of view).flags) },
    ghost marked: { AreMarks view marks.items },
}

// Lists the functions of a section as spans, each with its number.
fn spans_of(alloc: Global, view: &View<'_>) -> Result<Vec<Span<u32>>, AllocError>
    ensures { IfOk result (λ spans. spans.items ≡ numbered 0 (table_of view.now).functions) }
{
    functions_are_numbered(view);
    let mut spans = Vec::with_capacity(alloc, view.len() as usize)?;
    for i in 0..view.len() {
        let func = view.func(i);
        spans.push(Span {
            start: func.start,
            size: u64::from(func.size),
            leads_to: i,
        })?;
    }
    Ok(spans)
}

impl<'a> Indexed<'a> {
    ghost use Rattle.std.specs.Prelude.{◌≡◌, ◌-◌, ◌*◌, ◌<◌, ◌≤◌, IfOk, IfSome, IsTrue, length};
    ghost use Rattle.std.specs.List.{find};
    ghost use Rattle.std.specs.Option.{option_map};
    ghost use Rattle.sf_model.specs.Content.{content_fits};
    ghost use Rattle.sf_model.specs.Lookup.{contains, found_at};
    ghost use Rattle.sf_decode.specs.View.{function_of};
    ghost use Rattle.sf_lookup.specs.Indexed.{indexed_table, view_in};
    ghost use Rattle.sf_lookup.specs.Lookup.{shown};
    ghost use Rattle.sf_lookup.specs.Steps.{AreFew, IsWithinDigits};

    /// Puts the section in order. One whose functions are sorted and have at most 64 rows each allocates nothing.
    ///
    /// `AllocError` where memory ran out.
    pub fn new(alloc: Global, view: View<'a>) -> Result<Indexed<'a>, AllocError>
        ensures { IfOk result (λ indexed. view_in indexed ≡ view.entry) }
    {
        let marks = marks_of(alloc, &view)?;
        if is_sorted(view.flags()) {
            return Ok(Indexed {
                view,
                spans: None,
                marks,
            });
        }
        let spans = Spans::new(alloc, &spans_of(alloc, &view)?)?;
        Ok(Indexed {
            view,
            spans: Some(spans),
            marks,
        })
    }

    /// Returns the section.
    pub fn view(&self) -> &View<'a>
        ensures { result.now ≡ view_in self.now }
    {
        &self.view
    }

    // Finds the number of the first function that contains the address.
    fn first_containing<L: Ledger>(&self, pc: u64, steps: &mut Steps<L>) -> Option<u32>
        ensures within { IfSome result (λ i. i < length (indexed_table self.now).functions) }
        ensures first { option_map (function_of (view_in self.now)) result ≡ find (contains pc) (indexed_table self.now).functions }
        ensures counted { steps.old ≤ steps.new }
        ensures cost { IsWithinDigits (steps.new - steps.old) (2 * length (indexed_table self.now).functions) }
    {
        functions_are_numbered(&self.view);
        match &self.spans {
            Some(spans) => spans.first_counted(pc, steps),
            None => by_start(&self.view, pc, steps),
        }
    }

    /// Finds the function and the row that hold at an address: those that [`find`](crate::find) finds in the section.
    /// Each start or end of a function that is looked at is a step, each marked row that is looked at, and each row
    /// that is read.
    pub fn find_counted<L: Ledger>(&self, pc: u64, steps: &mut Steps<L>) -> Option<Found>
        ensures found { result ≡ option_map shown (found_at (indexed_table self.now).functions pc) }
        ensures fits { IfSome result (λ found. IsTrue (content_fits (indexed_table self.now).arch found.row.content)) }
        ensures counted { steps.old ≤ steps.new }
        // At most the binary digits of the number of functions' starts and ends, those of the number of rows, and 64.
        ensures cost { AreFew (indexed_table self.now).functions (steps.new - steps.old) }
    {
        let i = self.first_containing(pc, steps)?;
        let func = self.view.func(i);
        let offset = offset_at(&self.view, i, &func, pc);
        let row = row_near(&self.view, &self.marks, i, offset, steps);
        found_of(&self.view, i, pc, func, row)
    }

    // Finds what `find` does. It counts its steps and drops the count.
    fn find_uncounted<L: Ledger>(&self, pc: u64, blank: Blank) -> Option<Found>
        requires name { blank.name ≡ L.name }
        requires parts { blank.parts ≡ L.parts }
        requires some { 0 < blank.parts }
        ensures found { result ≡ option_map shown (found_at (indexed_table self.now).functions pc) }
        ensures fits { IfSome result (λ found. IsTrue (content_fits (indexed_table self.now).arch found.row.content)) }
    {
        self.find_counted(pc, &mut Steps::<L>::new(blank))
    }

    /// Finds the function and the row that hold at an address: those that [`find`](crate::find) finds in the section,
    /// in the steps of [`Indexed::find_counted`].
    pub fn find(&self, pc: u64) -> Option<Found>
        ensures found { result ≡ option_map shown (found_at (indexed_table self.now).functions pc) }
        ensures fits { IfSome result (λ found. IsTrue (content_fits (indexed_table self.now).arch found.row.content)) }
    {
        self.find_uncounted::<Brand>(pc, Blank::new(1))
    }
}
