//! Spans put in order: the first that has an address, found by halves.
//!
//! Spans may overlap, and then the first of them decides. So the ends of all spans are put in order, as points, and
//! each point gets where the first span that has it leads to. Up to the next point every address leads there.

ghost use Rattle.std.specs.Prelude.{◌≡◌, ◌^◌, ◌<◌, length};
ghost use Rattle.std.specs.List.Sorted.{IsNonDecreasing};

use crate::answers::push_answers;
use crate::points::points_of;
use crate::search::last_start;
use crate::span::Span;
use crate::starts::Starts;
use crate::steps::Steps;
use std::alloc::{AllocError, Global};
use std::marker::Brand;
use std::sync::ledger::{Blank, Ledger};

/// Spans of addresses put in order, once for many look-ups: for n spans in the time of a sort of them, and with some
/// 40 bytes for each of them, whether they overlap or not.
#[derive(Drop)]
pub struct Spans<A> {
    points: Vec<u64>,
    answers: Vec<Option<A>>,
    ghost rise: { IsNonDecreasing points.items },
    ghost counted: { length answers.items ≡ length points.items },
    ghost few: { length points.items < 2 ^ 32 },
}

/// The addresses from which on an answer holds, in order.
impl<A, L: Ledger> Starts<L> for Spans<A> {
    ghost starts = { λ spans. spans.points.items };

    #[inline(always)]
    fn count(&self) -> u32 {
        self.points.len() as u32
    }

    #[inline(always)]
    fn start_at(&self, i: u32, steps: &mut Steps<L>) -> u64 {
        steps.tick();
        self.points[i as usize]
    }
}

impl<A: Copy> Spans<A> {
    ghost use Rattle.std.specs.Prelude.{◌≡◌, ◌-◌, ◌*◌, ◌<◌, ◌≤◌, IfOk, List, length};
    ghost use Rattle.sf_lookup.specs.declared.span.Span as span;
    ghost use Rattle.sf_lookup.specs.Span.{answer_of};
    ghost use Rattle.sf_lookup.specs.Spans.{InOrder};
    ghost use Rattle.sf_lookup.specs.Steps.{IsWithinDigits};

    /// Puts the spans in order.
    ///
    /// `AllocError` where memory ran out, and for 2^32 ends of spans or more.
    pub fn new(alloc: Global, spans: &[Span<A>]) -> Result<Spans<A>, AllocError>
        ensures { IfOk result (λ ordered. InOrder ordered spans.now) }
    {
        let points = points_of(alloc, spans)?;
        if u32::try_from(points.len()).is_err() {
            return Err(AllocError);
        }
        let mut answers = Vec::with_capacity(alloc, points.len())?;
        push_answers(alloc, &points, spans, &mut answers)?;
        Ok(Spans { points, answers })
    }

    /// Finds where the first span that has an address leads to. Each point that is looked at is a step.
    pub fn first_counted<L: Ledger>(&self, pc: u64, steps: &mut Steps<L>) -> Option<A>
        ensures answer { (spans : List (span.Span A)) → InOrder self.now spans → result ≡ answer_of spans pc }
        ensures counted { steps.old ≤ steps.new }
        ensures cost { (spans : List (span.Span A)) → InOrder self.now spans → IsWithinDigits (steps.new - steps.old) (2 * length spans) }
    {
        let last = last_start(self, pc, steps)?;
        self.answers[last as usize]
    }

    // Finds what `first_at` does. It counts its steps and drops the count.
    fn first_uncounted<L: Ledger>(&self, pc: u64, blank: Blank) -> Option<A>
        requires name { blank.name ≡ L.name }
        requires parts { blank.parts ≡ L.parts }
        requires some { 0 < blank.parts }
        ensures { (spans : List (span.Span A)) → InOrder self.now spans → result ≡ answer_of spans pc }
    {
        self.first_counted(pc, &mut Steps::<L>::new(blank))
    }

    /// Finds where the first span that has an address leads to, by halves: [`Spans::first_counted`] counts its
    /// steps.
    pub fn first_at(&self, pc: u64) -> Option<A>
        ensures { (spans : List (span.Span A)) → InOrder self.now spans → result ≡ answer_of spans pc }
    {
        self.first_uncounted::<Brand>(pc, Blank::new(1))
    }
}
