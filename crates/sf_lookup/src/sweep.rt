//! A scan of spans from the least address up.

ghost use Rattle.std.specs.Prelude.{◌≡◌, IfOk};
ghost use Rattle.sf_lookup.specs.Begins.{AreByStart, span_start};

use crate::span::{Span, covers};
use std::alloc::{AllocError, Global};
use std::cmp::Reverse;
use std::collections::BinaryHeap;

/// Returns where the span with a number begins, 0 for a number past the last.
fn span_start<A>(spans: &[Span<A>], number: u32) -> u64
    ensures { result ≡ span_start spans.now number }
{
    match spans.get(number as usize) {
        Some(span) => span.start,
        None => 0,
    }
}

/// Sorts the numbers of spans by where the spans begin.
///
/// `AllocError` where memory ran out, and for 2^32 spans or more.
pub fn numbers_of<A>(alloc: Global, spans: &[Span<A>]) -> Result<Vec<u32>, AllocError>
    ensures { IfOk result (λ numbers. AreByStart spans.now numbers.items) }
{
    let Ok(count) = u32::try_from(spans.len()) else {
        return Err(AllocError);
    };
    let mut numbers = Vec::with_capacity(alloc, spans.len())?;
    for number in 0..count {
        numbers.push(number)?;
    }
    numbers.sort_unstable_by_key(|number| span_start(spans, *number));
    Ok(numbers)
}

/// The spans by an address: those that begin later, and those that have begun, with the first of the list on top. A
/// span that has ended may stay until it comes to the top.
#[derive(Drop)]
pub struct Sweep<'a, A> {
    spans: &'a [Span<A>],
    later: &'a [u32],
    begun: BinaryHeap<Reverse<u32>>,
}

impl<'a, A: Copy> Sweep<'a, A> {
    ghost use Rattle.std.specs.Prelude.{◌≡◌, ℕ, OnOk};
    ghost use Rattle.sf_lookup.specs.Span.{answer_of};
    ghost use Rattle.sf_lookup.specs.Sweep.{AllLater, IsAt};

    /// Starts before all addresses.
    pub fn new(
        alloc: Global,
        spans: &'a [Span<A>],
        numbers: &'a [u32],
    ) -> Result<Sweep<'a, A>, AllocError>
        requires { AreByStart spans.now numbers.now }
        ensures at { IfOk result (λ sweep. (point : ℕ) → IsAt point sweep) }
        ensures spans { IfOk result (λ sweep. sweep.spans.now ≡ spans.now) }
    {
        Ok(Sweep {
            spans,
            later: numbers,
            begun: BinaryHeap::with_capacity(alloc, spans.len())?,
        })
    }

    // Takes the spans that begin by a point.
    fn take_begun(&mut self, point: u64) -> Result<(), AllocError>
        requires { IsAt point self.old }
        ensures at { OnOk result (IsAt point self.new) }
        ensures later { OnOk result (AllLater point self.new) }
        ensures spans { self.new.spans.now ≡ self.old.spans.now }
    {
        while let [number, later @ ..] = self.later {
            if span_start(self.spans, *number) > point {
                return Ok(());
            }
            self.begun.push(Reverse(*number))?;
            self.later = later;
        }
        Ok(())
    }

    // Returns where the first span that has a point leads to. The spans before it that have ended are dropped.
    fn first_begun(&mut self, point: u64) -> Option<A>
        requires at { IsAt point self.old }
        requires later { AllLater point self.old }
        ensures at { IsAt point self.new }
        ensures spans { self.new.spans.now ≡ self.old.spans.now }
        ensures answer { result ≡ answer_of self.old.spans.now point }
    {
        while let Some(top) = self.begun.peek() {
            let span = &self.spans[top.0 as usize];
            if covers(span, point) {
                return Some(span.leads_to);
            }
            self.begun.pop();
        }
        None
    }

    /// Returns where the first span that has a point leads to. No point is below the one before it.
    pub fn answer_at(&mut self, point: u64) -> Result<Option<A>, AllocError>
        requires { IsAt point self.old }
        ensures at { OnOk result (IsAt point self.new) }
        ensures spans { self.new.spans.now ≡ self.old.spans.now }
        ensures answer { IfOk result (λ answer. answer ≡ answer_of self.old.spans.now point) }
    {
        self.take_begun(point)?;
        Ok(self.first_begun(point))
    }
}
