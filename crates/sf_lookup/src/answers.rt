//! Where points lead to, by the spans.

ghost use Rattle.std.specs.Prelude.{◌≡◌, ◌++◌, OnOk, map};
ghost use Rattle.std.specs.List.Sorted.{IsNonDecreasing};
ghost use Rattle.sf_lookup.specs.Span as spec;

use crate::span::Span;
use crate::sweep::{Sweep, numbers_of};
use std::alloc::{AllocError, Global};

/// Appends where each point leads to, by the first span that has it.
pub fn push_answers<A: Copy>(
    alloc: Global,
    points: &[u64],
    spans: &[Span<A>],
    answers: &mut Vec<Option<A>>,
) -> Result<(), AllocError>
    requires { IsNonDecreasing points.now }
    ensures { OnOk result (answers.new.items ≡ answers.old.items ++ map (spec.answer_of spans.now) points.now) }
{
    let numbers = numbers_of(alloc, spans)?;
    let mut sweep = Sweep::new(alloc, spans, &numbers)?;
    for point in points {
        answers.push(sweep.answer_at(*point)?)?;
    }
    Ok(())
}
