//! The ends of spans: between two of them no span begins or ends.

ghost use Rattle.std.specs.Prelude.{◌*◌, ◌≤◌, All, IfOk, length};
ghost use Rattle.std.specs.List.Sorted.{IsNonDecreasing};
ghost use Rattle.sf_lookup.specs.Span.{HasEnds};

use crate::span::Span;
use std::alloc::{AllocError, Global};

/// Puts the ends of spans in order.
pub fn points_of<A>(alloc: Global, spans: &[Span<A>]) -> Result<Vec<u64>, AllocError>
    ensures rise { IfOk result (λ points. IsNonDecreasing points.items) }
    ensures ends { IfOk result (λ points. All (HasEnds points.items) spans.now) }
    ensures most { IfOk result (λ points. length points.items ≤ 2 * length spans.now) }
{
    let mut points = Vec::with_capacity(alloc, spans.len().saturating_mul(2))?;
    for span in spans {
        points.push(span.start)?;
        if let Some(end) = span.start.checked_add(span.size) {
            points.push(end)?;
        }
    }
    points.sort_unstable();
    Ok(points)
}
