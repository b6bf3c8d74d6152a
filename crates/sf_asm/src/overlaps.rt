//! Overlaps among functions by rising start.

ghost use Rattle.std.specs.Prelude.{◌≡◌};
ghost use Rattle.sf_asm.specs.Linking.{overlap_with};

use crate::fault::GatherFault;
use sf_functions::shares_address;
use sf_model::Span;

/// Returns the fault of a function that begins before the end of another one.
#[inline(always)]
fn overlap_of(before: Option<Span>, span: Span) -> Option<GatherFault>
    ensures { result ≡ overlap_with before span }
{
    let before = before?;
    if shares_address(&before, &span) {
        return Some(GatherFault::Overlap(
            before.start,
            before.origin.item,
            span.start,
            span.origin.item,
        ));
    }
    None
}

/// What was seen of the addresses of functions so far.
#[derive(Drop)]
pub struct Overlaps {
    /// The last function that has bytes.
    before: Option<Span>,
    /// The fault of the first one that begins before the end of another one.
    first: Option<GatherFault>,
}

impl Overlaps {
    ghost use Rattle.std.specs.Prelude.{[], ◌∷◌, List};
    ghost use Rattle.std.specs.Option.{option_map};
    ghost use Rattle.sf_model.specs.declared.omission.Span.{Span as span_fact};
    ghost use Rattle.sf_asm.specs.Functions.{unless};
    ghost use Rattle.sf_asm.specs.Linking.{overlap_fault, overlap_in, overlap_left};

    /// Makes what is known before the first function.
    pub fn new() -> Overlaps
        ensures { (spans : List span_fact) → overlap_left result spans ≡ option_map overlap_fault (overlap_in spans) }
    {
        Overlaps {
            before: None,
            first: None,
        }
    }

    /// Goes on to the next function. One that has no bytes is passed over.
    #[inline(always)]
    pub fn see(&mut self, span: Span)
        ensures { (spans : List span_fact) → overlap_left self.old (span ∷ spans) ≡ overlap_left self.new spans }
    {
        if span.size == 0 || self.first.is_some() {
            return;
        }
        self.first = overlap_of(self.before, span);
        self.before = Some(span);
    }

    /// Returns the fault of the first overlap that was seen, if there is one.
    pub fn into_result(self) -> Result<(), GatherFault>
        ensures { result ≡ unless (overlap_left self []) }
    {
        match self.first {
            Some(fault) => Err(fault),
            None => Ok(()),
        }
    }
}
