//! The signal frames of a process's modules, put in order.

ghost use Rattle.sf_lookup.specs.Spans.{InOrder};

use sf_base::NoMemory;
use sf_lookup::{Span, Spans};
use signal_frames::SignalFrame;
use std::alloc::Global;

/// The functions of a module that have a signal frame, put in order: an address is looked up by halves.
#[derive(Drop)]
pub struct OrderedSignals<'m> {
    given: &'m [Span<SignalFrame>],
    spans: Spans<SignalFrame>,
    ghost ordered: { InOrder spans given.now },
}

impl<'m> OrderedSignals<'m> {
    ghost use Rattle.std.specs.Prelude.{◌≡◌, IfOk};
    ghost use Rattle.sf_lookup.specs.Span.{answer_of};
    ghost use Rattle.process_walk.specs.Process.{given_spans};

    /// Puts the functions of a module in order.
    ///
    /// `NoMemory` if out of memory.
    pub fn new(
        alloc: Global,
        given: &'m [Span<SignalFrame>],
    ) -> Result<OrderedSignals<'m>, NoMemory>
        ensures { IfOk result (λ s. given_spans s ≡ given.now) }
    {
        let spans = Spans::new(alloc, given)?;
        Ok(OrderedSignals { given, spans })
    }

    /// Returns the signal frame of the first function that has an address.
    pub fn signal_at(&self, pc: u64) -> Option<SignalFrame>
        ensures { result ≡ answer_of (given_spans self.now) pc }
    {
        self.spans.first_at(pc)
    }
}
