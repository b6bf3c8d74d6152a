//! The modules of a process and their signal frames, put in order once for all walks, and whether its threads have masks.

ghost use Rattle.std.specs.Prelude.{◌≡◌, IfOk, map};
ghost use Rattle.process_walk.specs.Process.{given_spans};

use crate::masks::are_unmasked;
use crate::signals::OrderedSignals;
use core_notes::Thread;
use sf_base::NoMemory;
use sf_lookup::Span;
use sf_modules::{Entry, Module, Modules};
use signal_frames::SignalFrame;
use std::alloc::Global;

/// The modules of a process put in order, the signal frames of each, and whether no thread has a mask.
#[derive(Drop)]
pub struct Process<'m> {
    /// The entries of the note on mapped files, and the modules.
    pub(crate) modules: Modules<'m>,
    /// The functions that have a signal frame, by the number of their module.
    pub(crate) signals: Vec<OrderedSignals<'m>>,
    /// Whether no thread has a mask of its return addresses.
    pub(crate) is_unmasked: bool,
}

// Puts the functions of each module in order.
fn in_order<'m>(
    alloc: Global,
    signals: &[&'m [Span<SignalFrame>]],
) -> Result<Vec<OrderedSignals<'m>>, NoMemory>
    ensures { IfOk result (λ ordered. map given_spans ordered.items ≡ map (λ s. s.now) signals.now) }
{
    let mut ordered = Vec::with_capacity(alloc, signals.len())?;
    for given in signals {
        ordered.push(OrderedSignals::new(alloc, given)?)?;
    }
    Ok(ordered)
}

impl<'m> Process<'m> {
    ghost use Rattle.std.specs.Prelude.{◌≡◌, IfOk, map};
    ghost use Rattle.sf_modules.specs.Entry.{mapping_view};
    ghost use Rattle.sf_modules.specs.Module.{module_view};
    ghost use Rattle.sf_modules.specs.Span.{module_number_at};
    ghost use Rattle.process_walk.specs.Masks.{are_unmasked};
    ghost use Rattle.process_walk.specs.Process.{entries_in, is_unmasked, modules_in, signals_in};
    ghost use Rattle.process_walk.specs.Signals.{signal_at};

    /// Puts the entries of a process's note on mapped files, its modules, and the functions of each module that have a signal
    /// frame in order, once for all walks of its threads. The functions of a module are in the list at the module's number.
    ///
    /// `NoMemory` if out of memory.
    pub fn new(
        alloc: Global,
        entries: &'m [Entry<'m>],
        modules: &'m [Module<'m, 'm>],
        signals: &[&'m [Span<SignalFrame>]],
        threads: &[Thread],
    ) -> Result<Process<'m>, NoMemory>
        ensures entries { IfOk result (λ p. entries_in p ≡ map mapping_view entries.now) }
        ensures modules { IfOk result (λ p. modules_in p ≡ map module_view modules.now) }
        ensures signals { IfOk result (λ p. signals_in p ≡ map (λ s. s.now) signals.now) }
        ensures threads { IfOk result (λ p. is_unmasked p ≡ are_unmasked threads.now) }
    {
        let modules = Modules::new(alloc, entries, modules)?;
        let signals = in_order(alloc, signals)?;
        let is_unmasked = are_unmasked(threads);
        Ok(Process {
            modules,
            signals,
            is_unmasked,
        })
    }

    /// Finds the number of the module that has an address.
    pub fn number_at(&self, pc: u64) -> Option<u32>
        ensures { result ≡ module_number_at (entries_in self.now) (modules_in self.now) pc }
    {
        self.modules.number_at(pc)
    }

    /// Finds the signal frame at an address: that of the first function that has it, in the module there.
    pub(crate) fn signal_at(&self, pc: u64) -> Option<SignalFrame>
        ensures { result ≡ signal_at (entries_in self.now) (modules_in self.now) (signals_in self.now) pc }
    {
        let number = self.number_at(pc)?;
        let signals = self.signals.get(number as usize)?;
        signals.signal_at(pc)
    }
}
