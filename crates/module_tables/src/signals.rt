//! The signal frames of functions.

ghost use Rattle.std.specs.Prelude.{◌≡◌, ◌<◌, ℕ, List, Some, IfOk, IfSome, OnOk, get_or, length};
ghost use Rattle.frame_functions.specs.Functions.{Function as function};
ghost use Rattle.signal_frames.specs.declared.frame.SignalFrame.{SignalFrame as frame};
ghost use Rattle.module_tables.specs.Rules.{AreKept};
ghost use Rattle.module_tables.specs.Signals.{AreSignals, HasSignalFrame, IsSignalOf, signal_span};

use crate::rules::KeptRules;
use frame_functions::Descriptions;
use sf_base::NoMemory;
use sf_lookup::Span;
use signal_frames::{SignalFrame, is_signal, signal_frame};
use std::alloc::Global;

// Returns the addresses of a function with its signal frame, if it has one.
fn signal_of<'a>(
    descriptions: &Descriptions<'a>,
    number: usize,
    kept: &mut KeptRules<'a>,
) -> Result<Option<Span<SignalFrame>>, NoMemory>
    requires number { number < length descriptions.now.functions }
    requires kept { AreKept descriptions.now.common kept.old }
    ensures found { (d : function) → IfOk result (λ found. IfSome found (λ signal. IsSignalOf (get_or descriptions.now.functions number d) signal)) }
    ensures only { (d : function) (f : frame) → HasSignalFrame (get_or descriptions.now.functions number d) f → IfOk result (λ found. found ≡ Some (signal_span (get_or descriptions.now.functions number d) f)) }
    ensures kept { OnOk result (AreKept descriptions.now.common kept.new) }
{
    let description = descriptions.get(number);
    if !is_signal(description.arch, &description.facts) {
        return Ok(None);
    }
    let rules = kept.find(descriptions.common_number(number), description.initial)?;
    let Some(found) = signal_frame(
        description.arch,
        &description.facts,
        &rules,
        description.own,
    ) else {
        return Ok(None);
    };
    Ok(Some(Span {
        start: description.facts.start,
        size: description.facts.size,
        leads_to: found,
    }))
}

/// Lists the addresses of functions with their signal frames, of those that have one, in order.
pub fn signals_of(
    alloc: Global,
    descriptions: &Descriptions<'_>,
) -> Result<Vec<Span<SignalFrame>>, NoMemory>
    ensures { IfOk result (λ signals. AreSignals descriptions.now.functions signals.items) }
{
    let mut kept = KeptRules::new(alloc);
    let mut signals = Vec::new(alloc);
    for number in 0..descriptions.len() {
        if let Some(signal) = signal_of(descriptions, number, &mut kept)? {
            signals.push(signal)?;
        }
    }
    Ok(signals)
}
