//! A law over the definitions: a function that does nothing, for its contract.

ghost use Rattle.std.specs.Prelude.{ℕ, ℤ, List};
ghost use Rattle.sf_model.specs.declared.facts.FdeFacts.{FdeFacts as described};
ghost use Rattle.sf_model.specs.declared.machine.Arch.{Arch as machine};
ghost use Rattle.cfa_insn.specs.Listing.{Item};
ghost use Rattle.cfa_machine.specs.RowAtOffset.{row_at_offset};
ghost use Rattle.signal_frames.specs.declared.frame.SignalFrame.{SignalFrame as frame};
ghost use Rattle.signal_frames.specs.Row.{HasExpressions};
ghost use Rattle.signal_frames.specs.SignalFrame.{IsSignalFrame};

/// At each offset of a function with a signal frame the row that its instructions give has the rules of the signal frame as
/// expressions.
pub fn rows_have_expressions()
    ensures { (arch : machine) (facts : described) (initial own : List Item) (f : frame) → IsSignalFrame arch facts initial own f → (code : ℕ) (factor : ℤ) (offset : ℕ) → HasExpressions (row_at_offset code factor initial own offset) }
{}
