//! A law over the definitions: a function that does nothing, for its contract.

ghost use Rattle.std.specs.Prelude.{◌≡◌, ℕ, List, Result};
ghost use Rattle.sf_model.specs.declared.function.Func.{Func as func};
ghost use Rattle.sf_model.specs.Table.{Table};
ghost use Rattle.sf_slim.specs.declared.fault.SlimFault.{SlimFault as slim_fault};
ghost use Rattle.sf_slim.specs.Slimming.{Slims};

/// Slimming a section has at most one result: the functions that are written, or the first fault.
pub fn slimming_comes_to_one_result()
    ensures { (bytes : List ℕ) (table : Table) (at : ℕ) (one other : Result (List func) slim_fault) → Slims bytes table at one → Slims bytes table at other → one ≡ other }
{}
