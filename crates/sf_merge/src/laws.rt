//! Laws: the result of merging, at once and in parts.

ghost use Rattle.std.specs.Prelude.{◌≡◌, ◌<◌, ◌++◌, ℕ, List, [], ◌∷◌, Result, Err, length};
ghost use Rattle.std.specs.List.Sorted.{IsPermutation};
ghost use Rattle.sf_model.specs.declared.function.Func.{Func};
ghost use Rattle.sf_model.specs.Table.{Table};
ghost use Rattle.sf_merge.specs.declared.fault.MergeFault.{MergeFault};
ghost use Rattle.sf_merge.specs.Merging.{Merges};
ghost use Rattle.sf_merge.specs.Parts.{AreMerged, AreMergedInParts, IsTooFar, Part, part_tables};

/// Merging sections has at most one result: the functions that are written, or the first fault.
pub fn merging_comes_to_one_result()
    ensures { (tables : List Table) (at : ℕ) (one other : Result (List Func) MergeFault) → Merges tables at one → Merges tables at other → one ≡ other }
{}

/// Merging sections has a result: the functions that are written, or the first fault.
#[tactic(auto, using(crate::proofs::SomeResult::some_result))]
pub fn merging_comes_to_a_result()
    ensures { (tables : List Table) (at : ℕ) → (result : Result (List Func) MergeFault) × Merges tables at result }
{}

/// Sections that are merged in parts, in any groups and any order, give the same bytes as all merged at
/// once. Each partial section is read at the address that it was written for. Where all can be merged at
/// once, any of those that remain after some steps can be merged, unless a function is too far from the
/// partial section; and all that remain can be merged, for the address of the whole.
pub fn merging_in_parts()
    ensures same { (sections : List Part) (steps : List (List Part)) (once parts : Part) → 0 < length sections → 0 < length steps → once.at ≡ parts.at → AreMerged sections once → AreMergedInParts steps sections (parts ∷ []) → once.bytes ≡ parts.bytes }
    ensures partial { (sections left some others : List Part) (steps : List (List Part)) (once : Part) → AreMerged sections once → AreMergedInParts steps sections left → IsPermutation left (some ++ others) → (at : ℕ) (fault : MergeFault) → Merges (part_tables some) at (Err fault) → IsTooFar fault }
    ensures whole { (sections left : List Part) (steps : List (List Part)) (once : Part) → AreMerged sections once → AreMergedInParts steps sections left → (fault : MergeFault) → Merges (part_tables left) once.at (Err fault) → ⊥ }
{}
