//! The list form: lists of functions made into one. No program calls it.

ghost use Rattle.std.specs.Prelude.{◌<◌, ◌≤◌, ◌+◌, length, All, IfOk};
ghost use Rattle.std.specs.List.{flat_map, AllAdjacentBelow, AllPairs};
ghost use Rattle.std.specs.List.Sorted.{IsPermutation};
ghost use Rattle.sf_model.specs.Union.{IsApart};
ghost use Rattle.sf_model.specs.declared.function.Func.{Func as func_fact};
ghost use Rattle.sf_merge.specs.Joining.{RisesStrictly};

use sf_base::NoMemory;
use sf_model::Func;
use std::alloc::Global;

/// Joins lists of functions, each by rising start, into the one list by rising start. All have bytes, and
/// no two share an address.
pub fn join(alloc: Global, parts: Vec<Vec<Func>>) -> Result<Vec<Func>, NoMemory>
    requires rising { All (λ part. RisesStrictly part.items) parts.items }
    requires sized { All (λ (f : func_fact). 0 < f.size) (flat_map (λ part. part.items) parts.items) }
    requires apart { AllPairs IsApart (flat_map (λ part. part.items) parts.items) }
    // The joined functions are those of the lists.
    ensures joined { IfOk result (λ joined. IsPermutation (flat_map (λ part. part.items) parts.items) joined.items) }
    // Their starts rise, and each ends where the next one starts, or before.
    ensures rising { IfOk result (λ joined. RisesStrictly joined.items) }
    ensures apart { IfOk result (λ joined. AllAdjacentBelow (λ (f : func_fact) (g : func_fact). f.start + f.size ≤ g.start) joined.items (length joined.items)) }
{
    let mut joined = Vec::new(alloc);
    for mut part in parts {
        joined.append(&mut part)?;
    }
    joined.sort_by_key(|func| func.start)?;
    Ok(joined)
}
