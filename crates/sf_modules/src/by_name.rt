//! Names by their numbers.

ghost use Rattle.std.specs.Prelude.{◌≡◌, List, ℕ, IfOk, map};
ghost use Rattle.std.specs.BTreeMap as tree;
ghost use Rattle.std.specs.Cmp.Lexicographic.{slice_cmp};
ghost use Rattle.std.specs.Ordering.{nat_cmp};
ghost use Rattle.sf_modules.specs.Name.{name_number};

use sf_base::NoMemory;
use std::alloc::Global;
use std::collections::BTreeMap;

/// Makes a map from each name to the number of the first of these names that is it.
///
/// `NoMemory` if out of memory, and for 2^32 names or more.
pub fn numbers_by_name<'n>(
    alloc: Global,
    names: &[&'n [u8]],
) -> Result<BTreeMap<&'n [u8], u32>, NoMemory>
    ensures { IfOk result (λ numbers. (name : List ℕ) → tree.get_by (λ k. slice_cmp nat_cmp name k.now) numbers ≡ name_number name (map (λ n. n.now) names.now)) }
{
    let Ok(count) = u32::try_from(names.len()) else {
        return Err(NoMemory);
    };
    let mut numbers = BTreeMap::new(alloc);
    for number in 0..count {
        let name = names[number as usize];
        if !numbers.contains_key(name) {
            numbers.insert(name, number)?;
        }
    }
    Ok(numbers)
}
