//! The entries of a process by the last parts of their names: those of a word's last part are found in order.

ghost use Rattle.std.specs.Prelude.{◌≡◌, IfOk, map};
ghost use Rattle.sf_modules.specs.Entry.{mapping_view};
ghost use Rattle.sf_modules.specs.LastParts.{AreByPart};

use crate::entry::Entry;
use crate::name::last_part;
use sf_base::NoMemory;
use std::alloc::Global;
use std::collections::BTreeMap;

/// Where the entries of each last part are.
#[derive(Drop)]
pub struct LastParts<'n> {
    /// The number of the first entry of each last part.
    pub first: BTreeMap<&'n [u8], u32>,
    /// For each entry the number of the next one of its last part.
    pub next: Vec<Option<u32>>,
}

/// Finds the entries of each last part.
///
/// `NoMemory` if out of memory, and for 2^32 entries or more.
pub fn last_parts_of<'n>(alloc: Global, entries: &[Entry<'n>]) -> Result<LastParts<'n>, NoMemory>
    ensures { IfOk result (λ p. AreByPart p (map mapping_view entries.now)) }
{
    let Ok(count) = u32::try_from(entries.len()) else {
        return Err(NoMemory);
    };
    let mut first = BTreeMap::new(alloc);
    let mut next = Vec::with_capacity(alloc, entries.len())?;
    // From the last entry back: the map then has the next one of a part.
    for passed in 0..count {
        let number = count - 1 - passed;
        let part = last_part(entries[number as usize].name);
        let later = first.insert(part, number)?;
        next.push(later)?;
    }
    next.reverse();
    Ok(LastParts { first, next })
}
