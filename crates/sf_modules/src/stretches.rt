//! The entries of a process put in order: whether one of them has a place of its file at an address is found by halves.

ghost use Rattle.std.specs.List.Sorted.{IsNonDecreasingBy};
ghost use Rattle.sf_modules.specs.Stretch.{AreReached, start_point};

use crate::by_name::numbers_by_name;
use crate::entry::Entry;
use crate::stretch::{
    Stretch, count_by, is_beyond, line_of, names_of, put_in_order, reach_of, stretches_of,
};
use sf_base::NoMemory;
use std::alloc::Global;
use std::collections::BTreeMap;

/// The entries of a process as stretches, in order.
#[derive(Drop)]
pub struct Stretches<'n> {
    // The number of the first entry of each name.
    numbers: BTreeMap<&'n [u8], u32>,
    stretches: Vec<Stretch>,
    // The greatest end of the line up to each stretch.
    reach: Vec<u64>,
    ghost rise: { IsNonDecreasingBy start_point stretches.items },
    ghost reached: { AreReached stretches.items reach.items },
}

/// A name, with the number of the first entry that has it.
#[derive(Clone, Copy)]
pub struct Named<'a> {
    /// The name.
    pub name: &'a [u8],
    /// The number, if an entry has the name.
    pub number: Option<u32>,
}

impl<'n> Stretches<'n> {
    ghost use Rattle.std.specs.Prelude.{◌≡◌, List, IfOk, map};
    ghost use Rattle.std.specs.List.{list_any};
    ghost use Rattle.sf_modules.specs.Entry.{EntryView, mapping_view, maps};
    ghost use Rattle.sf_modules.specs.Stretch.{has_place};
    ghost use Rattle.sf_modules.specs.Stretches.{AreStretchesOf, IsNamed};

    /// Puts the entries in order.
    ///
    /// `NoMemory` if out of memory, and for 2^32 entries or more.
    pub fn new(alloc: Global, entries: &[Entry<'n>]) -> Result<Stretches<'n>, NoMemory>
        ensures { IfOk result (λ s. AreStretchesOf s (map mapping_view entries.now)) }
    {
        let numbers = numbers_by_name(alloc, &names_of(alloc, entries)?)?;
        let mut stretches = stretches_of(alloc, entries, &numbers)?;
        put_in_order(&mut stretches);
        let reach = reach_of(alloc, &stretches)?;
        Ok(Stretches {
            numbers,
            stretches,
            reach,
        })
    }

    /// Returns a name with its number.
    pub fn named<'a>(&self, name: &'a [u8]) -> Named<'a>
        ensures name { result.name.now ≡ name.now }
        ensures number { IsNamed self.now result }
    {
        Named {
            name,
            number: self.numbers.get(name).copied(),
        }
    }

    // Returns whether one of the stretches of a number's line has this place at the address.
    fn has_place(&self, number: u32, address: u64, place: u64) -> bool
        ensures { result ≡ list_any (has_place number address place) self.now.stretches.items }
    {
        let line = line_of(number, address, place);
        match count_by(&self.stretches, line, address).checked_sub(1) {
            Some(last) => is_beyond(&self.stretches[last], self.reach[last], line, address),
            None => false,
        }
    }

    /// Returns whether one of the entries has this place of the file of this name at the address.
    pub fn any_maps(&self, named: &Named<'_>, address: u64, place: u64) -> bool
        requires { IsNamed self.now named.now }
        ensures { (entries : List EntryView) → AreStretchesOf self.now entries → result ≡ list_any (maps named.now.name.now address place) entries }
    {
        match named.number {
            Some(number) => self.has_place(number, address, place),
            None => false,
        }
    }
}
