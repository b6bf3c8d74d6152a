//! A cache of what is found at addresses, in memory of the caller's.

ghost use Rattle.std.specs.Prelude.{◌≡◌, ◌<◌, ℕ};
ghost use Rattle.sf_model.specs.Walk.{LookUp};
ghost use Rattle.sample_walk.specs.Cache as spec;
ghost use Rattle.sample_walk.specs.Cache.{AreRight, located_by};

use crate::modules::{Located, Modules};
use crate::rule::Rule;
use sf_model::Base;

/// What is found at an address, if the entry is used.
#[repr(C)]
#[derive(Clone, Copy)]
pub struct CacheEntry {
    /// The address.
    pub address: u64,
    /// The index of the module that has the address.
    pub index: usize,
    /// The canonical frame address's offset from its register.
    pub cfa_offset: i32,
    /// The return address's offset from the canonical frame address, 0 if it isn't saved.
    pub ra_offset: i32,
    /// The frame pointer's offset from the canonical frame address, 0 if it isn't saved.
    pub fp_offset: i32,
    /// Whether the entry is used.
    pub is_used: bool,
    /// Whether a row holds at the address.
    pub has_row: bool,
    /// Whether the canonical frame address counts from the frame pointer, and not from the stack pointer.
    pub counts_from_fp: bool,
    /// Whether the return address is saved.
    pub ra_saved: bool,
    /// Whether the frame pointer is saved.
    pub fp_saved: bool,
    /// Whether the return address is signed.
    pub signed: bool,
}

// Returns whether a row counts from the frame pointer.
fn is_fp(base: Base) -> bool
    ensures { result ≡ spec.is_fp base }
{
    match base {
        Base::Fp => true,
        Base::Sp => false,
    }
}

// Returns what an entry says.
fn content_by(entry: &CacheEntry) -> Located
    ensures { result ≡ spec.entry_located entry.now }
{
    let base = if entry.counts_from_fp {
        Base::Fp
    } else {
        Base::Sp
    };
    let rule = Rule {
        base,
        cfa: entry.cfa_offset,
        ra: entry.ra_saved.then_some(entry.ra_offset),
        fp: entry.fp_saved.then_some(entry.fp_offset),
        signed: entry.signed,
    };
    Located {
        index: entry.index,
        rule: entry.has_row.then_some(rule),
    }
}

// Returns an entry without a row.
fn entry_without(address: u64, index: usize, is_used: bool) -> CacheEntry
    ensures { result ≡ spec.entry_without address index is_used }
{
    CacheEntry {
        address,
        index,
        cfa_offset: 0,
        ra_offset: 0,
        fp_offset: 0,
        is_used,
        has_row: false,
        counts_from_fp: false,
        ra_saved: false,
        fp_saved: false,
        signed: false,
    }
}

// Returns the entry of what is found at an address.
fn entry_of(address: u64, found: &Located) -> CacheEntry
    ensures { result ≡ spec.cached address found.now.index found.now.rule }
{
    let Some(rule) = found.rule else {
        return entry_without(address, found.index, true);
    };
    CacheEntry {
        address,
        index: found.index,
        cfa_offset: rule.cfa,
        ra_offset: rule.ra.unwrap_or(0),
        fp_offset: rule.fp.unwrap_or(0),
        is_used: true,
        has_row: true,
        counts_from_fp: is_fp(rule.base),
        ra_saved: rule.ra.is_some(),
        fp_saved: rule.fp.is_some(),
        signed: rule.signed,
    }
}

// Returns the place of the entry for an address. With a power of two of entries each place can be taken.
fn slot_of(address: u64, len: usize) -> usize
    requires { 0 < len }
    ensures { result < len }
{
    ((address ^ (address >> 9)) as usize) & (len - 1)
}

/// Finds the module that has an address, and the row that holds there, by a cache that is right. A cache of no entries
/// keeps nothing.
pub fn locate<L: Modules>(modules: &L, cache: &mut [CacheEntry], address: u64) -> Located
    requires { AreRight (L.row_at modules.now) (L.index_at modules.now) cache.old }
    ensures found { result ≡ located_by (L.row_at modules.now) (L.index_at modules.now) address }
    ensures cache { AreRight (L.row_at modules.now) (L.index_at modules.now) cache.new }
{
    if cache.is_empty() {
        return modules.find(address);
    }
    let slot = slot_of(address, cache.len());
    let entry = cache[slot];
    if entry.is_used && entry.address == address {
        return content_by(&entry);
    }
    let found = modules.find(address);
    cache[slot] = entry_of(address, &found);
    found
}

/// Clears a cache: from then on it is right for the modules that it is used with first.
pub fn clear(cache: &mut [CacheEntry])
    ensures { (look_up : LookUp) (index : ℕ → ℕ) → AreRight look_up index cache.new }
{
    for i in 0..cache.len() {
        // With the address 0 a compiler would call memset, and nothing else of the C library is called.
        cache[i] = entry_without(u64::MAX, 0, false);
    }
}
