//! Where the texts of a file end. Each byte of the file is looked at once, however many texts it is part of.

ghost use Rattle.std.specs.Prelude.{◌≡◌, ◌≤◌, ◌==◌, ℕ, List, IfOk, OnOk, length, take};
ghost use Rattle.std.specs.List.{position_or_len};
ghost use Rattle.elf_read.specs.Number.{LiesAt};
ghost use Rattle.elf_read.specs.Views.{text_bytes};
ghost use Rattle.elf_groups.specs.StringEnds as spec;

use elf_read::{Text, bytes_before_zero};
use std::alloc::{AllocError, Global};
use std::collections::BTreeMap;

/// Bytes of a file from one place to another, none of them zero.
#[derive(Clone, Copy)]
struct Run {
    first: u64,
    end: u64,
}

/// The runs of bytes that were looked at in a file, by their ends.
#[derive(Drop)]
pub struct StringEnds {
    runs: BTreeMap<u64, Run>,
}

// Gives the first `count` bytes, or all of them.
fn front(bytes: &[u8], count: usize) -> &[u8]
    ensures { result.now ≡ take count bytes.now }
{
    match bytes.get(..count) {
        Some(front) => front,
        None => bytes,
    }
}

// Counts the bytes before the first zero byte. Those from `first` to `end` are known not to be zero, and are not looked at.
fn bytes_before_zero_past(bytes: &[u8], first: usize, end: usize) -> usize
    ensures count { spec.AreNotZero bytes.now first end → result ≡ position_or_len (λ b. b == 0) bytes.now }
    ensures within { result ≤ length bytes.now }
{
    let before = bytes_before_zero(front(bytes, first));
    if before < first {
        return before;
    }
    let known = first.max(end).min(bytes.len());
    let (_, rest) = bytes.split_at(known);
    let left = rest.len() - bytes_before_zero(rest);
    bytes.len() - left
}

impl StringEnds {
    /// Begins with no runs.
    pub fn new(alloc: Global) -> StringEnds
        ensures { (file : List ℕ) → spec.AreRuns file result }
    {
        StringEnds {
            runs: BTreeMap::new(alloc),
        }
    }

    // Finds the first run whose end is not below a place, or else gives an empty one past all places.
    fn run_from(&self, place: u64) -> Run
        ensures { (file : List ℕ) → spec.AreRuns file self.now → spec.IsFreeRun file result }
    {
        match self.runs.range(place..).next() {
            Some((_, run)) => *run,
            None => Run {
                first: u64::MAX,
                end: 0,
            },
        }
    }

    /// Counts the bytes of a text of the file.
    pub fn len_of(&mut self, text: &Text<'_>) -> Result<usize, AllocError>
        ensures len { IfOk result (λ len. (file : List ℕ) → spec.AreRuns file self.old → LiesAt text.now.place text.now.rest.now file → text_bytes text.now ≡ take len text.now.rest.now) }
        ensures within { IfOk result (λ len. len ≤ length text.now.rest.now) }
        ensures runs { OnOk result ((file : List ℕ) → spec.AreRuns file self.old → LiesAt text.now.place text.now.rest.now file → spec.AreRuns file self.new) }
    {
        let run = self.run_from(text.place);
        let first = run.first.saturating_sub(text.place);
        let end = run.end.saturating_sub(text.place);
        let len = bytes_before_zero_past(text.rest, first as usize, end as usize);
        if text.place < run.first {
            let first = text.place;
            let end = first.saturating_add(len as u64);
            self.runs.insert(end, Run { first, end })?;
        }
        Ok(len)
    }
}
