//! The rows of a function, in order.

ghost use Rattle.std.specs.Prelude.{◌<◌, ◌+◌, ◌*◌, ◌^◌, ◌≡◌, ◌≤◌, IsTrue, false, length};
ghost use Rattle.sf_model.specs.RowBytes.{StandsAt};
ghost use Rattle.sf_model.specs.Section.{AreBytes};

use crate::row::{row_at, row_end};
use sf_model::{Arch, Row};

// Returns whether a run of bytes is at a place of others.
fn stands_at(all: &[u8], place: u64, run: &[u8]) -> bool
    ensures stands { IsTrue result → (place ≤ length all.now) × StandsAt all.now place run.now }
    ensures bytes { AreBytes all.now }
    ensures not { result ≡ false → place ≤ length all.now → StandsAt all.now place run.now → ⊥ }
{
    if place > all.len() as u64 {
        return false;
    }
    let (_, rest) = all.split_at(place as usize);
    if run.len() > rest.len() {
        return false;
    }
    let (front, _) = rest.split_at(run.len());
    front == run
}

/// An iterator over the rows of a function. It lends the section's bytes.
#[derive(Clone, Copy)]
pub struct RowIter<'a> {
    arch: Arch,
    rows: &'a [u8],
    start_width: u8,
    place: u64,
    left: u32,
    ghost near: { place + 68 * left < 2 ^ 60 },
}

impl<'a> RowIter<'a> {
    ghost use Rattle.std.specs.Prelude.{IsTrue, false};
    ghost use Rattle.sf_decode.specs.Row.{rows_in};
    ghost use Rattle.sf_decode.specs.View.{AreSpelled, rows_left};

    /// Returns the iterator over `count` rows from a place of the sub-section of rows on. `start_width`
    /// is the width of their starts. The iterator reads any bytes: what lies past their end reads as 0.
    #[inline(always)]
    pub fn new(arch: Arch, rows: &'a [u8], start_width: u8, first: u32, count: u32) -> RowIter<'a>
        ensures { rows_left result ≡ rows_in arch rows.now start_width first count }
    {
        RowIter {
            arch,
            rows,
            start_width,
            place: u64::from(first),
            left: count,
        }
    }

    /// Returns whether `count` rows of this machine are left, whose starts have this width, and their bytes begin with
    /// these.
    pub fn are_spelled(&self, arch: Arch, start_width: u8, count: u32, bytes: &[u8]) -> bool
        ensures spelled { IsTrue result → AreSpelled self.now arch start_width count bytes.now }
        ensures not { result ≡ false → AreSpelled self.now arch start_width count bytes.now → ⊥ }
    {
        self.arch == arch
            && self.start_width == start_width
            && self.left == count
            && stands_at(self.rows, self.place, bytes)
    }
}

impl<'a> Iterator for RowIter<'a> {
    ghost use Rattle.std.specs.Iterator.{YieldsFirst, item_count};
    ghost use Rattle.sf_decode.specs.View.{rows_left};

    type Item = Row;

    ghost next_gives = { YieldsFirst rows_left };

    ghost remaining = { item_count rows_left };

    #[tactic(auto, unfolding(crate::specs::Row::rows_in))]
    #[inline(always)]
    fn next(&mut self) -> Option<Row> {
        if self.left == 0 {
            return None;
        }
        let row = row_at(self.arch, self.rows, self.start_width, self.place);
        *self = RowIter {
            arch: self.arch,
            rows: self.rows,
            start_width: self.start_width,
            place: row_end(self.rows, self.start_width, self.place),
            left: self.left - 1,
        };
        Some(row)
    }
}
