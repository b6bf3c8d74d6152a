//! The texts of one file: where they end, and the numbers of those of whole blocks.

ghost use Rattle.std.specs.Prelude.{◌≡◌, ◌≤◌, ◌<◌, ◌+◌, ◌^◌, ℕ, List, length, IfOk, OnOk};
ghost use Rattle.elf_read.specs.Number.{LiesAt};
ghost use Rattle.elf_groups.specs.TextNumbers.{AreBlocks, KeepsNumbers, IsOfBlocks, Numbers};
ghost use Rattle.elf_groups.specs.declared.text_numbers.TextNumbers.{TextNumbers as numbered_texts};
ghost use Rattle.elf_groups.specs.SeenSignatures.{AreKnown, HasTexts, IsKnown};

use crate::string_ends::StringEnds;
use crate::text_numbers::{BLOCK, TextNumbers};
use std::alloc::{AllocError, Global};
use std::collections::BTreeMap;

/// A text of whole blocks from one place of a file to another, and its number.
#[derive(Clone, Copy)]
pub struct NumberedText {
    place: u64,
    end: u64,
    number: usize,
}

/// What is known of the texts of one file.
#[derive(Drop)]
pub struct FileStrings {
    /// Where they end.
    pub ends: StringEnds,
    /// Those of whole blocks that have a number, by their ends and places.
    known: BTreeMap<(u64, u64), NumberedText>,
}

impl FileStrings {
    /// Begins with nothing known.
    pub fn new(alloc: Global) -> FileStrings
        ensures { (file : List ℕ) (blocks : numbered_texts) → HasTexts file blocks result }
    {
        FileStrings {
            ends: StringEnds::new(alloc),
            known: BTreeMap::new(alloc),
        }
    }

    // Finds the longest text with a number that begins at a place or after it and ends at `end`: the empty one, if no other.
    fn known(&self, place: u64, end: u64) -> NumberedText
        requires { place ≤ end }
        ensures known { (file : List ℕ) (blocks : numbered_texts) → AreKnown file blocks self.now → IsKnown file blocks result }
        ensures end { result.end ≡ end }
        ensures from { place ≤ result.place }
        ensures upto { result.place ≤ end }
    {
        match self.known.range((end, place)..).next() {
            Some((_, known)) if known.end == end && place <= known.place && known.place <= end => {
                *known
            }
            _ => NumberedText {
                place: end,
                end,
                number: 0,
            },
        }
    }

    /// Gives the number of a text of whole blocks at a place of the file. Each block before an end is looked at once, in
    /// however many texts it is.
    pub fn number<'a>(
        &mut self,
        blocks: &mut TextNumbers<'a>,
        place: u64,
        text: &'a [u8],
    ) -> Result<usize, AllocError>
        requires { place + length text.now < 2 ^ 64 }
        ensures number { IfOk result (λ number. (file : List ℕ) → AreBlocks blocks.old → HasTexts file blocks.old self.old → LiesAt place text.now file → IsOfBlocks text.now → Numbers blocks.new number text.now) }
        ensures blocks { OnOk result ((file : List ℕ) → AreBlocks blocks.old → HasTexts file blocks.old self.old → LiesAt place text.now file → IsOfBlocks text.now → AreBlocks blocks.new) }
        ensures grows { OnOk result (KeepsNumbers blocks.old blocks.new) }
        ensures texts { OnOk result ((file : List ℕ) → AreBlocks blocks.old → HasTexts file blocks.old self.old → LiesAt place text.now file → IsOfBlocks text.now → HasTexts file blocks.new self.new) }
    {
        let end = place + text.len() as u64;
        let known = self.known(place, end);
        let left = (known.place - place) as usize;
        let mut number = known.number;
        for index in 0..left / BLOCK {
            let start = left - BLOCK - index * BLOCK;
            let (_, rest) = text.split_at(start);
            number = blocks.number(number, rest)?;
            let place = place + start as u64;
            self.known
                .insert((end, place), NumberedText { place, end, number })?;
        }
        Ok(number)
    }
}
