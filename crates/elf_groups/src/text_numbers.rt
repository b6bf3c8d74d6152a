//! Texts of whole blocks, each with a number of its own: long texts that end alike are compared by their numbers.

ghost use Rattle.std.specs.Prelude.{◌≤◌, length, drop, IfOk, OnOk};
ghost use Rattle.elf_groups.specs.TextNumbers.{AreBlocks, KeepsNumbers, Numbers};

use std::alloc::{AllocError, Global};
use std::collections::BTreeMap;

/// The length of a block in bytes.
pub const BLOCK: usize = 256;

/// A text of whole blocks.
#[derive(Clone, Copy)]
struct BlockText<'a> {
    /// The number of what follows its first block.
    rest: usize,
    bytes: &'a [u8],
}

/// Texts of whole blocks, numbered from 1 on, no two of them the same. What follows the first block of one has a number
/// too, and the text without bytes has the number 0.
#[derive(Drop)]
pub struct TextNumbers<'a> {
    texts: Vec<BlockText<'a>>,
    /// Their numbers, by the number of what follows the first block, and that block.
    numbers: BTreeMap<(usize, &'a [u8]), usize>,
}

impl<'a> TextNumbers<'a> {
    /// Begins with no texts.
    pub fn new(alloc: Global) -> TextNumbers<'a>
        ensures { AreBlocks result }
    {
        TextNumbers {
            texts: Vec::new(alloc),
            numbers: BTreeMap::new(alloc),
        }
    }

    /// Gives the number of a text, a new one where it has none yet. `rest` is the number of what follows its first block.
    pub fn number(&mut self, rest: usize, text: &'a [u8]) -> Result<usize, AllocError>
        requires { 256 ≤ length text.now }
        ensures number { IfOk result (λ number. AreBlocks self.old → Numbers self.old rest (drop 256 text.now) → Numbers self.new number text.now) }
        ensures blocks { OnOk result (AreBlocks self.old → Numbers self.old rest (drop 256 text.now) → AreBlocks self.new) }
        ensures grows { OnOk result (KeepsNumbers self.old self.new) }
    {
        let (block, _) = text.split_at(BLOCK);
        if let Some(number) = self.numbers.get(&(rest, block)) {
            return Ok(*number);
        }
        self.texts.push(BlockText { rest, bytes: text })?;
        let number = self.texts.len();
        self.numbers.insert((rest, block), number)?;
        Ok(number)
    }
}
