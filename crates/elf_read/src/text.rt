//! Texts of string tables.

ghost use Rattle.std.specs.Prelude.{◌≡◌, ◌==◌, ◌<◌, ◌^◌, ℕ, length};
ghost use Rattle.std.specs.Cmp.Lexicographic.{pointwise};
ghost use Rattle.std.specs.List.{position};
ghost use Rattle.elf_read.specs.Number.{text_in, EndsTexts};

use crate::number::{bytes_at, bytes_from};

/// Returns how many bytes are before the first zero byte.
pub fn text_len(bytes: &[u8]) -> Option<usize>
    ensures { result ≡ position (λ b. b == 0) bytes.now }
{
    bytes.iter().position(|byte| *byte == 0)
}

/// Returns the text that begins at a place of a string table.
#[tactic(auto, unfolding(crate::specs::Number::text_in))]
pub fn text_at(table: &[u8], place: u64) -> &[u8]
    ensures { result.now ≡ text_in place table.now }
{
    let rest = bytes_from(table, place);
    match text_len(rest) {
        Some(len) => rest.split_at(len).0,
        None => rest,
    }
}

/// A text of a string table. Its end is looked for when its bytes are asked for.
#[derive(Clone, Copy)]
pub struct Text<'a> {
    /// Its place in the file.
    pub place: u64,
    /// The bytes of its table from there on. It ends before the first that is zero.
    pub rest: &'a [u8],
}

impl<'a> Text<'a> {
    /// Returns the text's bytes.
    pub fn bytes(&self) -> &'a [u8]
        ensures { result.now ≡ text_in 0 self.now.rest.now }
    {
        text_at(self.rest, 0)
    }

    /// Returns whether the text has no bytes. At most one byte is looked at.
    pub fn is_empty(&self) -> bool
        ensures { result ≡ (length (text_in 0 self.now.rest.now) == 0) }
    {
        match self.rest {
            [byte, ..] => *byte == 0,
            [] => true,
        }
    }
}

/// Returns whether the text at a place of a string table is this one. No more of the table is looked at.
pub fn text_is(table: &[u8], place: u64, text: &[u8]) -> bool
    requires { length text.now < 2 ^ 32 }
    ensures { result ≡ pointwise (λ (a b : ℕ). a == b) (text_in place table.now) text.now }
{
    text_at(bytes_at(table, place, text.len() as u64 + 1), 0) == text
}

/// Returns the first place after all texts of a string table: texts are at the places before, and at no other.
pub fn texts_end(table: &[u8]) -> u64
    ensures { EndsTexts table.now result }
{
    let mut end = 0;
    for i in 0..table.len() {
        if table[i] == 0 {
            end = i as u64 + 1;
        }
    }
    end
}
