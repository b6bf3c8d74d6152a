//! Texts that a zero byte ends.

ghost use Rattle.std.specs.Prelude.{◌≡◌, ◌==◌, ℕ, List, IfOk, IsOkAnd};
ghost use Rattle.std.specs.List.{position};
ghost use Rattle.sf_bytes.specs.Cursor.{Cursor, cursor, Gives, EndStays};
ghost use Rattle.sf_bytes.specs.Standing.{Stands, Text};
ghost use Rattle.sf_bytes.specs.Text.{text_at};

use crate::fault::ByteFault;
use crate::part::Part;

// Returns how many bytes are before the first zero byte.
fn text_length(bytes: &[u8]) -> Option<usize>
    ensures { result ≡ position (λ b. b == 0) bytes.now }
{
    bytes.iter().position(|byte| *byte == 0)
}

impl<'a> Part<'a> {
    #[tactic(auto, unfolding(crate::specs::Text::text_at))]
    fn read_text(&mut self) -> Result<&'a [u8], ByteFault>
        ensures exact { Gives (λ text. text.now) self.old self.new result (text_at (cursor self.old)) }
        ensures end { EndStays self.old self.new }
    {
        let Some(len) = text_length(self.bytes) else {
            return Err(ByteFault::Short(self.place));
        };
        let (text, rest) = self.bytes.split_at(len);
        let (_zero, after) = rest.split_at(1);
        *self = Part {
            bytes: after,
            place: self.place + len as u64 + 1,
        };
        Ok(text)
    }

    /// Lends the bytes before the next zero byte, and passes the zero.
    ///
    /// `Short` if no zero byte is left.
    pub fn text0(&mut self) -> Result<&'a [u8], ByteFault>
        // What is returned is there.
        ensures found { IfOk result (λ text. Stands Text text.now (cursor self.old) (cursor self.new)) }
        // What is there is returned.
        ensures only { (text : List ℕ) (after : Cursor) → Stands Text text (cursor self.old) after → IsOkAnd result (λ lent. lent.now ≡ text) × (cursor self.new ≡ after) }
        // `Short` if no zero byte is left, and the part is unchanged then.
        ensures exact { Gives (λ text. text.now) self.old self.new result (text_at (cursor self.old)) }
        // The part ends where it did.
        ensures end { EndStays self.old self.new }
    {
        self.read_text()
    }
}
