//! Reads of fixed width.

ghost use Rattle.std.specs.Prelude.{◌≡◌, ◌<◌, ◌≤◌, ◌+◌, ◌^◌, ◌==◌, length, IfOk};
ghost use Rattle.sf_bytes.specs.Cursor.{cursor, Gives, EndStays, part_at, number_at, signed_at};

use crate::fault::ByteFault;
use crate::part::Part;
use byteorder::{ByteOrder, LittleEndian};

impl<'a> Part<'a> {
    /// Creates the part whose first byte is at `place`.
    #[inline(always)]
    pub fn new(bytes: &'a [u8], place: u64) -> Part<'a>
        requires { place + length bytes.now < 2 ^ 64 }
        ensures bytes { result.bytes.now ≡ bytes.now }
        ensures place { result.place ≡ place }
    {
        Part { bytes, place }
    }

    /// Returns how many bytes are left.
    #[inline(always)]
    pub fn len(&self) -> u64
        ensures { result ≡ length self.now.bytes.now }
    {
        self.bytes.len() as u64
    }

    /// Returns whether no byte is left.
    #[inline(always)]
    pub fn is_empty(&self) -> bool
        ensures { result ≡ (length self.now.bytes.now == 0) }
    {
        self.bytes.is_empty()
    }

    /// Lends the next `n` bytes.
    ///
    /// `Short` if fewer are left.
    #[tactic(auto, unfolding(crate::specs::Cursor::part_at))]
    #[inline(always)]
    pub fn take(&mut self, n: u64) -> Result<Part<'a>, ByteFault>
        ensures exact { Gives cursor self.old self.new result (part_at n (cursor self.old)) }
        ensures place { IfOk result (λ taken. taken.place ≡ self.old.place) }
        ensures len { IfOk result (λ taken. length taken.bytes.now ≡ n) }
        ensures inside { IfOk result (λ taken. taken.place + length taken.bytes.now ≤ self.old.place + length self.old.bytes.now) }
        // The part ends where it did.
        ensures end { EndStays self.old self.new }
    {
        if self.len() < n {
            return Err(ByteFault::Short(self.place));
        }
        let (bytes, rest) = self.bytes.split_at(n as usize);
        let taken = Part {
            bytes,
            place: self.place,
        };
        *self = Part {
            bytes: rest,
            place: self.place + n,
        };
        Ok(taken)
    }

    /// Reads the next byte.
    ///
    /// `Short` if none is left.
    #[tactic(auto, unfolding(crate::specs::Cursor::part_at, crate::specs::Cursor::number_at))]
    #[inline(always)]
    pub fn get_u8(&mut self) -> Result<u8, ByteFault>
        ensures exact { Gives (λ x. x) self.old self.new result (number_at 1 (cursor self.old)) }
        // The part ends where it did.
        ensures end { EndStays self.old self.new }
    {
        let field = self.take(1)?;
        Ok(field.bytes[0])
    }

    /// Reads the little-endian number in the next two bytes.
    ///
    /// `Short` if fewer are left.
    #[tactic(auto, unfolding(crate::specs::Cursor::part_at, crate::specs::Cursor::number_at))]
    #[inline(always)]
    pub fn get_u16(&mut self) -> Result<u16, ByteFault>
        ensures exact { Gives (λ x. x) self.old self.new result (number_at 2 (cursor self.old)) }
        // The part ends where it did.
        ensures end { EndStays self.old self.new }
    {
        let field = self.take(2)?;
        Ok(LittleEndian::read_u16(field.bytes))
    }

    /// Reads the little-endian number in the next four bytes.
    ///
    /// `Short` if fewer are left.
    #[tactic(auto, unfolding(crate::specs::Cursor::part_at, crate::specs::Cursor::number_at))]
    #[inline(always)]
    pub fn get_u32(&mut self) -> Result<u32, ByteFault>
        ensures exact { Gives (λ x. x) self.old self.new result (number_at 4 (cursor self.old)) }
        // The part ends where it did.
        ensures end { EndStays self.old self.new }
    {
        let field = self.take(4)?;
        Ok(LittleEndian::read_u32(field.bytes))
    }

    /// Reads the little-endian number in the next eight bytes.
    ///
    /// `Short` if fewer are left.
    #[tactic(auto, unfolding(crate::specs::Cursor::part_at, crate::specs::Cursor::number_at))]
    #[inline(always)]
    pub fn get_u64(&mut self) -> Result<u64, ByteFault>
        ensures exact { Gives (λ x. x) self.old self.new result (number_at 8 (cursor self.old)) }
        // The part ends where it did.
        ensures end { EndStays self.old self.new }
    {
        let field = self.take(8)?;
        Ok(LittleEndian::read_u64(field.bytes))
    }

    /// Reads the next byte as a signed number.
    ///
    /// `Short` if none is left.
    #[tactic(auto, unfolding(crate::specs::Cursor::number_at, crate::specs::Cursor::signed_at))]
    #[inline(always)]
    pub fn get_i8(&mut self) -> Result<i8, ByteFault>
        ensures exact { Gives (λ x. x) self.old self.new result (signed_at 1 (cursor self.old)) }
        // The part ends where it did.
        ensures end { EndStays self.old self.new }
    {
        let bits = self.get_u8()?;
        Ok(bits.cast_signed())
    }

    /// Reads the signed little-endian number in the next two bytes.
    ///
    /// `Short` if fewer are left.
    #[tactic(auto, unfolding(crate::specs::Cursor::number_at, crate::specs::Cursor::signed_at))]
    #[inline(always)]
    pub fn get_i16(&mut self) -> Result<i16, ByteFault>
        ensures exact { Gives (λ x. x) self.old self.new result (signed_at 2 (cursor self.old)) }
        // The part ends where it did.
        ensures end { EndStays self.old self.new }
    {
        let bits = self.get_u16()?;
        Ok(bits.cast_signed())
    }

    /// Reads the signed little-endian number in the next four bytes.
    ///
    /// `Short` if fewer are left.
    #[tactic(auto, unfolding(crate::specs::Cursor::number_at, crate::specs::Cursor::signed_at))]
    #[inline(always)]
    pub fn get_i32(&mut self) -> Result<i32, ByteFault>
        ensures exact { Gives (λ x. x) self.old self.new result (signed_at 4 (cursor self.old)) }
        // The part ends where it did.
        ensures end { EndStays self.old self.new }
    {
        let bits = self.get_u32()?;
        Ok(bits.cast_signed())
    }

    /// Reads the signed little-endian number in the next eight bytes.
    ///
    /// `Short` if fewer are left.
    #[tactic(auto, unfolding(crate::specs::Cursor::number_at, crate::specs::Cursor::signed_at))]
    #[inline(always)]
    pub fn get_i64(&mut self) -> Result<i64, ByteFault>
        ensures exact { Gives (λ x. x) self.old self.new result (signed_at 8 (cursor self.old)) }
        // The part ends where it did.
        ensures end { EndStays self.old self.new }
    {
        let bits = self.get_u64()?;
        Ok(bits.cast_signed())
    }
}
