//! Reading the fields of a record.

ghost use Rattle.std.specs.Prelude.{◌<◌, ◌+◌, ◌^◌, length};

use crate::fault::RecordFault;
use sf_bytes::{ByteFault, Field, Part};

/// What is left of a section, or of one record of it.
#[derive(Clone, Copy)]
pub struct Reader<'a> {
    pub part: Part<'a>,
    ghost small: { part.place + length part.bytes.now < 2 ^ 32 },
}

impl<'a> Reader<'a> {
    ghost use Rattle.std.specs.Prelude.{◌≡◌, ◌≤◌, OnOk, IfOk, IsTrue, drop};
    ghost use Rattle.sf_bytes.specs.Cursor.{EndStays, cursor};
    ghost use Rattle.sf_bytes.specs.Field.{is_field_width};
    ghost use Rattle.sf_bytes.specs.Steps.{named};
    ghost use Rattle.eh_records.specs.Step.{StepGives, reader_cursor, fault_of, number_field, uleb_field, sleb_field, text_field, part_field, pointer_field, pointer_view};

    // Returns the fault of a field at a place.
    #[inline(always)]
    fn fault_at(place: u32, fault: ByteFault) -> RecordFault
        ensures { result ≡ fault_of place fault }
    {
        match fault {
            ByteFault::Short(_) => RecordFault::Short(place),
            ByteFault::Leb(_) => RecordFault::Leb(place),
        }
    }

    /// Creates the reader of a section's bytes from a place on.
    #[inline(always)]
    pub fn from_place(section: &'a [u8], place: u32) -> Reader<'a>
        requires { length section.now < 2 ^ 32 }
        ensures { reader_cursor result ≡ record { place = place; left = drop place section.now } }
    {
        match section.get(place as usize..) {
            Some(bytes) => Reader {
                part: Part::new(bytes, u64::from(place)),
            },
            None => Reader {
                part: Part::new(&[], u64::from(place)),
            },
        }
    }

    /// Returns the place of the next byte.
    #[inline(always)]
    pub fn place(&self) -> u32
        ensures { result ≡ self.now.part.place }
    {
        self.part.place as u32
    }

    // Passes what a read of the next bytes passed, and returns its value; a fault carries the place of the first byte.
    #[inline(always)]
    fn pass<T>(&mut self, part: Part<'a>, read: Result<T, ByteFault>) -> Result<T, RecordFault>
        requires { EndStays self.old.part part }
        ensures value { result ≡ named (fault_of self.old.part.place) read }
        ensures left { OnOk read (cursor self.new.part ≡ cursor part.entry) }
    {
        let place = self.place();
        match read {
            Ok(value) => {
                self.part = part;
                Ok(value)
            }
            Err(fault) => Err(Self::fault_at(place, fault)),
        }
    }

    /// Reads the next byte.
    #[tactic(auto, unfolding(crate::specs::Step::number_field))]
    #[inline(always)]
    pub fn byte(&mut self) -> Result<u8, RecordFault>
        ensures exact { StepGives (λ x. x) self.new result (number_field 1 (reader_cursor self.old)) }
    {
        let mut part = self.part;
        let read = part.get_u8();
        self.pass(part, read)
    }

    /// Reads the number in the next two bytes.
    #[tactic(auto, unfolding(crate::specs::Step::number_field))]
    #[inline(always)]
    pub fn half(&mut self) -> Result<u16, RecordFault>
        ensures exact { StepGives (λ x. x) self.new result (number_field 2 (reader_cursor self.old)) }
    {
        let mut part = self.part;
        let read = part.get_u16();
        self.pass(part, read)
    }

    /// Reads the number in the next four bytes.
    #[tactic(auto, unfolding(crate::specs::Step::number_field, sf_bytes::specs::Cursor::number_at))]
    #[inline(always)]
    pub fn word(&mut self) -> Result<u32, RecordFault>
        ensures exact { StepGives (λ x. x) self.new result (number_field 4 (reader_cursor self.old)) }
        ensures left { OnOk result (length self.new.part.bytes.now + 4 ≡ length self.old.part.bytes.now) }
    {
        let mut part = self.part;
        let read = part.get_u32();
        self.pass(part, read)
    }

    /// Reads the number in the next eight bytes.
    #[tactic(auto, unfolding(crate::specs::Step::number_field))]
    #[inline(always)]
    pub fn double(&mut self) -> Result<u64, RecordFault>
        ensures exact { StepGives (λ x. x) self.new result (number_field 8 (reader_cursor self.old)) }
    {
        let mut part = self.part;
        let read = part.get_u64();
        self.pass(part, read)
    }

    /// Reads the next unsigned LEB128 number.
    #[tactic(auto, unfolding(crate::specs::Step::uleb_field))]
    #[inline(always)]
    pub fn uleb(&mut self) -> Result<u64, RecordFault>
        ensures exact { StepGives (λ x. x) self.new result (uleb_field (reader_cursor self.old)) }
    {
        let mut part = self.part;
        let read = part.uleb();
        self.pass(part, read)
    }

    /// Reads the next signed LEB128 number.
    #[tactic(auto, unfolding(crate::specs::Step::sleb_field))]
    #[inline(always)]
    pub fn sleb(&mut self) -> Result<i64, RecordFault>
        ensures exact { StepGives (λ x. x) self.new result (sleb_field (reader_cursor self.old)) }
    {
        let mut part = self.part;
        let read = part.sleb();
        self.pass(part, read)
    }

    /// Reads the bytes before the next zero byte, which is passed.
    #[tactic(auto, unfolding(crate::specs::Step::text_field))]
    #[inline(always)]
    pub fn text(&mut self) -> Result<&'a [u8], RecordFault>
        ensures exact { StepGives (λ text. text.now) self.new result (text_field (reader_cursor self.old)) }
    {
        let mut part = self.part;
        let read = part.text0();
        self.pass(part, read)
    }

    /// Reads the next `len` bytes, as a reader of their own.
    #[tactic(auto, unfolding(crate::specs::Step::part_field, sf_bytes::specs::Cursor::part_at))]
    #[inline(always)]
    pub fn sub(&mut self, len: u64) -> Result<Reader<'a>, RecordFault>
        ensures exact { StepGives (reader_cursor) self.new result (part_field len (reader_cursor self.old)) }
        ensures left { OnOk result (length self.new.part.bytes.now + len ≡ length self.old.part.bytes.now) }
    {
        let mut part = self.part;
        let read = part.take(len);
        let taken = self.pass(part, read)?;
        Ok(Reader { part: taken })
    }

    /// Reads the number in the next `width` bytes.
    #[inline(always)]
    pub fn number(&mut self, width: u8) -> Result<u64, RecordFault>
        requires { IsTrue (is_field_width width) }
        ensures exact { StepGives (λ x. x) self.new result (number_field width (reader_cursor self.old)) }
        ensures fits { IfOk result (λ raw. raw < 256 ^ width) }
    {
        match width {
            2 => {
                let raw = self.half()?;
                Ok(u64::from(raw))
            }
            4 => {
                let raw = self.word()?;
                Ok(u64::from(raw))
            }
            _ => self.double(),
        }
    }

    /// Reads a pointer field of `width` bytes.
    #[tactic(auto, unfolding(crate::specs::Step::pointer_field))]
    #[inline(always)]
    pub fn pointer(&mut self, width: u8) -> Result<Field, RecordFault>
        requires { IsTrue (is_field_width width) }
        ensures exact { StepGives pointer_view self.new result (pointer_field width (reader_cursor self.old)) }
        ensures width { IfOk result (λ field. field.width ≡ width) }
        ensures place { IfOk result (λ field. field.place < 2 ^ 32) }
    {
        let place = self.part.place;
        let raw = self.number(width)?;
        Ok(Field { place, width, raw })
    }
}
