//! Splitting a section into records.

ghost use Rattle.std.specs.Prelude.{◌≡◌, ◌<◌, ◌==◌, length, IfOk, IfSome};
ghost use Rattle.sf_bytes.specs.Answers.{Is};
ghost use Rattle.eh_records.specs.RawRecord.{RawRecordGives, raw_record_view, raw_record_at, named_place};
ghost use Rattle.eh_records.specs.Step.{reader_cursor};

use crate::fault::RecordFault;
use crate::layout::{CIE_ID, EXTENDED_LENGTH, WORD_LEN};
use crate::reader::Reader;

/// A record whose fields aren't read yet.
#[derive(Clone, Copy)]
pub struct RawRecord<'a> {
    /// The place of its length word.
    pub place: u32,
    /// The place of the word after the length word.
    pub id_place: u32,
    /// The word after the length: 0 in a common information entry, else the distance back from the word's
    /// own place to the entry that the record names.
    pub id: u32,
    /// The bytes after that word.
    pub body: Reader<'a>,
}

impl RawRecord<'_> {
    /// Returns whether the record is a common information entry.
    #[inline(always)]
    pub fn is_cie(&self) -> bool
        ensures { result ≡ (self.now.id == 0) }
    {
        self.id == CIE_ID
    }

    /// Returns the place of the common information entry that the record names, or `CiePointer` if that is
    /// before the section.
    #[tactic(auto, unfolding(crate::specs::RawRecord::named_place))]
    #[inline(always)]
    pub fn cie_place(&self) -> Result<u32, RecordFault>
        ensures { Is (λ x. x) result (named_place (raw_record_view self.now)) }
    {
        match self.id_place.checked_sub(self.id) {
            Some(place) => Ok(place),
            None => Err(RecordFault::CiePointer(self.id_place)),
        }
    }
}

/// Splits the next record off, or returns `None` at the end and at a length word of 0.
#[tactic(auto, unfolding(crate::specs::RawRecord::raw_record_at, crate::specs::RawRecord::record_of_length))]
#[inline(always)]
pub fn next_record<'a>(rest: &mut Reader<'a>) -> Result<Option<RawRecord<'a>>, RecordFault>
    ensures exact { RawRecordGives rest.new result (raw_record_at (reader_cursor rest.old)) }
    ensures shorter { IfOk result (λ raw. IfSome raw (λ _. length rest.new.part.bytes.now < length rest.old.part.bytes.now)) }
{
    if rest.part.is_empty() {
        return Ok(None);
    }
    let place = rest.place();
    let mut after = *rest;
    let length = after.word()?;
    if length == 0 {
        return Ok(None);
    }
    if length == EXTENDED_LENGTH {
        return Err(RecordFault::Extended(place));
    }
    if length < WORD_LEN {
        return Err(RecordFault::Short(place));
    }
    let Ok(mut body) = after.sub(u64::from(length)) else {
        return Err(RecordFault::Short(place));
    };
    let id_place = body.place();
    let id = body.word()?;
    *rest = after;
    Ok(Some(RawRecord {
        place,
        id_place,
        id,
        body,
    }))
}
