//! The frame description entries of a section, in order.

ghost use Rattle.std.specs.Prelude.{◌<◌, ◌^◌, ◌≡◌, Ok, OnSome, is_ok, length, true};
ghost use Rattle.eh_records.specs.Fde.{fde_of};
ghost use Rattle.eh_records.specs.Iter.{GivesRawRecord, GivesFrameRecord, GivesRead};
ghost use Rattle.eh_records.specs.LastCie.{IsLastCie};
ghost use Rattle.eh_records.specs.RawRecord.{raw_record_at, raw_record_view};
ghost use Rattle.eh_records.specs.Section.{are_read, records_from, records_of, entries_before, entries_of, frames};
ghost use Rattle.eh_records.specs.Step.{reader_cursor};

use crate::fde::Fde;
use crate::last_cie::LastCie;
use crate::raw_record::{RawRecord, next_record};
use crate::reader::Reader;
use sf_model::Arch;

/// An iterator over the frame description entries of a section that was parsed. Each record that is left was
/// read before, so the iterator ends at the section's end and no earlier.
#[derive(Clone, Copy)]
pub struct FdeIter<'a> {
    section: &'a [u8],
    arch: Arch,
    rest: Reader<'a>,
    last: Option<LastCie<'a>>,
    ghost small: { length section.now < 2 ^ 32 },
    ghost same: { IsLastCie arch section.now last },
    ghost read: { are_read arch section.now (records_from (reader_cursor rest)) ≡ true },
}

impl<'a> FdeIter<'a> {
    ghost use Rattle.eh_records.specs.View.{frames_left};

    /// Creates the iterator over the whole section.
    pub(crate) fn new(section: &'a [u8], arch: Arch) -> FdeIter<'a>
        requires small { length section.now < 2 ^ 32 }
        requires whole { is_ok (entries_of arch section.now) ≡ true }
        ensures { frames_left result ≡ frames (entries_before arch section.now (records_of section.now)) }
    {
        FdeIter {
            section,
            arch,
            rest: Reader::from_place(section, 0),
            last: None,
        }
    }
}

// Advances to the next record of what is left and returns it, or `None` at the section's end.
#[inline(always)]
fn next_raw_record<'a>(rest: &mut Reader<'a>) -> Option<RawRecord<'a>>
    requires { is_ok (raw_record_at (reader_cursor rest.old)) ≡ true }
    ensures gives { GivesRawRecord result (reader_cursor rest.old) (reader_cursor rest.new) }
    ensures shorter { OnSome result (length rest.new.part.bytes.now < length rest.old.part.bytes.now) }
{
    let mut after = *rest;
    match next_record(&mut after) {
        Ok(Some(raw)) => {
            *rest = after;
            Some(raw)
        }
        Ok(None) => None,
        Err(_) => unreachable!(),
    }
}

// Advances to the next record of a frame description entry and returns it, or `None` at the end.
#[inline(always)]
fn next_frame<'a>(section: &'a [u8], arch: Arch, rest: &mut Reader<'a>) -> Option<RawRecord<'a>>
    requires { are_read arch section.now (records_from (reader_cursor rest.old)) ≡ true }
    ensures read { are_read arch section.now (records_from (reader_cursor rest.new)) ≡ true }
    ensures gives { GivesFrameRecord arch section.now result (entries_before arch section.now (records_from (reader_cursor rest.old))) (entries_before arch section.now (records_from (reader_cursor rest.new))) }
{
    while let Some(raw) = next_raw_record(rest) {
        if !raw.is_cie() {
            return Some(raw);
        }
    }
    None
}

// Returns the frame description entry of a record that was read before.
#[tactic(auto, unfolding(crate::specs::Fde::fde_of))]
#[inline(always)]
fn frame_of<'a>(
    last: &mut Option<LastCie<'a>>,
    section: &'a [u8],
    arch: Arch,
    raw: &RawRecord<'a>,
) -> Option<Fde<'a>>
    requires small { length section.now < 2 ^ 32 }
    requires last { IsLastCie arch section.now last.old }
    requires read { is_ok (fde_of arch section.now (raw_record_view raw.now)) ≡ true }
    ensures last { IsLastCie arch section.now last.new }
    ensures is { GivesRead result (fde_of arch section.now (raw_record_view raw.now)) }
{
    let Ok(place) = raw.cie_place() else {
        unreachable!()
    };
    let Ok(()) = LastCie::at(last, section, place, arch) else {
        unreachable!()
    };
    let Some(read) = last else { unreachable!() };
    match Fde::read(raw, &read.cie) {
        Ok(fde) => Some(fde),
        Err(_) => unreachable!(),
    }
}

impl<'a> Iterator for FdeIter<'a> {
    ghost use Rattle.std.specs.Iterator.{YieldsFirstBy, item_count};
    ghost use Rattle.eh_records.specs.Fde.{fde_view};
    ghost use Rattle.eh_records.specs.View.{frames_left};

    type Item = Fde<'a>;

    ghost next_gives = { YieldsFirstBy fde_view frames_left };

    ghost remaining = { item_count frames_left };

    #[inline(always)]
    fn next(&mut self) -> Option<Fde<'a>> {
        let raw = next_frame(self.section, self.arch, &mut self.rest)?;
        frame_of(&mut self.last, self.section, self.arch, &raw)
    }
}
