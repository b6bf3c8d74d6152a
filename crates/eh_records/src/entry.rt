//! The entries of a section, of both kinds.

ghost use Rattle.std.specs.Prelude.{◌≡◌, ◌<◌, ◌^◌, length, true};
ghost use Rattle.sf_bytes.specs.Answers.{Is};
ghost use Rattle.eh_records.specs.RawRecord.{raw_record_view};
ghost use Rattle.eh_records.specs.Entry.{entry_view, GivesEntry};
ghost use Rattle.eh_records.specs.LastCie.{IsLastCie};
ghost use Rattle.eh_records.specs.Places.{IsRising};
ghost use Rattle.eh_records.specs.Section.{are_read, records_from, entries_before, entry_here, entry_at};
ghost use Rattle.eh_records.specs.Step.{reader_cursor};

use crate::cie::FullCie;
use crate::fault::RecordFault;
use crate::fde::Fde;
use crate::last_cie::LastCie;
use crate::places::cie_place_of;
use crate::raw_record::{RawRecord, next_record};
use crate::reader::Reader;
use sf_model::Arch;

/// An entry of a section.
#[derive(Clone, Copy)]
pub enum Entry<'a> {
    /// A common information entry.
    Common(FullCie<'a>),
    /// A frame description entry.
    Frame(Fde<'a>),
}

/// Reads the entry of a record.
#[tactic(auto, unfolding(crate::specs::Section::entry_here))]
#[inline(always)]
fn read_here<'a>(
    last: &mut Option<LastCie<'a>>,
    section: &'a [u8],
    raw: &RawRecord<'a>,
    arch: Arch,
) -> Result<Entry<'a>, RecordFault>
    requires small { length section.now < 2 ^ 32 }
    requires last { IsLastCie arch section.now last.old }
    ensures is { Is entry_view result (entry_here arch section.now (raw_record_view raw.now)) }
    ensures last { IsLastCie arch section.now last.new }
{
    if raw.is_cie() {
        let full = FullCie::read(raw, arch)?;
        Ok(Entry::Common(full))
    } else {
        let fde = Fde::read_named(last, section, raw, arch)?;
        Ok(Entry::Frame(fde))
    }
}

/// Reads the entry of a record. `places` has the places of the common information entries before the
/// record, and rises.
#[tactic(auto, unfolding(crate::specs::Section::entry_at))]
pub fn read_after<'a>(
    last: &mut Option<LastCie<'a>>,
    section: &'a [u8],
    places: &[u32],
    raw: &RawRecord<'a>,
    arch: Arch,
) -> Result<Entry<'a>, RecordFault>
    requires small { length section.now < 2 ^ 32 }
    requires rising { IsRising places.now }
    requires last { IsLastCie arch section.now last.old }
    ensures last { IsLastCie arch section.now last.new }
    ensures is { Is entry_view result (entry_at arch section.now places.now (raw_record_view raw.now)) }
{
    cie_place_of(raw, places)?;
    read_here(last, section, raw, arch)
}

/// Reads the first entry of what is left of a section, each of whose records is read, or none at its end.
#[inline(always)]
pub fn next_entry<'a>(
    last: &mut Option<LastCie<'a>>,
    section: &'a [u8],
    arch: Arch,
    rest: &mut Reader<'a>,
) -> Option<Entry<'a>>
    requires small { length section.now < 2 ^ 32 }
    requires last { IsLastCie arch section.now last.old }
    requires read { are_read arch section.now (records_from (reader_cursor rest.old)) ≡ true }
    ensures last { IsLastCie arch section.now last.new }
    ensures read { are_read arch section.now (records_from (reader_cursor rest.new)) ≡ true }
    ensures gives { GivesEntry result (entries_before arch section.now (records_from (reader_cursor rest.old))) (entries_before arch section.now (records_from (reader_cursor rest.new))) }
{
    let mut after = *rest;
    match next_record(&mut after) {
        Ok(Some(raw)) => match read_here(last, section, &raw, arch) {
            Ok(entry) => {
                *rest = after;
                Some(entry)
            }
            Err(_) => unreachable!(),
        },
        Ok(None) => None,
        Err(_) => unreachable!(),
    }
}
