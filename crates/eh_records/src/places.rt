//! The places of the common information entries before a record.

ghost use Rattle.std.specs.Prelude.{◌≡◌, ◌==◌, OnOk, IfErr};
ghost use Rattle.std.specs.List.{list_any};
ghost use Rattle.sf_bytes.specs.Answers.{Is};
ghost use Rattle.eh_records.specs.RawRecord.{raw_record_view};
ghost use Rattle.eh_records.specs.Places.{IsRising};
ghost use Rattle.eh_records.specs.Section.{entry_cie_place, with_place};
ghost use Rattle.eh_records.specs.declared.fault.RecordFault.TheVariants.{NoMemory};

use crate::fault::RecordFault;
use crate::raw_record::RawRecord;

// Returns whether a place is among these.
fn is_among(place: u32, places: &[u32]) -> bool
    requires { IsRising places.now }
    ensures { result ≡ list_any (λ q. q == place) places.now }
{
    places.binary_search(&place).is_ok()
}

/// Returns the place of the common information entry that a frame description entry names, which has to come
/// before it, or a common information entry's own place. `places` has those before the record, and rises.
#[tactic(auto, unfolding(crate::specs::Section::entry_cie_place))]
pub fn cie_place_of(raw: &RawRecord<'_>, places: &[u32]) -> Result<u32, RecordFault>
    requires { IsRising places.now }
    ensures { Is (λ place. place) result (entry_cie_place places.now (raw_record_view raw.now)) }
{
    if raw.is_cie() {
        return Ok(raw.place);
    }
    let place = raw.cie_place()?;
    if is_among(place, places) {
        Ok(place)
    } else {
        Err(RecordFault::CiePointer(raw.id_place))
    }
}

/// Appends the place of a common information entry to `places`; the place of any other record is not
/// appended.
pub fn note_place(raw: &RawRecord<'_>, places: &mut Vec<u32>) -> Result<(), RecordFault>
    ensures noted { OnOk result (places.new.items ≡ with_place places.old.items (raw_record_view raw.now)) }
    ensures memory { IfErr result (λ fault. fault ≡ NoMemory) }
{
    if raw.is_cie() {
        places.push(raw.place)?;
    }
    Ok(())
}
