//! What the records of a section are, in the standard's words.

ghost use Rattle.std.specs.Prelude.{◌≡◌, ◌↔◌, List, Result, Ok, Err};
ghost use Rattle.eh_records.specs.RawRecord.{RawRecordView};
ghost use Rattle.eh_records.specs.Records.{AreRecords, all_split, start};
ghost use Rattle.eh_records.specs.Raw.{HoldRaw, StandApart};
ghost use Rattle.eh_records.specs.Refused.{AreReadAs, IsOfRecords};
ghost use Rattle.eh_records.specs.declared.fault.RecordFault.{RecordFault as refusal};
ghost use Rattle.eh_records.specs.Section.{EntryView, records_of, entries_of, pointer_fields};

use sf_model::Arch;

/// States, by its contract alone, that the records that are split off are the section's records, that a section
/// has at most one such list, and that what is read of a section is what its records are read as: its entries, or
/// the fault of the first field that isn't there, and never both. That fault is neither `Unresolved` nor
/// `FunctionEnd`. It does nothing.
pub fn entries_law(section: &[u8], arch: Arch)
    ensures records { (ps : List RawRecordView) → AreRecords ps (start section.now) ↔ (records_of section.now ≡ all_split ps) }
    ensures one { (ps : List RawRecordView) → (qs : List RawRecordView) → AreRecords ps (start section.now) → AreRecords qs (start section.now) → ps ≡ qs }
    ensures exact { (r : Result (List EntryView) refusal) → AreReadAs arch section.now r ↔ (entries_of arch section.now ≡ r) }
    ensures named { (e : refusal) → entries_of arch section.now ≡ Err e → IsOfRecords e }
{}

/// States, by its contract alone, that each pointer field of a section's entries lies in the section and holds
/// the number that is there, and that no two of them overlap. It does nothing.
pub fn pointer_fields_stand(section: &[u8], arch: Arch)
    ensures raw { (es : List EntryView) → entries_of arch section.now ≡ Ok es → HoldRaw section.now (pointer_fields es) }
    ensures apart { (es : List EntryView) → entries_of arch section.now ≡ Ok es → StandApart (pointer_fields es) }
{}
