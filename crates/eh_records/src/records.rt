//! The records of a section.

ghost use Rattle.std.specs.Prelude.{◌<◌, ◌+◌, ◌^◌, ◌≡◌, ◌++◌, OnOk, is_ok, length, map, option_to_list, true};
ghost use Rattle.std.specs.Option.{option_map};
ghost use Rattle.eh_records.specs.Entry.{entry_view};
ghost use Rattle.eh_records.specs.Section.{entry_fields, entries_of};
ghost use Rattle.eh_records.specs.Step.{pointer_view};

use crate::entry::{Entry, next_entry, read_after};
use crate::fault::RecordFault;
use crate::iter::FdeIter;
use crate::places::note_place;
use crate::raw_record::next_record;
use crate::reader::Reader;
use sf_base::NoMemory;
use sf_bytes::Field;
use sf_model::Arch;
use std::alloc::Global;

/// A section's records. All were read. It lends the section's bytes.
#[derive(Clone, Copy)]
pub struct Records<'a> {
    bytes: &'a [u8],
    arch: Arch,
    ghost small: { length bytes.now < 2 ^ 32 },
    ghost whole: { is_ok (entries_of arch bytes.now) ≡ true },
}

// Appends a field, if there is one.
fn push_optional(fields: &mut Vec<Field>, field: Option<Field>) -> Result<(), NoMemory>
    ensures { OnOk result (map pointer_view fields.new.items ≡ map pointer_view fields.old.items ++ option_to_list (option_map pointer_view field)) }
{
    if let Some(field) = field {
        fields.push(field)?;
    }
    Ok(())
}

// Appends the pointer fields of an entry.
fn push_fields(fields: &mut Vec<Field>, entry: &Entry<'_>) -> Result<(), NoMemory>
    ensures { OnOk result (map pointer_view fields.new.items ≡ map pointer_view fields.old.items ++ entry_fields (entry_view entry.now)) }
{
    match entry {
        Entry::Common(full) => push_optional(fields, full.cie.personality),
        Entry::Frame(fde) => {
            fields.push(fde.begin)?;
            fields.push(fde.range)?;
            push_optional(fields, fde.lsda)
        }
    }
}

impl<'a> Records<'a> {
    ghost use Rattle.std.specs.Prelude.{IfOk, map};
    ghost use Rattle.sf_bytes.specs.Rising.{AreRising, AreApart};
    ghost use Rattle.eh_records.specs.Named.{HaveNamed};
    ghost use Rattle.eh_records.specs.Raw.{HoldRaw};
    ghost use Rattle.eh_records.specs.Section.{frames, pointer_fields};
    ghost use Rattle.eh_records.specs.Step.{pointer_view};
    ghost use Rattle.eh_records.specs.View.{IsParsed, IsWhole, KeysFit, arch_of, bytes_of, entries, frames_left};

    /// Splits a section into records, and checks each. The fault is the first from the left.
    ///
    /// `Unresolved` and `FunctionEnd` are never returned (`named` of the law [`entries_law`](crate::entries_law)).
    pub fn parse(alloc: Global, bytes: &'a [u8], arch: Arch) -> Result<Records<'a>, RecordFault>
        requires { length bytes.now < 2 ^ 32 }
        ensures exact { IsParsed arch bytes.now result }
        ensures machine { IfOk result (λ records. arch_of records ≡ arch) }
        ensures bytes { IfOk result (λ records. bytes_of records ≡ bytes.now) }
    {
        let mut places: Vec<u32> = Vec::new(alloc);
        let mut rest = Reader::from_place(bytes, 0);
        let mut last = None;
        while let Some(raw) = next_record(&mut rest)? {
            read_after(&mut last, bytes, places.as_slice(), &raw, arch)?;
            note_place(&raw, &mut places)?;
        }
        Ok(Records { bytes, arch })
    }

    /// Returns an iterator over the frame description entries, in the section's order.
    pub fn fdes(&self) -> FdeIter<'a>
        ensures gives { frames_left result ≡ frames (entries self.now) }
        ensures keys { KeysFit self.now }
        ensures named { HaveNamed self.now }
        ensures whole { IsWhole self.now }
    {
        FdeIter::new(self.bytes, self.arch)
    }

    /// Lists all pointer fields by rising place: personality pointers of fixed width, starts, sizes, and pointers
    /// to language-specific data areas.
    pub fn fields(&self, alloc: Global) -> Result<Vec<Field>, NoMemory>
        ensures exact { IfOk result (λ fields. map pointer_view fields.items ≡ pointer_fields (entries self.now)) }
        ensures rise { IfOk result (λ fields. AreRising fields.items) }
        ensures apart { IfOk result (λ fields. AreApart fields.items) }
        ensures raw { IfOk result (λ fields. HoldRaw (bytes_of self.now) (map pointer_view fields.items)) }
    {
        let mut fields: Vec<Field> = Vec::new(alloc);
        let mut rest = Reader::from_place(self.bytes, 0);
        let mut last = None;
        while let Some(entry) = next_entry(&mut last, self.bytes, self.arch, &mut rest) {
            push_fields(&mut fields, &entry)?;
        }
        Ok(fields)
    }
}
