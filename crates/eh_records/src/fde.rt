//! Frame description entries.

ghost use Rattle.std.specs.Prelude.{◌<◌, ◌^◌, IsTrue};
ghost use Rattle.eh_records.specs.Width.{is_usable_width};

use crate::augmentation::Augmentation;
use crate::cie::{Cie, FullCie};
use crate::fault::RecordFault;
use crate::last_cie::LastCie;
use crate::raw_record::RawRecord;
use crate::reader::Reader;
use eh_pointer::width;
use sf_bytes::{Field, Part};
use sf_model::Arch;

/// A frame description entry: one function.
#[derive(Clone, Copy)]
pub struct Fde<'a> {
    /// The place of its length word in the section.
    pub place: u32,
    /// The common information entry that it names.
    pub cie: Cie<'a>,
    /// The field of the function's start.
    pub begin: Field,
    /// The field of its size.
    pub range: Field,
    /// The pointer to its language-specific data area, if that has a fixed width.
    pub lsda: Option<Field>,
    /// Its instructions.
    pub insns: Part<'a>,
    ghost begin_usable: { IsTrue (is_usable_width cie.encoding begin.width) },
    ghost range_usable: { IsTrue (is_usable_width cie.encoding range.width) },
    ghost small: { begin.place < 2 ^ 32 },
}

impl<'a> Fde<'a> {
    ghost use Rattle.std.specs.Prelude.{◌≡◌, ◌<◌, ◌^◌, length};
    ghost use Rattle.std.specs.Option.{option_map};
    ghost use Rattle.sf_bytes.specs.Answers.{Is};
    ghost use Rattle.eh_records.specs.Cie.{full_cie_view};
    ghost use Rattle.eh_records.specs.Fde.{fde_view, lsda_in, lsda_at, entry_of, fde_of};
    ghost use Rattle.eh_records.specs.LastCie.{IsLastCie};
    ghost use Rattle.eh_records.specs.RawRecord.{raw_record_view};
    ghost use Rattle.eh_records.specs.Step.{StepGives, pointer_view, reader_cursor};

    // Returns the pointer to a language-specific data area at the front of the augmentation data, if the
    // encoding has a fixed width and the data is that long.
    #[inline(always)]
    fn lsda_of(encoding: Option<u8>, mut left: Reader<'_>) -> Option<Field>
        ensures { option_map pointer_view result ≡ lsda_in encoding (reader_cursor left.entry) }
    {
        let bytes = width(encoding?)?;
        left.pointer(bytes).ok()
    }

    // Reads the pointer to a language-specific data area, and passes the augmentation data.
    #[tactic(auto, unfolding(crate::specs::Fde::lsda_at))]
    #[inline(always)]
    fn read_lsda(full: &FullCie<'_>, body: &mut Reader<'_>) -> Result<Option<Field>, RecordFault>
        ensures { StepGives (λ field. option_map pointer_view field) body.new result (lsda_at (full_cie_view full.now) (reader_cursor body.old)) }
    {
        if !full.augmented {
            return Ok(None);
        }
        let left = Augmentation::read_data(body)?;
        Ok(Self::lsda_of(full.lsda, left))
    }

    /// Reads the frame description entry of a record, whose common information entry is known, field by field.
    /// The instructions are the rest of the record.
    #[tactic(auto, unfolding(crate::specs::Fde::entry_of))]
    #[inline(always)]
    pub(crate) fn read(raw: &RawRecord<'a>, full: &FullCie<'a>) -> Result<Fde<'a>, RecordFault>
        ensures { Is fde_view result (entry_of (full_cie_view full.now) (raw_record_view raw.now)) }
    {
        let mut body = raw.body;
        let begin = body.pointer(full.width)?;
        let range = body.pointer(full.width)?;
        let lsda = Self::read_lsda(full, &mut body)?;
        Ok(Fde {
            place: raw.place,
            cie: full.cie,
            begin,
            range,
            lsda,
            insns: body.part,
        })
    }

    /// Reads the frame description entry of a record, with the common information entry that it names. That entry is
    /// read again unless it is the last one.
    #[tactic(auto, unfolding(crate::specs::Fde::fde_of))]
    #[inline(always)]
    pub(crate) fn read_named(
        last: &mut Option<LastCie<'a>>,
        section: &'a [u8],
        raw: &RawRecord<'a>,
        arch: Arch,
    ) -> Result<Fde<'a>, RecordFault>
        requires small { length section.now < 2 ^ 32 }
        requires last { IsLastCie arch section.now last.old }
        ensures is { Is fde_view result (fde_of arch section.now (raw_record_view raw.now)) }
        ensures last { IsLastCie arch section.now last.new }
    {
        let place = raw.cie_place()?;
        LastCie::at(last, section, place, arch)?;
        match last {
            Some(last) => Fde::read(raw, &last.cie),
            None => unreachable!(),
        }
    }
}
