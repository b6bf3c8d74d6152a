//! Common information entries.

ghost use Rattle.std.specs.Prelude.{IsTrue};
ghost use Rattle.sf_bytes.specs.Field.{is_field_width};
ghost use Rattle.eh_records.specs.Width.{is_usable_width};

use crate::augmentation::Augmentation;
use crate::fault::RecordFault;
use crate::letters::read_letters;
use crate::raw_record::{RawRecord, next_record};
use crate::reader::Reader;
use sf_bytes::{Field, Part};
use sf_model::{Arch, Key};

/// A common information entry: what several functions have in common.
#[derive(Clone, Copy)]
pub struct Cie<'a> {
    /// The place of its length word in the section.
    pub place: u32,
    /// What the operands of location advances are multiplied by.
    pub code_alignment_factor: u64,
    /// What factored offsets are multiplied by.
    pub data_alignment_factor: i64,
    /// The column of the return address.
    pub return_address_register: u64,
    /// The encoding of function pointers.
    pub encoding: u8,
    /// True if the frame is a signal frame's.
    pub signal: bool,
    /// The key of signed return addresses.
    pub key: Key,
    /// The personality pointer, if its width is fixed.
    pub personality: Option<Field>,
    /// The initial instructions.
    pub insns: Part<'a>,
}

/// A common information entry with what only its frame description entries read.
#[derive(Clone, Copy)]
pub struct FullCie<'a> {
    pub cie: Cie<'a>,
    /// How many bytes a function pointer has.
    pub width: u8,
    /// True if the entries have augmentation data.
    pub augmented: bool,
    /// The encoding of the pointer to a language-specific data area.
    pub lsda: Option<u8>,
    ghost usable: { IsTrue (is_usable_width cie.encoding width) },
    ghost wide: { IsTrue (is_field_width width) },
}

impl<'a> FullCie<'a> {
    ghost use Rattle.std.specs.Prelude.{◌≡◌, ◌<◌, ◌^◌, length};
    ghost use Rattle.std.specs.Option.{option_map};
    ghost use Rattle.sf_bytes.specs.Answers.{Is};
    ghost use Rattle.eh_records.specs.Augmentation.{augmentation_view};
    ghost use Rattle.eh_records.specs.Cie.{full_cie_view, version_at, return_address_register_at, augmentation_at, cie_of};
    ghost use Rattle.eh_records.specs.Fde.{cie_at_place};
    ghost use Rattle.eh_records.specs.RawRecord.{raw_record_view};
    ghost use Rattle.eh_records.specs.Step.{StepGives, reader_cursor};

    // Reads the version, which has to be 1 or 3.
    #[tactic(auto, unfolding(crate::specs::Cie::version_at))]
    #[inline(always)]
    fn read_version(body: &mut Reader<'_>) -> Result<u8, RecordFault>
        ensures { StepGives (λ x. x) body.new result (version_at (reader_cursor body.old)) }
    {
        let place = body.place();
        let version = body.byte()?;
        if version != 1 && version != 3 {
            return Err(RecordFault::CieVersion(place));
        }
        Ok(version)
    }

    // Reads the return address register: a byte in version 1, a LEB128 number in version 3.
    #[tactic(auto, unfolding(crate::specs::Cie::return_address_register_at))]
    #[inline(always)]
    fn read_return_address_register(version: u8, body: &mut Reader<'_>) -> Result<u64, RecordFault>
        ensures { StepGives (λ x. x) body.new result (return_address_register_at version (reader_cursor body.old)) }
    {
        if version == 1 {
            let register = body.byte()?;
            Ok(u64::from(register))
        } else {
            body.uleb()
        }
    }

    // Reads the augmentation from its data, if there is one.
    #[tactic(auto, unfolding(crate::specs::Cie::augmentation_at))]
    fn read_augmentation(
        letters: Option<&[u8]>,
        body: &mut Reader<'_>,
    ) -> Result<Augmentation, RecordFault>
        ensures { StepGives augmentation_view body.new result (augmentation_at (option_map (λ text. text.now) letters.entry) (reader_cursor body.old)) }
    {
        match letters {
            Some(letters) => {
                let inner = Augmentation::read_data(body)?;
                Augmentation::read(letters, inner)
            }
            None => Ok(Augmentation::plain()),
        }
    }

    /// Reads the common information entry of a record, field by field. The initial instructions are the rest of
    /// the record.
    #[tactic(auto, using(crate::proofs::LetterViews::some_same), unfolding(crate::specs::Cie::cie_of))]
    #[inline(never)]
    pub fn read(raw: &RawRecord<'a>, arch: Arch) -> Result<FullCie<'a>, RecordFault>
        ensures { Is full_cie_view result (cie_of arch (raw_record_view raw.now)) }
    {
        let mut body = raw.body;
        let version = Self::read_version(&mut body)?;
        let letters = read_letters(&mut body, arch)?;
        let code_alignment_factor = body.uleb()?;
        let data_alignment_factor = body.sleb()?;
        let return_address_register = Self::read_return_address_register(version, &mut body)?;
        let augmentation = Self::read_augmentation(letters, &mut body)?;
        let cie = Cie {
            place: raw.place,
            code_alignment_factor,
            data_alignment_factor,
            return_address_register,
            encoding: augmentation.pointers.encoding,
            signal: augmentation.signal,
            key: augmentation.key,
            personality: augmentation.personality,
            insns: body.part,
        };
        Ok(FullCie {
            cie,
            width: augmentation.pointers.width,
            augmented: letters.is_some(),
            lsda: augmentation.lsda,
        })
    }

    /// Reads the common information entry at a place of the section.
    #[tactic(auto, unfolding(crate::specs::Fde::cie_at_place))]
    pub fn at(section: &'a [u8], place: u32, arch: Arch) -> Result<FullCie<'a>, RecordFault>
        requires { length section.now < 2 ^ 32 }
        ensures { Is full_cie_view result (cie_at_place arch section.now place) }
    {
        let mut from = Reader::from_place(section, place);
        match next_record(&mut from)? {
            Some(raw) => FullCie::read(&raw, arch),
            None => Err(RecordFault::CiePointer(place)),
        }
    }
}
