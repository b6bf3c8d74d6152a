//! The augmentation of a common information entry, and its data.

ghost use Rattle.std.specs.Prelude.{IsTrue};
ghost use Rattle.sf_bytes.specs.Field.{is_field_width};
ghost use Rattle.eh_records.specs.Width.{is_usable_width};

use crate::fault::RecordFault;
use crate::layout::{ABSPTR_LEN, OMIT};
use crate::reader::Reader;
use eh_pointer::layout::ABSPTR;
use eh_pointer::{PointerFault, skip, usable, width};
use sf_bytes::Field;
use sf_model::Key;

/// The form of function pointers.
#[derive(Clone, Copy)]
pub struct PointerForm {
    pub encoding: u8,
    /// How many bytes a pointer has.
    pub width: u8,
    ghost usable: { IsTrue (is_usable_width encoding width) },
    ghost wide: { IsTrue (is_field_width width) },
}

/// The augmentation, as the letters of its string give it.
#[derive(Clone, Copy)]
pub struct Augmentation {
    /// The form of function pointers.
    pub pointers: PointerForm,
    /// The encoding of the pointer to a language-specific data area.
    pub lsda: Option<u8>,
    /// The personality pointer, if its width is fixed.
    pub personality: Option<Field>,
    /// True if the frame is a signal frame's.
    pub signal: bool,
    /// The key of signed return addresses.
    pub key: Key,
}

impl Augmentation {
    ghost use Rattle.std.specs.Prelude.{◌≡◌, ◌<◌};
    ghost use Rattle.std.specs.Option.{option_map};
    ghost use Rattle.sf_bytes.specs.Answers.{Is};
    ghost use Rattle.eh_records.specs.Augmentation.{form_view, augmentation_view, plain_augmentation, augmentation_by, data_at, form_at, personality_at, letter_at};
    ghost use Rattle.eh_records.specs.Step.{StepGives, reader_cursor, pointer_view};

    /// Reads the augmentation data after its length.
    #[tactic(auto, unfolding(crate::specs::Augmentation::data_at))]
    pub fn read_data<'a>(body: &mut Reader<'a>) -> Result<Reader<'a>, RecordFault>
        ensures { StepGives reader_cursor body.new result (data_at (reader_cursor body.old)) }
    {
        let len = body.uleb()?;
        body.sub(len)
    }

    // Reads the form of function pointers from its encoding.
    #[tactic(auto, unfolding(crate::specs::Augmentation::form_at))]
    fn read_form(left: &mut Reader<'_>) -> Result<PointerForm, RecordFault>
        ensures { StepGives form_view left.new result (form_at (reader_cursor left.old)) }
    {
        let place = left.place();
        let encoding = left.byte()?;
        match usable(encoding) {
            Some(width) => Ok(PointerForm { encoding, width }),
            None => Err(RecordFault::Encoding(place)),
        }
    }

    // Passes a personality pointer, and returns it if its width is fixed.
    #[tactic(auto, unfolding(crate::specs::Augmentation::personality_at))]
    fn read_personality(left: &mut Reader<'_>) -> Result<Option<Field>, RecordFault>
        ensures { StepGives (λ field. option_map pointer_view field) left.new result (personality_at (reader_cursor left.old)) }
    {
        let encoding_place = left.place();
        let encoding = left.byte()?;
        if encoding == OMIT {
            return Ok(None);
        }
        let place = left.place();
        let mut after = left.part;
        match skip(&mut after, encoding) {
            Err(PointerFault::Encoding) => Err(RecordFault::Encoding(encoding_place)),
            Err(PointerFault::Short) => Err(RecordFault::Short(place)),
            Err(PointerFault::Leb) => Err(RecordFault::Leb(place)),
            Ok(()) => match width(encoding) {
                Some(bytes) => Ok(Some(left.pointer(bytes)?)),
                None => {
                    left.part = after;
                    Ok(None)
                }
            },
        }
    }

    // Reads what one letter gives from the data that is left.
    #[tactic(auto, unfolding(crate::specs::Augmentation::letter_at))]
    fn read_letter(
        letter: u8,
        augmentation: Augmentation,
        left: &mut Reader<'_>,
    ) -> Result<Augmentation, RecordFault>
        ensures { StepGives augmentation_view left.new result (letter_at letter (augmentation_view augmentation) (reader_cursor left.old)) }
    {
        match letter {
            b'R' => {
                let pointers = Self::read_form(left)?;
                Ok(Augmentation {
                    pointers,
                    ..augmentation
                })
            }
            b'P' => {
                let personality = Self::read_personality(left)?;
                Ok(Augmentation {
                    personality,
                    ..augmentation
                })
            }
            b'L' => {
                let lsda = Some(left.byte()?);
                Ok(Augmentation {
                    lsda,
                    ..augmentation
                })
            }
            b'S' => Ok(Augmentation {
                signal: true,
                ..augmentation
            }),
            _ => Ok(Augmentation {
                key: Key::B,
                ..augmentation
            }),
        }
    }

    /// Returns the augmentation of an entry without augmentation.
    pub fn plain() -> Augmentation
        ensures { augmentation_view result ≡ plain_augmentation }
    {
        Augmentation {
            pointers: PointerForm {
                encoding: ABSPTR,
                width: ABSPTR_LEN,
            },
            lsda: None,
            personality: None,
            signal: false,
            key: Key::A,
        }
    }

    /// Reads what the letters give, in their order, from the augmentation data. Bytes that are left over aren't
    /// read.
    pub fn read(letters: &[u8], mut left: Reader<'_>) -> Result<Augmentation, RecordFault>
        ensures { Is augmentation_view result (augmentation_by letters.now plain_augmentation (reader_cursor left.entry)) }
    {
        let mut augmentation = Augmentation::plain();
        for letter in letters {
            augmentation = Self::read_letter(*letter, augmentation, &mut left)?;
        }
        Ok(augmentation)
    }
}
