//! The augmentation string of a common information entry.

ghost use Rattle.std.specs.Prelude.{◌≡◌, ◌<◌, ◌==◌, ◌&&◌, ℕ, not, []};
ghost use Rattle.std.specs.List.{list_any};
ghost use Rattle.std.specs.Option.{option_map};
ghost use Rattle.eh_records.specs.Augmentation.{is_letter, are_letters, letters_at};
ghost use Rattle.eh_records.specs.Step.{StepGives, reader_cursor};

use crate::fault::RecordFault;
use crate::reader::Reader;
use sf_model::Arch;

// Returns whether a letter may follow the `z` of an augmentation string.
fn may_stand(letter: u8, arch: Arch) -> bool
    ensures { result ≡ is_letter arch letter }
{
    match letter {
        b'R' | b'P' | b'S' | b'L' => true,
        b'B' => arch == Arch::Aarch64,
        _ => false,
    }
}

// Returns whether a letter may follow the `z` and those read before it.
fn is_new_letter(letter: u8, before: &[u8], arch: Arch) -> bool
    ensures { result ≡ (is_letter arch letter && not (list_any (λ (a : ℕ). a == letter) before.now)) }
{
    may_stand(letter, arch) && !before.contains(&letter)
}

// Returns whether these letters may follow the `z`: each is known, and none is there twice.
fn letters_are_known(letters: &[u8], arch: Arch) -> bool
    ensures { result ≡ are_letters arch [] letters.now }
{
    for (index, letter) in letters.iter().enumerate() {
        let (before, _) = letters.split_at(index);
        if !is_new_letter(*letter, before, arch) {
            return false;
        }
    }
    true
}

/// Reads the augmentation string, and returns the letters after its `z`, or none if the string is empty.
#[tactic(auto, unfolding(crate::specs::Augmentation::letters_at))]
pub fn read_letters<'a>(body: &mut Reader<'a>, arch: Arch) -> Result<Option<&'a [u8]>, RecordFault>
    ensures { StepGives (λ letters. option_map (λ text. text.now) letters) body.new result (letters_at arch (reader_cursor body.old)) }
{
    let place = body.place();
    match body.text()? {
        [] => Ok(None),
        [b'z', letters @ ..] if letters_are_known(letters, arch) => Ok(Some(letters)),
        _ => Err(RecordFault::Augmentation(place)),
    }
}
