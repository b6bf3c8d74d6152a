//! Forms of words that commands share.

ghost use Rattle.std.specs.Prelude.{◌≡◌, ◌<◌, ◌≤◌, ℕ, [], ◌∷◌, List, map, length, IfSome, IsSome, IsSomeAnd};
ghost use Rattle.std.specs.String.{string_bytes};
ghost use Rattle.sf_base.specs.Word.{SpellsDecimal};
ghost use Rattle.sf_words.specs.Forms as spec;
ghost use Rattle.sf_words.specs.Forms.{NameInputs, section_and_inputs_of};

use crate::named::NamedInputs;
use crate::words::{SectionFile, section_file};
use sf_base::dec_word;

/// The most frames of a thread.
pub const MOST_FRAMES: u32 = 1024;

/// The words of a command such as `link OUT@AT IN@BASE ..`.
#[derive(Clone, Copy)]
pub struct SectionAndInputs<'a> {
    pub section: SectionFile<'a>,
    pub inputs: NamedInputs<'a>,
}

/// Returns the two words, if there are two.
pub fn two_words(words: &[String]) -> Option<(&str, &str)>
    ensures found { IfSome result (λ t. map string_bytes words.now ≡ t.0.now ∷ t.1.now ∷ []) }
    ensures only { (a b : List ℕ) → map string_bytes words.now ≡ a ∷ b ∷ [] → IsSome result }
{
    match words {
        [first, second] => Some((first.as_str(), second.as_str())),
        _ => None,
    }
}

/// Returns the three words, if there are three.
pub fn three_words(words: &[String]) -> Option<(&str, &str, &str)>
    ensures found { IfSome result (λ t. map string_bytes words.now ≡ t.0.now ∷ t.1.now ∷ t.2.now ∷ []) }
    ensures only { (a b c : List ℕ) → map string_bytes words.now ≡ a ∷ b ∷ c ∷ [] → IsSome result }
{
    match words {
        [first, second, third] => Some((first.as_str(), second.as_str(), third.as_str())),
        _ => None,
    }
}

/// Returns the four words, if there are four.
pub fn four_words(words: &[String]) -> Option<(&str, &str, &str, &str)>
    ensures found { IfSome result (λ t. map string_bytes words.now ≡ t.0.now ∷ t.1.now ∷ t.2.now ∷ t.3.now ∷ []) }
    ensures only { (a b c d : List ℕ) → map string_bytes words.now ≡ a ∷ b ∷ c ∷ d ∷ [] → IsSome result }
{
    match words {
        [first, second, third, fourth] => Some((
            first.as_str(),
            second.as_str(),
            third.as_str(),
            fourth.as_str(),
        )),
        _ => None,
    }
}

/// Returns the first two words and the others, if there is a third word.
pub fn out_and_items(words: &[String]) -> Option<(&str, &str, &[String])>
    ensures found { IfSome result (λ t. (map string_bytes words.now ≡ t.0.now ∷ t.1.now ∷ map string_bytes t.2.now) × (0 < length t.2.now)) }
    ensures only { (a b : List ℕ) (rest : List (List ℕ)) → map string_bytes words.now ≡ a ∷ b ∷ rest → 0 < length rest → IsSome result }
{
    match words {
        [_, _] => None,
        [first, second, rest @ ..] => Some((first.as_str(), second.as_str(), rest)),
        _ => None,
    }
}

/// Returns the first three words and the others, if there is a fourth word.
pub fn three_and_items(words: &[String]) -> Option<(&str, &str, &str, &[String])>
    ensures found { IfSome result (λ t. (map string_bytes words.now ≡ t.0.now ∷ t.1.now ∷ t.2.now ∷ map string_bytes t.3.now) × (0 < length t.3.now)) }
    ensures only { (a b c : List ℕ) (rest : List (List ℕ)) → map string_bytes words.now ≡ a ∷ b ∷ c ∷ rest → 0 < length rest → IsSome result }
{
    match words {
        [_, _, _] => None,
        [first, second, third, rest @ ..] => {
            Some((first.as_str(), second.as_str(), third.as_str(), rest))
        }
        _ => None,
    }
}

/// Returns the first four words and the others, if there is a fifth word.
pub fn four_and_items(words: &[String]) -> Option<(&str, &str, &str, &str, &[String])>
    ensures found { IfSome result (λ t. (map string_bytes words.now ≡ t.0.now ∷ t.1.now ∷ t.2.now ∷ t.3.now ∷ map string_bytes t.4.now) × (0 < length t.4.now)) }
    ensures only { (a b c d : List ℕ) (rest : List (List ℕ)) → map string_bytes words.now ≡ a ∷ b ∷ c ∷ d ∷ rest → 0 < length rest → IsSome result }
{
    match words {
        [_, _, _, _] => None,
        [first, second, third, fourth, rest @ ..] => Some((
            first.as_str(),
            second.as_str(),
            third.as_str(),
            fourth.as_str(),
            rest,
        )),
        _ => None,
    }
}

/// Returns the number that a word spells, if it is from 1 to `most`.
pub fn number_up_to(word: &str, most: u32) -> Option<u32>
    ensures found { IfSome result (λ n. SpellsDecimal word.now n × (0 < n) × (n ≤ most)) }
    ensures only { (n : ℕ) → SpellsDecimal word.now n → 0 < n → n ≤ most → IsSomeAnd result (λ m. m ≡ n) }
{
    let number = dec_word(word)?;
    if number == 0 || number > most {
        return None;
    }
    Some(number)
}

/// Returns the parts of the words, if they are a command with this name, a section and inputs, such as `link OUT@AT IN@BASE ..`.
pub fn section_and_inputs<'a>(words: &'a [String], name: &str) -> Option<SectionAndInputs<'a>>
    ensures found { IfSome result (λ parts. NameInputs name.now (map string_bytes words.now) (section_and_inputs_of parts)) }
    ensures only { (named : spec.SectionAndInputs) → NameInputs name.now (map string_bytes words.now) named → IsSomeAnd result (λ parts. section_and_inputs_of parts ≡ named) }
{
    let (command, section, inputs) = out_and_items(words)?;
    if command != name {
        return None;
    }
    let section = section_file(section)?;
    let inputs = NamedInputs::read(inputs)?;
    Some(SectionAndInputs { section, inputs })
}
