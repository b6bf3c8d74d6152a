//! Words that name files: `NAME@ADDRESS`.

ghost use Rattle.std.specs.Prelude.{◌≡◌, ℕ, ◌++◌, List, IfSome, IsSomeAnd};
ghost use Rattle.sf_model.specs.declared.machine.Arch.{Arch as machine};
ghost use Rattle.sf_model.specs.declared.form.Form.{Form as input_form};
ghost use Rattle.sf_words.specs.Words.{IsPlaced, IsInputWord, IsSectionWord, InputWords, SectionWords, Spells, input_of, prefix_of, words_of_section};

use sf_base::hex_word;
use sf_model::{Arch, Form};

/// A name and an address.
#[derive(Clone, Copy)]
struct Placed<'a> {
    name: &'a str,
    address: u64,
}

/// A file to be linked, at its load address.
#[derive(Clone, Copy)]
pub struct InputFile<'a> {
    pub form: Form,
    pub name: &'a str,
    pub base: u64,
}

/// A section in a file, and its address.
#[derive(Clone, Copy)]
pub struct SectionFile<'a> {
    pub name: &'a str,
    pub at: u64,
}

/// Returns the name and the address of a word: what is before its last `@`, and the number after it.
fn name_and_address(word: &str) -> Option<Placed<'_>>
    ensures found { IfSome result (λ p. IsPlaced word.now p.name.now p.address) }
    ensures only { (name : List ℕ) (address : ℕ) → IsPlaced word.now name address → IsSomeAnd result (λ p. (p.name.now ≡ name) × (p.address ≡ address)) }
{
    let (name, digits) = word.rsplit_once('@')?;
    let address = hex_word(digits)?;
    Some(Placed { name, address })
}

/// Returns the machine that a prefix of the name is for, and the rest.
fn machine_of(name: &str) -> Option<(Arch, &str)>
    ensures found { IfSome result (λ m. name.now ≡ prefix_of m.0 ++ m.1.now) }
    ensures only { (arch : machine) (rest : List ℕ) → name.now ≡ prefix_of arch ++ rest → IsSomeAnd result (λ m. (m.0 ≡ arch) × (m.1.now ≡ rest)) }
{
    if let Some(rest) = name.strip_prefix("eh-amd64:") {
        return Some((Arch::Amd64, rest));
    }
    let rest = name.strip_prefix("eh-aarch64:")?;
    Some((Arch::Aarch64, rest))
}

/// Returns what a file is, by how its name is spelled, and the name.
fn form_of(text: &str) -> (Form, &str)
    ensures spelled { Spells result.0 text.now result.1.now }
    ensures only { (form : input_form) (name : List ℕ) → Spells form text.now name → (result.0 ≡ form) × (result.1.now ≡ name) }
{
    match machine_of(text) {
        Some((arch, name)) => (Form::Bare(arch), name),
        None => (Form::Elf, text),
    }
}

/// Returns the file to be linked that a word names, if it names one.
pub fn input_file(word: &str) -> Option<InputFile<'_>>
    ensures found { IfSome result (λ i. IsInputWord word.now (input_of i)) }
    ensures only { (input : InputWords) → IsInputWord word.now input → IsSomeAnd result (λ i. input_of i ≡ input) }
{
    let placed = name_and_address(word)?;
    let (form, name) = form_of(placed.name);
    if name.is_empty() {
        return None;
    }
    Some(InputFile {
        form,
        name,
        base: placed.address,
    })
}

/// Returns the section that a word names, if it names one.
pub fn section_file(word: &str) -> Option<SectionFile<'_>>
    ensures found { IfSome result (λ s. IsSectionWord word.now (words_of_section s)) }
    ensures only { (section : SectionWords) → IsSectionWord word.now section → IsSomeAnd result (λ s. words_of_section s ≡ section) }
{
    let placed = name_and_address(word)?;
    if placed.name.is_empty() {
        return None;
    }
    Some(SectionFile {
        name: placed.name,
        at: placed.address,
    })
}
