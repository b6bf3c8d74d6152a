//! Lists of words that each name a file of one kind: each word is read when it is asked for.

ghost use Rattle.std.specs.Prelude.{map};
ghost use Rattle.std.specs.String.{string_bytes};
ghost use Rattle.sf_words.specs.Naming.{FilesNamed};
ghost use Rattle.sf_words.specs.OneReading.{input_code, one_input, one_naming, one_section, section_code};
ghost use Rattle.sf_words.specs.Words.{IsInputWord, IsSectionWord};

use crate::lists::are_files;
use crate::words::{InputFile, SectionFile};

/// Words that each name an input.
#[derive(Clone, Copy)]
pub struct NamedInputs<'a> {
    pub(crate) words: &'a [String],
    pub ghost said: { FilesNamed IsInputWord (map string_bytes words.now) } by { one_naming input_code IsInputWord one_input (map string_bytes words.now) },
}

/// Words that each name a section.
#[derive(Clone, Copy)]
pub struct NamedSections<'a> {
    pub(crate) words: &'a [String],
    pub ghost said: { FilesNamed IsSectionWord (map string_bytes words.now) } by { one_naming section_code IsSectionWord one_section (map string_bytes words.now) },
}

impl<'a> NamedInputs<'a> {
    ghost use Rattle.std.specs.Prelude.{◌≡◌, List, length, IfSome, IsSomeAnd};
    ghost use Rattle.std.specs.List.{AllZip};
    ghost use Rattle.sf_words.specs.Named.{inputs_of};
    ghost use Rattle.sf_words.specs.Words.{InputWords};

    /// Returns the words as names of inputs, if each names one. Allocates nothing.
    pub fn read(words: &'a [String]) -> Option<NamedInputs<'a>>
        ensures found { IfSome result (λ named. AllZip IsInputWord (map string_bytes words.now) (inputs_of named)) }
        ensures only { (inputs : List InputWords) → AllZip IsInputWord (map string_bytes words.now) inputs → IsSomeAnd result (λ named. inputs_of named ≡ inputs) }
    {
        if !are_files::<InputFile<'_>>(words) {
            return None;
        }
        Some(NamedInputs { words })
    }

    /// Returns how many inputs the words name.
    pub fn len(&self) -> usize
        ensures { result ≡ length (inputs_of self.now) }
    {
        self.words.len()
    }
}

impl<'a> NamedSections<'a> {
    ghost use Rattle.std.specs.Prelude.{◌≡◌, List, length, IfSome, IsSomeAnd};
    ghost use Rattle.std.specs.List.{AllZip};
    ghost use Rattle.sf_words.specs.Named.{named_sections};
    ghost use Rattle.sf_words.specs.Words.{SectionWords};

    /// Returns the words as names of sections, if each names one. Allocates nothing.
    pub fn read(words: &'a [String]) -> Option<NamedSections<'a>>
        ensures found { IfSome result (λ named. AllZip IsSectionWord (map string_bytes words.now) (named_sections named)) }
        ensures only { (sections : List SectionWords) → AllZip IsSectionWord (map string_bytes words.now) sections → IsSomeAnd result (λ named. named_sections named ≡ sections) }
    {
        if !are_files::<SectionFile<'_>>(words) {
            return None;
        }
        Some(NamedSections { words })
    }

    /// Returns how many sections the words name.
    pub fn len(&self) -> usize
        ensures { result ≡ length (named_sections self.now) }
    {
        self.words.len()
    }
}
