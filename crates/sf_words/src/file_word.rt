//! Words that each name a file of one kind, such as an input or a section.

ghost use Rattle.std.specs.Prelude.{◌≡◌, ℕ, List, IfSome, IsSomeAnd};
ghost use Rattle.std.specs.Coded.{Coded};
ghost use Rattle.sf_words.specs.Items.{ItemWords, Input as InputItem, Section as SectionItem, item_of};
ghost use Rattle.sf_words.specs.OneReading.{input_code, one_input, one_section, section_code};
ghost use Rattle.sf_words.specs.Words.{InputWords, IsInputWord, IsSectionWord, SectionWords, input_of, words_of_section};

use crate::item::Item;
use crate::words::{InputFile, SectionFile, input_file, section_file};

/// A file that a word names.
pub(crate) trait FileWord<'a>: Copy {
    /// What a word says of such a file.
    ghost Said: { Type 0 };

    /// What the word of this file says.
    ghost said: { Self → Said };

    /// A word says this.
    ghost Says: { List ℕ → Said → Type 0 };

    /// A word says one thing at most.
    ghost one_said: { (word : List ℕ) (one other : Said) → Says word one → Says word other → one ≡ other };

    /// A code of what words say.
    ghost said_code: { Coded Said };

    /// What is said as an item of a run.
    ghost item_said: { Said → ItemWords };

    /// Returns the file that a word names, if it names one.
    fn read(word: &'a str) -> Option<Self>
        ensures found { IfSome result (λ file. Says word.now (said file)) }
        ensures only { (words : Said) → Says word.now words → IsSomeAnd result (λ file. said file ≡ words) };

    /// Returns the file as an item of a run.
    fn item(self) -> Item<'a>
        ensures { item_of result ≡ item_said (said self) };
}

impl<'a> FileWord<'a> for InputFile<'a> {
    ghost Said = { InputWords };

    ghost said = { λ input. input_of input };

    ghost Says = { λ word input. IsInputWord word input };

    ghost one_said = { one_input };

    ghost said_code = { input_code };

    ghost item_said = { λ input. InputItem input };

    fn read(word: &'a str) -> Option<InputFile<'a>> {
        input_file(word)
    }

    fn item(self) -> Item<'a> {
        Item::Input(self)
    }
}

impl<'a> FileWord<'a> for SectionFile<'a> {
    ghost Said = { SectionWords };

    ghost said = { λ section. words_of_section section };

    ghost Says = { λ word section. IsSectionWord word section };

    ghost one_said = { one_section };

    ghost said_code = { section_code };

    ghost item_said = { λ section. SectionItem section };

    fn read(word: &'a str) -> Option<SectionFile<'a>> {
        section_file(word)
    }

    fn item(self) -> Item<'a> {
        Item::Section(self)
    }
}
