//! `dump FILE@AT`: all that a section holds.

ghost use Rattle.std.specs.Prelude.{◌≡◌, List, ℕ, None, map, IfSome, IsSomeAnd};
ghost use Rattle.std.specs.String.{string_bytes};
ghost use Rattle.sf_decode.specs.Decoding.{section_check};
ghost use Rattle.sf_words.specs.Files.{files_of, items_of};
ghost use Rattle.sf_words.specs.Loading.{loaded_bytes, loaded_items};
ghost use Rattle.sf_words.specs.Words.{SectionWords};
ghost use Rattle.section_commands.specs.Dump.{DumpComes, IsDump, dump_files, dump_of, table_shown};
ghost use Rattle.section_commands.specs.Making.{ComesTo};
ghost use Rattle.section_commands.specs.SectionComes.{ShowingComesFrom};

use crate::made::{Made, Outcome};
use crate::section::undecoded;
use sf_decode::View;
use sf_text::Output;
use sf_words::{
    CommandFiles, FileList, Item, Loaded, Refusal, SectionFile, section_file, two_words,
};

/// The words of `dump FILE@AT`.
#[derive(Clone, Copy)]
pub struct Dump<'a> {
    pub section: SectionFile<'a>,
}

/// Returns all that the section of these bytes holds.
fn dumped<'a, 'm>(bytes: &'m [u8], at: u64) -> Result<Made<'m>, Refusal<'a>>
    ensures { ComesTo (ShowingComesFrom at bytes.now table_shown (section_check bytes.now at)) result }
{
    match View::parse(bytes, at) {
        Ok(view) => Ok(Made {
            outcome: Outcome::Done,
            section: None,
            output: Output::Section(view),
        }),
        Err(fault) => Err(undecoded(fault, 0)),
    }
}

impl<'a> Dump<'a> {
    /// Returns what the words ask for, if they have this form.
    pub fn read(words: &'a [String]) -> Option<Dump<'a>>
        ensures found { IfSome result (λ dump. IsDump (map string_bytes words.now) (dump_of dump)) }
        ensures only { (section : SectionWords) → IsDump (map string_bytes words.now) section → IsSomeAnd result (λ dump. dump_of dump ≡ section) }
    {
        let (command, section) = two_words(words)?;
        if command != "dump" {
            return None;
        }
        let section = section_file(section)?;
        Some(Dump { section })
    }

    /// Returns the files of the command.
    pub fn files(&self) -> CommandFiles<'a>
        ensures { files_of result ≡ dump_files (dump_of self.now) }
    {
        CommandFiles {
            out: None,
            first: Some(Item::Section(self.section)),
            second: None,
            list: FileList::None,
        }
    }

    /// Returns all that the section holds.
    ///
    /// # Errors
    ///
    /// `Refusal::Input` or `Refusal::Limit` if the bytes are no section.
    pub fn make<'m>(&self, loaded: &'m [Loaded<'a>]) -> Result<Made<'m>, Refusal<'a>>
        requires items { loaded_items loaded.now ≡ items_of (dump_files (dump_of self.now)) }
        ensures comes { ComesTo (DumpComes (dump_of self.now) (loaded_bytes loaded.now)) result }
    {
        match loaded {
            [section] => dumped(section.bytes(), self.section.at),
            _ => unreachable!(),
        }
    }
}
