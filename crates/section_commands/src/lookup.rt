//! `lookup FILE@AT PC`: the row of a section that holds at an address.

ghost use Rattle.std.specs.Prelude.{◌≡◌, List, ℕ, None, map, IfOk, IfSome, IsSomeAnd};
ghost use Rattle.std.specs.String.{string_bytes};
ghost use Rattle.sf_decode.specs.Decoding.{section_check};
ghost use Rattle.sf_decode.specs.View.{table_of};
ghost use Rattle.sf_words.specs.Files.{files_of, items_of};
ghost use Rattle.sf_words.specs.Loading.{loaded_bytes, loaded_items};
ghost use Rattle.section_commands.specs.Lookup.{IsLookup, LookupComes, LookupWords, lookup_files, lookup_of, row_outcome};
ghost use Rattle.section_commands.specs.Making.{ComesTo, coming_of};
ghost use Rattle.section_commands.specs.Coming.{Makes};
ghost use Rattle.section_commands.specs.SectionComes.{ShowingComesFrom};

use crate::made::{Made, Outcome};
use crate::section::undecoded;
use sf_base::{NoMemory, hex_word};
use sf_decode::View;
use sf_lookup::find;
use sf_text::{Output, found};
use sf_words::{
    CommandFiles, FileList, Item, Loaded, Refusal, SectionFile, section_file, three_words,
};
use std::alloc::Global;

/// The words of `lookup FILE@AT PC`.
#[derive(Clone, Copy)]
pub struct Lookup<'a> {
    pub section: SectionFile<'a>,
    pub pc: u64,
}

/// Returns the row that holds at an address.
fn row_at<'m>(alloc: Global, view: &View<'_>, pc: u64) -> Result<Made<'m>, NoMemory>
    ensures { IfOk result (λ made. coming_of made ≡ Makes (row_outcome pc (table_of view.now)).0 None (row_outcome pc (table_of view.now)).1) }
{
    let (outcome, text) = match find(view, pc) {
        Some(row) => (Outcome::Done, found(alloc, pc, Some((row.func, row.row)))?),
        None => (Outcome::Negative, found(alloc, pc, None)?),
    };
    Ok(Made {
        outcome,
        section: None,
        output: Output::Text(text),
    })
}

/// Returns the row of the section of these bytes that holds at an address.
fn looked_up<'a, 'm>(alloc: Global, bytes: &[u8], at: u64, pc: u64) -> Result<Made<'m>, Refusal<'a>>
    ensures { ComesTo (ShowingComesFrom at bytes.now (row_outcome pc) (section_check bytes.now at)) result }
{
    match View::parse(bytes, at) {
        Ok(view) => Ok(row_at(alloc, &view, pc)?),
        Err(fault) => Err(undecoded(fault, 0)),
    }
}

impl<'a> Lookup<'a> {
    /// Returns what the words ask for, if they have this form.
    pub fn read(words: &'a [String]) -> Option<Lookup<'a>>
        ensures found { IfSome result (λ lookup. IsLookup (map string_bytes words.now) (lookup_of lookup)) }
        ensures only { (lookup : LookupWords) → IsLookup (map string_bytes words.now) lookup → IsSomeAnd result (λ found. lookup_of found ≡ lookup) }
    {
        let (command, section, address) = three_words(words)?;
        if command != "lookup" {
            return None;
        }
        let section = section_file(section)?;
        let pc = hex_word(address)?;
        Some(Lookup { section, pc })
    }

    /// Returns the files of the command.
    pub fn files(&self) -> CommandFiles<'a>
        ensures { files_of result ≡ lookup_files (lookup_of self.now) }
    {
        CommandFiles {
            out: None,
            first: Some(Item::Section(self.section)),
            second: None,
            list: FileList::None,
        }
    }

    /// Returns the row that holds at the address.
    ///
    /// # Errors
    ///
    /// `Refusal::Input` or `Refusal::Limit` if the bytes are no section, and `Refusal::Memory` if memory ran out.
    pub fn make<'m>(&self, alloc: Global, loaded: &'m [Loaded<'a>]) -> Result<Made<'m>, Refusal<'a>>
        requires items { loaded_items loaded.now ≡ items_of (lookup_files (lookup_of self.now)) }
        ensures comes { ComesTo (LookupComes (lookup_of self.now) (loaded_bytes loaded.now)) result }
    {
        match loaded {
            [section] => looked_up(alloc, section.bytes(), self.section.at, self.pc),
            _ => unreachable!(),
        }
    }
}
