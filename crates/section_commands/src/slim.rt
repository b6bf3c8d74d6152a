//! `slim OUT@AT FILE@AT`: a section without what no look-up needs.

ghost use Rattle.std.specs.Prelude.{◌≡◌, List, ℕ, Some, map, IfSome, IsSomeAnd};
ghost use Rattle.std.specs.String.{string_bytes};
ghost use Rattle.sf_decode.specs.Decoding.{section_check};
ghost use Rattle.sf_slim.specs.FaultShown.{shown_of_slimming};
ghost use Rattle.sf_words.specs.Files.{files_of, items_of};
ghost use Rattle.sf_words.specs.Loading.{loaded_bytes, loaded_items};
ghost use Rattle.section_commands.specs.Coming.{Coming, Refused};
ghost use Rattle.section_commands.specs.Making.{ComesAs, ComesTo};
ghost use Rattle.section_commands.specs.Slim.{IsSlim, SlimComes, SlimComesFrom, SlimWords, slim_files, slim_of};

use crate::made::{Made, Outcome};
use crate::section::undecoded;
use sf_decode::View;
use sf_slim::{SlimFault, slim};
use sf_text::{Output, slim_line};
use sf_words::{
    CommandFiles, FileList, Item, Loaded, Refusal, SectionFile, section_file, three_words,
};
use std::alloc::Global;

/// The words of `slim OUT@AT FILE@AT`.
#[derive(Clone, Copy)]
pub struct Slim<'a> {
    pub out: SectionFile<'a>,
    pub section: SectionFile<'a>,
}

/// Returns why the section of the first item was not slimmed, as a refusal of the run.
fn unslimmed<'a>(fault: SlimFault) -> Refusal<'a>
    ensures memory { (fault ≡ SlimFault.NoMemory) → (result ≡ Refusal.Memory) }
    ensures is { ComesAs (λ (coming : Coming). coming ≡ Refused (shown_of_slimming (Some 0) fault)) result }
{
    match fault {
        SlimFault::NoMemory => Refusal::Memory,
        SlimFault::Overlap(_) | SlimFault::OutOfReach(_) => Refusal::Input(fault.notice(Some(0))),
    }
}

/// Returns the section of these bytes, which is at `from`, slimmed for the address `at`.
fn slim_made<'a, 'm>(
    alloc: Global,
    bytes: &[u8],
    from: u64,
    at: u64,
) -> Result<Made<'m>, Refusal<'a>>
    ensures { ComesTo (SlimComesFrom from bytes.now at (section_check bytes.now from)) result }
{
    let view = match View::parse(bytes, from) {
        Ok(view) => view,
        Err(fault) => return Err(undecoded(fault, 0)),
    };
    match slim(alloc, &view, at) {
        Ok(made) => {
            let (before, after) = (bytes.len() as u64, made.section.len() as u64);
            let text = slim_line(alloc, before, after, made.functions, made.rows)?;
            Ok(Made {
                outcome: Outcome::Done,
                section: Some(made.section),
                output: Output::Text(text),
            })
        }
        Err(fault) => Err(unslimmed(fault)),
    }
}

impl<'a> Slim<'a> {
    /// Returns what the words ask for, if they have this form.
    pub fn read(words: &'a [String]) -> Option<Slim<'a>>
        ensures found { IfSome result (λ slim. IsSlim (map string_bytes words.now) (slim_of slim)) }
        ensures only { (slim : SlimWords) → IsSlim (map string_bytes words.now) slim → IsSomeAnd result (λ found. slim_of found ≡ slim) }
    {
        let (command, out, section) = three_words(words)?;
        if command != "slim" {
            return None;
        }
        let out = section_file(out)?;
        let section = section_file(section)?;
        Some(Slim { out, section })
    }

    /// Returns the files of the command.
    pub fn files(&self) -> CommandFiles<'a>
        ensures { files_of result ≡ slim_files (slim_of self.now) }
    {
        CommandFiles {
            out: Some(self.out.name),
            first: Some(Item::Section(self.section)),
            second: None,
            list: FileList::None,
        }
    }

    /// Returns the slimmed section.
    ///
    /// # Errors
    ///
    /// `Refusal::Input` shows what is refused, `Refusal::Limit` has the limit of functions or rows that is exceeded,
    /// and `Refusal::Memory` means that memory ran out.
    pub fn make<'m>(&self, alloc: Global, loaded: &'m [Loaded<'a>]) -> Result<Made<'m>, Refusal<'a>>
        requires items { loaded_items loaded.now ≡ items_of (slim_files (slim_of self.now)) }
        ensures comes { ComesTo (SlimComes (slim_of self.now) (loaded_bytes loaded.now)) result }
    {
        match loaded {
            [section] => slim_made(alloc, section.bytes(), self.section.at, self.out.at),
            _ => unreachable!(),
        }
    }
}
