//! `walk FILE@AT CORE DEPTH`: the walks of a core file's threads by a section.

ghost use Rattle.std.specs.Prelude.{◌≡◌, ◌<◌, ◌^◌, List, ℕ, None, true, length, map, IfSome, IsSomeAnd};
ghost use Rattle.std.specs.String.{string_bytes};
ghost use Rattle.sf_decode.specs.Decoding.{section_check};
ghost use Rattle.core_notes.specs.Checks.{core_check};
ghost use Rattle.sf_words.specs.Files.{files_of, items_of};
ghost use Rattle.sf_words.specs.Loading.{AreReadWhole, files_limit, loaded_bytes, loaded_items};
ghost use Rattle.core_parts.specs.Loaded.{core_read_bytes, is_whole};
ghost use Rattle.section_commands.specs.Making.{MadeAs, NeedsNoMore};
ghost use Rattle.section_commands.specs.Walk.{IsWalk, WalkComes, WalkComesFrom, WalkWords, walk_files, walk_of};

use crate::made::{Made, Outcome, Unmade};
use crate::section::undecoded;
use crate::walks::{mixed, same_machine, unread_core, view_walks};
use core_parts::{CoreInput, CoreRead};
use sf_decode::View;
use sf_text::Output;
use sf_words::{
    CommandFiles, FileList, Item, Loaded, MOST_FRAMES, SectionFile, four_words, number_up_to,
    section_file,
};
use std::alloc::Global;

/// The words of `walk FILE@AT CORE DEPTH`.
#[derive(Clone, Copy)]
pub struct Walk<'a> {
    pub section: SectionFile<'a>,
    /// The name of the core file.
    pub core: &'a str,
    /// The most frames of a thread.
    pub depth: u32,
}

/// Returns the walks of a core file's threads by the section of these bytes.
fn walk_made<'a, 'm>(
    alloc: Global,
    section: &[u8],
    at: u64,
    core: &CoreRead,
    depth: u32,
) -> Result<Made<'m>, Unmade<'a>>
    requires { is_whole core.now ≡ true → length (core_read_bytes core.now) < 2 ^ 32 }
    ensures comes { MadeAs (WalkComesFrom at section.now (core_read_bytes core.now) depth (section_check section.now at) (core_check (core_read_bytes core.now))) result }
    ensures whole { is_whole core.now ≡ true → NeedsNoMore result }
{
    let view = match View::parse(section, at) {
        Ok(view) => view,
        Err(fault) => return Err(Unmade::Refused(undecoded(fault, 0))),
    };
    let core = match CoreInput::parse(core) {
        Ok(core) => core,
        Err(fault) => return Err(Unmade::Refused(unread_core(&fault, 1))),
    };
    if !same_machine(view.arch(), core.arch()) {
        return Err(Unmade::Refused(mixed(1)));
    }
    let text = view_walks(alloc, &view, &core, depth)?;
    Ok(Made {
        outcome: Outcome::Done,
        section: None,
        output: Output::Text(text),
    })
}

impl<'a> Walk<'a> {
    /// Returns what the words ask for, if they have this form.
    pub fn read(words: &'a [String]) -> Option<Walk<'a>>
        ensures found { IfSome result (λ walk. IsWalk (map string_bytes words.now) (walk_of walk)) }
        ensures only { (walk : WalkWords) → IsWalk (map string_bytes words.now) walk → IsSomeAnd result (λ found. walk_of found ≡ walk) }
    {
        let (command, section, core, depth) = four_words(words)?;
        if command != "walk" {
            return None;
        }
        let section = section_file(section)?;
        if core.is_empty() {
            return None;
        }
        let depth = number_up_to(depth, MOST_FRAMES)?;
        Some(Walk {
            section,
            core,
            depth,
        })
    }

    /// Returns the files of the command.
    pub fn files(&self) -> CommandFiles<'a>
        ensures { files_of result ≡ walk_files (walk_of self.now) }
    {
        CommandFiles {
            out: None,
            first: Some(Item::Section(self.section)),
            second: Some(Item::Core(self.core)),
            list: FileList::None,
        }
    }

    /// Returns the walks of the core file's threads by the section.
    ///
    /// # Errors
    ///
    /// `Refusal::Input` shows what is refused, `Refusal::Limit` has the limit that is exceeded, and `Refusal::Memory` means
    /// that memory ran out. `Unmade::Unread` means that more of the core file has to be read.
    pub fn make<'m>(&self, alloc: Global, loaded: &'m [Loaded<'a>]) -> Result<Made<'m>, Unmade<'a>>
        requires items { loaded_items loaded.now ≡ items_of (walk_files (walk_of self.now)) }
        requires within { files_limit (walk_files (walk_of self.now)) (loaded_bytes loaded.now) ≡ None }
        ensures comes { MadeAs (WalkComes (walk_of self.now) (loaded_bytes loaded.now)) result }
        ensures whole { AreReadWhole loaded.now → NeedsNoMore result }
    {
        match loaded {
            [section, core] => {
                walk_made(
                    alloc,
                    section.bytes(),
                    self.section.at,
                    core.core(),
                    self.depth,
                )
            }
            _ => unreachable!(),
        }
    }
}
