//! `backtrace OUT@AT CORE DEPTH IN@BASE ..` makes the section of its inputs, and walks a core file's threads by it.

ghost use Rattle.std.specs.Prelude.{◌≡◌, List, ℕ, None, IfErr, IfOk, IfSome, IsSomeAnd, map};
ghost use Rattle.std.specs.String.{string_bytes};
ghost use Rattle.sf_model.specs.Section.{Section};
ghost use Rattle.sf_model.specs.Table.{Table};
ghost use Rattle.sf_model.specs.Walk.{section_walk};
ghost use Rattle.core_notes.specs.Checks.{file_threads};
ghost use Rattle.core_notes.specs.Memory.{file_regions};
ghost use Rattle.core_parts.specs.Input.{input_file, is_by_parts};
ghost use Rattle.sf_words.specs.Files.{files_of, items_of};
ghost use Rattle.sf_words.specs.Loading.{AreReadWhole, files_limit, loaded_bytes, loaded_items};
ghost use Rattle.section_commands.specs.Making.{IsUnfinished, MadeAs, NeedsNoMore};
ghost use Rattle.section_commands.specs.Walks as spec;
ghost use Rattle.sf_run.specs.Backtrace.{BacktraceComes, BacktraceWords, IsBacktrace, backtrace_files, backtrace_of};

use crate::linked::{inputs_in, unlinked};
use core_parts::CoreInput;
use section_commands::{Made, Outcome, Unmade, unread_core, view_walks};
use sf_decode::View;
use sf_link::link;
use sf_text::Output;
use sf_words::{
    CommandFiles, FileList, Item, Loaded, MOST_FRAMES, NamedInputs, SectionFile, four_and_items,
    number_up_to, section_file,
};
use std::alloc::Global;

/// The section to be made, the threads to walk, and the inputs to link.
#[derive(Clone, Copy)]
pub struct Backtrace<'a> {
    pub out: SectionFile<'a>,
    /// The name of the core file.
    pub core: &'a str,
    /// The most frames of a thread.
    pub depth: u32,
    pub inputs: NamedInputs<'a>,
}

/// Returns the texts of the walks of all threads by a section that was made, each of at most `depth` frames.
fn section_walks<'a>(
    alloc: Global,
    section: &[u8],
    at: u64,
    core: &CoreInput<'_>,
    depth: u32,
) -> Result<Vec<u8>, Unmade<'a>>
    requires { (table : Table) × Section section.now at table }
    ensures text { (table : Table) → Section section.now at table → IfOk result (λ text. text.items ≡ spec.walks_text (λ thread. section_walk table.functions thread (file_regions (input_file core.now)) depth) 0 (file_threads (input_file core.now))) }
    ensures unfinished { IfErr result (IsUnfinished (is_by_parts core.now)) }
{
    match View::parse(section, at) {
        Ok(view) => view_walks(alloc, &view, core, depth),
        Err(_) => unreachable!(),
    }
}

impl<'a> Backtrace<'a> {
    /// Returns the link and the walks that the words ask for, if they have the form `backtrace OUT@AT CORE DEPTH IN@BASE ..`.
    pub fn read(words: &'a [String]) -> Option<Backtrace<'a>>
        ensures found { IfSome result (λ backtrace. IsBacktrace (map string_bytes words.now) (backtrace_of backtrace)) }
        ensures only { (wanted : BacktraceWords) → IsBacktrace (map string_bytes words.now) wanted → IsSomeAnd result (λ backtrace. backtrace_of backtrace ≡ wanted) }
    {
        let (command, out, core, depth, inputs) = four_and_items(words)?;
        if command != "backtrace" {
            return None;
        }
        let out = section_file(out)?;
        if core.is_empty() {
            return None;
        }
        let depth = number_up_to(depth, MOST_FRAMES)?;
        let inputs = NamedInputs::read(inputs)?;
        Some(Backtrace {
            out,
            core,
            depth,
            inputs,
        })
    }

    /// Returns the section's file, the core file and the inputs' files.
    pub fn files(&self) -> CommandFiles<'a>
        ensures { files_of result ≡ backtrace_files (backtrace_of self.now) }
    {
        CommandFiles {
            out: Some(self.out.name),
            first: Some(Item::Core(self.core)),
            second: None,
            list: FileList::Inputs(self.inputs),
        }
    }

    /// Makes the section of the inputs that were loaded after the core file, and the walks of its threads by this section.
    ///
    /// # Errors
    ///
    /// The first fault of the core file or of linking, as a refusal, or `Unmade::Unread` if more of the core file has to be
    /// read; memory may run out at any time.
    pub fn make<'m>(&self, alloc: Global, loaded: &'m [Loaded<'a>]) -> Result<Made<'m>, Unmade<'a>>
        requires asked { (words : List (List ℕ)) × IsBacktrace words (backtrace_of self.now) }
        requires items { loaded_items loaded.now ≡ items_of (backtrace_files (backtrace_of self.now)) }
        requires within { files_limit (backtrace_files (backtrace_of self.now)) (loaded_bytes loaded.now) ≡ None }
        ensures comes { MadeAs (BacktraceComes (backtrace_of self.now) (loaded_bytes loaded.now)) result }
        ensures whole { AreReadWhole loaded.now → NeedsNoMore result }
    {
        let [core, inputs @ ..] = loaded else {
            unreachable!()
        };
        let core = match CoreInput::parse(core.core()) {
            Ok(core) => core,
            Err(fault) => return Err(Unmade::Refused(unread_core(&fault, 0))),
        };
        let inputs = inputs_in(alloc, inputs)?;
        match link(alloc, &inputs, self.out.at, Some(core.arch())) {
            Ok(linked) => {
                let text = section_walks(alloc, &linked.section, self.out.at, &core, self.depth)?;
                Ok(Made {
                    outcome: Outcome::Done,
                    section: Some(linked.section),
                    output: Output::Text(text),
                })
            }
            Err(fault) => Err(Unmade::Refused(unlinked(&fault, None))),
        }
    }
}
