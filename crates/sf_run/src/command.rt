//! The commands: their forms of words, their files, and what each makes.

ghost use Rattle.std.specs.Prelude.{◌≡◌, ℕ, List, None, IfSome, IsSomeAnd, map};
ghost use Rattle.std.specs.String.{string_bytes};
ghost use Rattle.sf_words.specs.Files.{files_of, items_of};
ghost use Rattle.sf_words.specs.Loading.{AreReadWhole, loaded_bytes, loaded_items};
ghost use Rattle.section_commands.specs.Making.{MadeAs, NeedsNoMore};
ghost use Rattle.sf_run.specs.Comes.{Comes, command_limit};
ghost use Rattle.sf_run.specs.Unrefused as spec;
ghost use Rattle.sf_run.specs.Commands.{CanBeAsked, CommandWords, IsCommand, files_of_command, words_of};

use crate::backtrace::Backtrace;
use crate::object::Gen;
use crate::{link, procbacktrace, verify};
use section_commands::{Dump, Lookup, Made, Merge, Procwalk, Slim, Unmade, Upgrade, Walk};
use sf_words::{CommandFiles, Loaded, Refusal, SectionAndInputs, section_and_inputs};
use std::alloc::Global;

/// A command line that has one of the forms. It borrows its words, and making it allocates nothing.
///
/// A variant's comment has the command's form and what it does. `./x commands` makes the table of README.md and parts of
/// the man page of them; the table has the first sentence.
#[derive(Clone, Copy)]
pub enum Command<'a> {
    /// `link OUT@AT IN@BASE ..` writes the section of all inputs, and prints each omitted function with the reason.
    Link(SectionAndInputs<'a>),
    /// `linkplt OUT@AT IN@BASE ..` does what `link` does, with rows for plain lazy `.plt`s of AMD64.
    LinkPlt(SectionAndInputs<'a>),
    /// `merge OUT@AT FILE@AT ..` writes one section of several.
    Merge(Merge<'a>),
    /// `slim OUT@AT FILE@AT` writes a section that recovers the same, without redundant rows. It prints both lengths.
    Slim(Slim<'a>),
    /// `upgrade OUT@AT FILE@AT` writes the Version 3 section that recovers the same. GNU binutils from 2.46 on read Version 3
    /// only.
    Upgrade(Upgrade<'a>),
    /// `dump FILE@AT` prints a section. The text has its functions and rows.
    Dump(Dump<'a>),
    /// `lookup FILE@AT PC` prints the row that holds at PC. If there is no such row, it prints `none`, and the status is 1.
    Lookup(Lookup<'a>),
    /// `verify FILE@AT IN@BASE ..` compares a section with the files it was made from, wherever a plain function has a row.
    /// The status is 1 if they differ. Functions of repeated blocks, such as a `.plt`, are counted and not compared: status
    /// 0 says nothing of them.
    Verify(SectionAndInputs<'a>),
    /// `walk FILE@AT CORE DEPTH` prints the stacks of a core file with a section, at most DEPTH frames each. AT is the
    /// section's address in the process: add the load address to the AT of `link`.
    Walk(Walk<'a>),
    /// `backtrace OUT@AT CORE DEPTH IN@BASE ..` writes the section of all inputs, and prints the stacks with it. AT and
    /// BASE are those of the process.
    Backtrace(Backtrace<'a>),
    /// `procwalk CORE DEPTH FILE ..` prints the stacks with the section `.sframe` of each file. Each section is used at the
    /// address at which the process had its file mapped.
    Procwalk(Procwalk<'a>),
    /// `procbacktrace CORE DEPTH FILE ..` prints the stacks with the call frame information of each file, also through signal
    /// handlers. A FILE that the process had not mapped is skipped. One that can't be used is passed, with a line on standard
    /// error: the walks stop in it.
    Procbacktrace(Procwalk<'a>),
    /// `gen N` tests itself on a generated object of N functions. It links the object, and prints a summary. No file is
    /// needed.
    Gen(Gen),
}

/// Returns the command that the words ask for, if they have one of the forms.
pub fn command_words(words: &[String]) -> Option<Command<'_>>
    ensures found { IfSome result (λ c. IsCommand (map string_bytes words.now) (words_of c)) }
    ensures only { (command : CommandWords) → IsCommand (map string_bytes words.now) command → IsSomeAnd result (λ c. words_of c ≡ command) }
{
    if let Some(named) = section_and_inputs(words, "link") {
        return Some(Command::Link(named));
    }
    if let Some(named) = section_and_inputs(words, "linkplt") {
        return Some(Command::LinkPlt(named));
    }
    if let Some(merge) = Merge::read(words) {
        return Some(Command::Merge(merge));
    }
    if let Some(slim) = Slim::read(words) {
        return Some(Command::Slim(slim));
    }
    if let Some(upgrade) = Upgrade::read(words) {
        return Some(Command::Upgrade(upgrade));
    }
    if let Some(dump) = Dump::read(words) {
        return Some(Command::Dump(dump));
    }
    if let Some(lookup) = Lookup::read(words) {
        return Some(Command::Lookup(lookup));
    }
    if let Some(named) = section_and_inputs(words, "verify") {
        return Some(Command::Verify(named));
    }
    if let Some(walk) = Walk::read(words) {
        return Some(Command::Walk(walk));
    }
    if let Some(backtrace) = Backtrace::read(words) {
        return Some(Command::Backtrace(backtrace));
    }
    if let Some(procwalk) = Procwalk::read(words, "procwalk") {
        return Some(Command::Procwalk(procwalk));
    }
    if let Some(named) = Procwalk::read(words, "procbacktrace") {
        return Some(Command::Procbacktrace(named));
    }
    let object = Gen::read(words)?;
    Some(Command::Gen(object))
}

/// Returns what a command makes that reads no core file.
fn or_refused<'a, 'm>(made: Result<Made<'m>, Refusal<'a>>) -> Result<Made<'m>, Unmade<'a>>
    ensures { result ≡ spec.or_refused made.entry }
{
    match made {
        Ok(made) => Ok(made),
        Err(refusal) => Err(Unmade::Refused(refusal)),
    }
}

impl<'a> Command<'a> {
    /// Returns the files that the command makes and reads.
    pub fn files(&self) -> CommandFiles<'a>
        ensures { files_of result ≡ files_of_command (words_of self.now) }
    {
        match self {
            Command::Link(named) => link::files(named),
            Command::LinkPlt(named) => link::files(named),
            Command::Merge(merge) => merge.files(),
            Command::Slim(slim) => slim.files(),
            Command::Upgrade(upgrade) => upgrade.files(),
            Command::Dump(dump) => dump.files(),
            Command::Lookup(lookup) => lookup.files(),
            Command::Verify(named) => verify::files(named),
            Command::Walk(walk) => walk.files(),
            Command::Backtrace(backtrace) => backtrace.files(),
            Command::Procwalk(procwalk) => procwalk.files(),
            Command::Procbacktrace(named) => named.files(),
            Command::Gen(object) => object.files(),
        }
    }

    /// Makes what is asked for of the items that were loaded, which are within the limits of loading.
    ///
    /// # Errors
    ///
    /// `Refusal::Input` shows what is refused, `Refusal::Limit` has the limit of functions or rows that is exceeded,
    /// and `Refusal::Memory` means that memory ran out. `Refusal::Read` is never returned. `Unmade::Unread` means that more of
    /// a core file has to be read, of which parts were.
    #[tactic(auto, using(crate::proofs::Unrefused::comes_unless_refused, crate::proofs::Unrefused::refused_is_final))]
    pub fn make<'m>(&self, alloc: Global, loaded: &'m [Loaded<'a>]) -> Result<Made<'m>, Unmade<'a>>
        requires asked { CanBeAsked (words_of self.now) }
        requires items { loaded_items loaded.now ≡ items_of (files_of_command (words_of self.now)) }
        requires within { command_limit (words_of self.now) (loaded_bytes loaded.now) ≡ None }
        ensures comes { MadeAs (Comes (words_of self.now) (loaded_bytes loaded.now)) result }
        ensures whole { AreReadWhole loaded.now → NeedsNoMore result }
    {
        match self {
            Command::Link(named) => or_refused(link::make(alloc, named, loaded)),
            Command::LinkPlt(named) => or_refused(link::make_with_plts(alloc, named, loaded)),
            Command::Merge(merge) => or_refused(merge.make(alloc, loaded)),
            Command::Slim(slim) => or_refused(slim.make(alloc, loaded)),
            Command::Upgrade(upgrade) => or_refused(upgrade.make(alloc, loaded)),
            Command::Dump(dump) => or_refused(dump.make(loaded)),
            Command::Lookup(lookup) => or_refused(lookup.make(alloc, loaded)),
            Command::Verify(named) => or_refused(verify::make(alloc, named, loaded)),
            Command::Walk(walk) => walk.make(alloc, loaded),
            Command::Backtrace(backtrace) => backtrace.make(alloc, loaded),
            Command::Procwalk(procwalk) => procwalk.make(alloc, loaded),
            Command::Procbacktrace(named) => procbacktrace::make(alloc, named, loaded),
            Command::Gen(object) => or_refused(object.make(alloc)),
        }
    }
}
