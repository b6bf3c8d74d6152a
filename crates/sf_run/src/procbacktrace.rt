//! `procbacktrace CORE DEPTH FILE ..`: the walks of a core file's threads by the call frame information of the files that were
//! mapped. Its words and its files are those of `procwalk`.

ghost use Rattle.std.specs.Prelude.{◌≡◌, ◌<◌, ◌≤◌, ◌^◌, ℕ, All, List, None, false, true, length, map};
ghost use Rattle.std.specs.List.{zip};
ghost use Rattle.std.specs.String.{string_bytes};
ghost use Rattle.core_notes.specs.Checks.{core_check};
ghost use Rattle.core_parts.specs.Input.{input_file, is_by_parts};
ghost use Rattle.core_parts.specs.Loaded.{core_read_bytes, is_whole};
ghost use Rattle.sf_modules.specs.Entry.{mapping_view};
ghost use Rattle.sf_modules.specs.Process.{process_of};
ghost use Rattle.sf_text.specs.Passed.{passed_view};
ghost use Rattle.sf_words.specs.Files.{items_of};
ghost use Rattle.sf_words.specs.Items.{Mapped};
ghost use Rattle.sf_words.specs.Loading.{AreReadWhole, files_limit, loaded_bytes, loaded_items};
ghost use Rattle.section_commands.specs.Coming.{Coming};
ghost use Rattle.section_commands.specs.Making.{IsFinal, MadeAs, NeedsNoMore, UnmadeAs};
ghost use Rattle.section_commands.specs.Process.{ProcessComes};
ghost use Rattle.section_commands.specs.Procwalk.{procwalk_files, procwalk_of};
ghost use Rattle.sf_run.specs.NamedFiles.{AreRead, HaveLines};
ghost use Rattle.sf_run.specs.Procbacktrace.{FileOutcome, ProcbacktraceComes, ProcbacktraceComesIn, coming_of_files, coming_of_none};

use crate::named_files::{NamedFiles, read_named_files};
use core_parts::{CoreInput, CoreRead};
use process_tables::{MappedTable, MappedWalks, sections_of, walks_text};
use section_commands::{Made, Outcome, Procwalk, Unmade, sums_limit, unread_core, unread_module};
use sf_modules::{Entry, ModuleFault, Process, entries};
use sf_text::{Output, PassedFile, passed_lines};
use sf_words::{Loaded, Refusal};
use std::alloc::Global;

/// Returns why no file is used: the fault of the first one that is passed, or that none was mapped.
fn none_used<'a>(alloc: Global, passed: Vec<PassedFile<'_>>) -> Unmade<'a>
    requires { HaveLines passed.items }
    ensures is { UnmadeAs (λ (coming : Coming). coming ≡ coming_of_none (map passed_view passed.entry.items)) result }
    ensures last { IsFinal result }
{
    let mut passed = passed.into_iter();
    match passed.next() {
        Some(first) => Unmade::Refused(Refusal::Input(first.notice)),
        None => unread_module(alloc, &ModuleFault::NotMapped, 1),
    }
}

/// Returns the walks of a core file's threads through the files of tables, if there is a table and all are within the limits.
/// The files that are passed are noted.
fn walked<'a, 'm>(
    alloc: Global,
    core: &CoreInput<'_>,
    depth: u32,
    entries: &[Entry<'_>],
    tables: &[MappedTable<'_, '_>],
    passed: Vec<PassedFile<'_>>,
) -> Result<Made<'m>, Unmade<'a>>
    requires few { length tables.now ≤ 512 }
    requires read { (outcomes : List FileOutcome) × AreRead outcomes tables.now passed.items }
    ensures whole { is_by_parts core.now ≡ false → NeedsNoMore result }
    ensures comes { (page : ℕ) (outcomes : List FileOutcome) → AreRead outcomes tables.now passed.entry.items → MadeAs (λ (coming : Coming). coming ≡ coming_of_files (process_of (input_file core.now) page (map mapping_view entries.now)) depth outcomes) result }
{
    if tables.is_empty() {
        return Err(none_used(alloc, passed));
    }
    let sections = sections_of(alloc, tables)?;
    if let Some(limit) = sums_limit(&sections) {
        return Err(Unmade::Refused(Refusal::Limit(limit)));
    }
    let walks = walks_text(alloc, entries, tables, &sections, core, depth)?;
    let notes = passed_lines(alloc, &passed)?;
    match walks {
        MappedWalks::Text(text) => Ok(Made {
            outcome: Outcome::Done,
            section: None,
            output: Output::Noted { text, notes },
        }),
        MappedWalks::Unread(addresses) => Err(Unmade::Unread(addresses)),
    }
}

/// Returns the walks of the threads of a process through the files that it had mapped.
fn process_walked<'a, 'm>(
    alloc: Global,
    core: &CoreInput<'_>,
    depth: u32,
    page: u64,
    entries: &[Entry<'_>],
    names: &[String],
    files: &[Loaded<'_>],
) -> Result<Made<'m>, Unmade<'a>>
    requires page { 0 < page }
    requires items { loaded_items files.now ≡ map Mapped (map string_bytes names.now) }
    requires few { length files.now ≤ 512 }
    requires small { All (λ bytes. length bytes < 2 ^ 32) (loaded_bytes files.now) }
    ensures comes { MadeAs (ProcbacktraceComesIn depth (zip (map string_bytes names.now) (loaded_bytes files.now)) (process_of (input_file core.now) page (map mapping_view entries.now))) result }
    ensures whole { is_by_parts core.now ≡ false → NeedsNoMore result }
{
    let process = Process::new(alloc, core, page, entries)?;
    let NamedFiles { tables, passed } = read_named_files(
        alloc,
        &process,
        core.arch(),
        names,
        files,
    )?;
    walked(alloc, core, depth, entries, &tables, passed)
}

/// Returns the walks of a core file's threads through the files that the process had mapped.
fn core_walked<'a, 'm>(
    alloc: Global,
    core: &CoreRead,
    depth: u32,
    names: &[String],
    files: &[Loaded<'_>],
) -> Result<Made<'m>, Unmade<'a>>
    requires items { loaded_items files.now ≡ map Mapped (map string_bytes names.now) }
    requires few { length files.now ≤ 512 }
    requires short { is_whole core.now ≡ true → length (core_read_bytes core.now) < 2 ^ 32 }
    requires small { All (λ bytes. length bytes < 2 ^ 32) (loaded_bytes files.now) }
    ensures comes { MadeAs (ProcessComes (core_read_bytes core.now) (ProcbacktraceComesIn depth (zip (map string_bytes names.now) (loaded_bytes files.now))) (core_check (core_read_bytes core.now))) result }
    ensures whole { is_whole core.now ≡ true → NeedsNoMore result }
{
    let core = match CoreInput::parse(core) {
        Ok(core) => core,
        Err(fault) => return Err(Unmade::Refused(unread_core(&fault, 0))),
    };
    let (page, entries) = match entries(alloc, &core) {
        Ok(note) => note,
        Err(fault) => return Err(unread_module(alloc, &fault, 0)),
    };
    process_walked(alloc, &core, depth, page, &entries, names, files)
}

/// Returns the walks of the core file's threads through the files that the process had mapped.
///
/// # Errors
///
/// The first fault of the core file or of its note on mapped files, as a refusal. The first limit that a file which the process
/// had mapped exceeds, or else all files together. If no file can be used, the fault of the first one that the process had
/// mapped, or `NotMapped` of the first one of all. `Unmade::Unread` if more of the core file has to be read. Memory may run out
/// at any time.
pub fn make<'a, 'm>(
    alloc: Global,
    named: &Procwalk<'a>,
    loaded: &'m [Loaded<'a>],
) -> Result<Made<'m>, Unmade<'a>>
    requires items { loaded_items loaded.now ≡ items_of (procwalk_files (procwalk_of named.now)) }
    requires within { files_limit (procwalk_files (procwalk_of named.now)) (loaded_bytes loaded.now) ≡ None }
    ensures comes { MadeAs (ProcbacktraceComes (procwalk_of named.now) (loaded_bytes loaded.now)) result }
    ensures whole { AreReadWhole loaded.now → NeedsNoMore result }
{
    match loaded {
        [core, files @ ..] => core_walked(alloc, core.core(), named.depth, named.files, files),
        _ => unreachable!(),
    }
}
