//! `procwalk CORE DEPTH FILE ..`: the walks of a core file's threads by the sections of the files that were mapped.

ghost use Rattle.std.specs.Prelude.{◌≡◌, ◌<◌, ◌≤◌, ◌^◌, ℕ, All, List, None, IfOk, IfErr, IfSome, IsSomeAnd, false, true, length, map};
ghost use Rattle.std.specs.List.{AllZip, position, zip};
ghost use Rattle.std.specs.String.{string_bytes};
ghost use Rattle.elf_read.specs.Header.{arch_of};
ghost use Rattle.core_notes.specs.Checks.{core_check};
ghost use Rattle.core_parts.specs.Input.{input_file, is_by_parts};
ghost use Rattle.core_parts.specs.Loaded.{core_read_bytes, is_whole};
ghost use Rattle.sf_modules.specs.Entry.{mapping_view};
ghost use Rattle.sf_modules.specs.Module.{module_view};
ghost use Rattle.sf_modules.specs.Fault.{module_refusal};
ghost use Rattle.sf_modules.specs.Process.{is_process_of_parts, process_of, process_view};
ghost use Rattle.sf_modules.specs.Union.{tables_of};
ghost use Rattle.sf_words.specs.Files.{files_of, items_of};
ghost use Rattle.sf_words.specs.Items.{Mapped};
ghost use Rattle.sf_words.specs.Loading.{AreReadWhole, files_limit, loaded_bytes, loaded_items};
ghost use Rattle.section_commands.specs.Coming.{Coming};
ghost use Rattle.section_commands.specs.Making.{IsFinal, IsUnfinished, MadeAs, NeedsNoMore, UnmadeAs};
ghost use Rattle.section_commands.specs.Procwalk as spec;
ghost use Rattle.section_commands.specs.Process.{IsFinalFault, ProcessComes, coming_of_module};
ghost use Rattle.section_commands.specs.Procwalk.{FilesCome, IsModuleOf, NameProcess, ProcwalkComes, ProcwalkComesIn, ProcwalkWords, coming_of_modules, files_fault, modules_walks, procwalk_files, procwalk_of};

use crate::limits::exceeded_limit;
use crate::made::{Made, Outcome, Unmade};
use crate::walks::{mixed, same_machine, unread_core, walks_text};
use core_parts::{CoreInput, CoreRead};
use sf_decode::DecodeFault;
use sf_model::Arch;
use sf_modules::{
    Entry, Module, ModuleFault, Modules, Process, ReadFile, entries, read_module_once,
};
use sf_text::Output;
use sf_words::{
    CommandFiles, FileList, Item, Limit, Loaded, MOST_FRAMES, Refusal, are_named, number_up_to,
    three_and_items,
};
use std::alloc::Global;

/// The words of `procwalk CORE DEPTH FILE ..`, or of a command of the same form.
#[derive(Clone, Copy)]
pub struct Procwalk<'a> {
    /// The name of the core file.
    pub core: &'a str,
    /// The most frames of a thread.
    pub depth: u32,
    /// The names of the files that were mapped.
    pub files: &'a [String],
}

/// Returns that the part of a core file's memory with an address has to be read.
fn unread<'a>(alloc: Global, address: u64) -> Unmade<'a>
    ensures { IsUnfinished true result }
{
    let mut addresses = Vec::new(alloc);
    match addresses.push(address) {
        Ok(()) => Unmade::Unread(addresses),
        Err(_) => Unmade::Refused(Refusal::Memory),
    }
}

/// Returns why the mapped files or the module of an item were not read, as a refusal of the run or as what has to be read.
pub fn unread_module<'a>(alloc: Global, fault: &ModuleFault, item: u32) -> Unmade<'a>
    ensures unfinished { module_refusal fault.now ≡ None → IsUnfinished true result }
    ensures is { UnmadeAs (λ (coming : Coming). coming ≡ coming_of_module item fault.now) result }
    ensures last { IsFinalFault fault.now → IsFinal result }
{
    match fault {
        ModuleFault::NoMemory => Unmade::Refused(Refusal::Memory),
        ModuleFault::Unread(address) => unread(alloc, *address),
        ModuleFault::Section(DecodeFault::TooManyFunctions(_)) => {
            Unmade::Refused(Refusal::Limit(Limit::Functions))
        }
        ModuleFault::Section(DecodeFault::TooManyRows(_)) => Unmade::Refused(Refusal::Limit(
            Limit::Rows,
        )),
        _ => Unmade::Refused(Refusal::Input(fault.notice(Some(item)))),
    }
}

/// Returns the modules of these files, in order. The core file is item 0.
fn modules_of<'a, 'p, 'm>(
    alloc: Global,
    process: &Process<'p>,
    names: &[String],
    files: &'m [Loaded<'_>],
) -> Result<Vec<Module<'p, 'm>>, Unmade<'a>>
    requires items { loaded_items files.now ≡ map Mapped (map string_bytes names.now) }
    requires few { length files.now ≤ 512 }
    requires small { All (λ bytes. length bytes < 2 ^ 32) (loaded_bytes files.now) }
    ensures count { IfOk result (λ modules. length modules.items ≡ length files.now) }
    ensures checked { IfOk result (λ _. files_fault (process_view process.now) (zip (map string_bytes names.now) (loaded_bytes files.now)) ≡ None) }
    ensures are { IfOk result (λ modules. AllZip (IsModuleOf (process_view process.now)) (zip (map string_bytes names.now) (loaded_bytes files.now)) (map module_view modules.items)) }
    ensures refused { IfErr result (λ refused. (depth : ℕ) → UnmadeAs (FilesCome (process_view process.now) depth (zip (map string_bytes names.now) (loaded_bytes files.now)) (files_fault (process_view process.now) (zip (map string_bytes names.now) (loaded_bytes files.now)))) refused) }
    ensures whole { is_process_of_parts process.now ≡ false → NeedsNoMore result }
{
    let mut modules: Vec<Module<'p, 'm>> = Vec::new(alloc);
    let mut read: Vec<ReadFile<'_, 'p, 'm>> = Vec::new(alloc);
    for file in files {
        let Item::Mapped(name) = file.item else {
            unreachable!();
        };
        let item = modules.len() as u32 + 1;
        let word = name.as_bytes();
        let bytes = file.mapped();
        match read_module_once(process, &read, word, bytes) {
            Ok(module) => {
                modules.push(module)?;
                read.push(ReadFile {
                    word,
                    bytes,
                    module,
                })?;
            }
            Err(fault) => return Err(unread_module(alloc, &fault, item)),
        }
    }
    Ok(modules)
}

/// Returns the modules of these files by a core file and the entries of its note on mapped files, which are sorted
/// for this alone.
fn mapped_modules<'a, 'p, 'm>(
    alloc: Global,
    core: &CoreInput<'p>,
    page: u64,
    entries: &'p [Entry<'p>],
    names: &[String],
    files: &'m [Loaded<'_>],
) -> Result<Vec<Module<'p, 'm>>, Unmade<'a>>
    requires page { 0 < page }
    requires items { loaded_items files.now ≡ map Mapped (map string_bytes names.now) }
    requires few { length files.now ≤ 512 }
    requires small { All (λ bytes. length bytes < 2 ^ 32) (loaded_bytes files.now) }
    ensures count { IfOk result (λ modules. length modules.items ≡ length files.now) }
    ensures checked { IfOk result (λ _. files_fault (process_of (input_file core.now) page (map mapping_view entries.now)) (zip (map string_bytes names.now) (loaded_bytes files.now)) ≡ None) }
    ensures are { IfOk result (λ modules. AllZip (IsModuleOf (process_of (input_file core.now) page (map mapping_view entries.now))) (zip (map string_bytes names.now) (loaded_bytes files.now)) (map module_view modules.items)) }
    ensures refused { IfErr result (λ refused. (depth : ℕ) → UnmadeAs (FilesCome (process_of (input_file core.now) page (map mapping_view entries.now)) depth (zip (map string_bytes names.now) (loaded_bytes files.now)) (files_fault (process_of (input_file core.now) page (map mapping_view entries.now)) (zip (map string_bytes names.now) (loaded_bytes files.now)))) refused) }
    ensures whole { is_by_parts core.now ≡ false → NeedsNoMore result }
{
    let process = Process::new(alloc, core, page, entries)?;
    modules_of(alloc, &process, names, files)
}

/// Returns whether a module's file or its section is for another machine.
fn is_other(arch: Arch, mapped: &Module<'_, '_>) -> bool
    ensures { result ≡ spec.is_for_another arch (module_view mapped.now) }
{
    !(same_machine(arch, mapped.machine) && same_machine(arch, mapped.view.arch()))
}

/// Returns the place of the first module whose file or section is for another machine.
fn first_other(arch: Arch, modules: &[Module<'_, '_>]) -> Option<usize>
    ensures { result ≡ position (λ m. spec.is_for_another arch (module_view m)) modules.now }
{
    modules.iter().position(|mapped| is_other(arch, mapped))
}

/// Returns the item of the first module whose file or section is for another machine. The core file is item 0.
fn mixed_item(arch: Arch, modules: &[Module<'_, '_>]) -> Option<u32>
    requires { length modules.now ≤ 512 }
    ensures { result ≡ spec.mixed_item arch (map module_view modules.now) }
{
    let place = first_other(arch, modules)?;
    Some(place as u32 + 1)
}

/// Returns the limit that the sections of all modules exceed together.
pub fn sums_limit(modules: &[Module<'_, '_>]) -> Option<Limit>
    requires { length modules.now ≤ 512 }
    ensures { result ≡ spec.sums_limit (tables_of (map module_view modules.now)) }
{
    let mut functions = 0;
    let mut rows = 0;
    for mapped in modules {
        functions += mapped.view.len() as usize;
        rows += mapped.view.row_count() as usize;
    }
    exceeded_limit(functions, rows)
}

/// Returns the walks of a core file's threads by modules, if they are for its machine and within the limits.
fn walked<'a, 'm>(
    alloc: Global,
    core: &CoreInput<'_>,
    depth: u32,
    entries: &[Entry<'_>],
    modules: &[Module<'_, '_>],
) -> Result<Made<'m>, Unmade<'a>>
    requires few { length modules.now ≤ 512 }
    ensures whole { is_by_parts core.now ≡ false → NeedsNoMore result }
    ensures comes { MadeAs (λ (coming : Coming). coming ≡ coming_of_modules (spec.mixed_item (arch_of (input_file core.now)) (map module_view modules.now)) (spec.sums_limit (tables_of (map module_view modules.now))) (modules_walks (map mapping_view entries.now) (map module_view modules.now) (input_file core.now) depth)) result }
{
    if let Some(item) = mixed_item(core.arch(), modules) {
        return Err(Unmade::Refused(mixed(item)));
    }
    if let Some(limit) = sums_limit(modules) {
        return Err(Unmade::Refused(Refusal::Limit(limit)));
    }
    let modules = Modules::new(alloc, entries, modules)?;
    let text = walks_text(alloc, &modules, core, depth)?;
    Ok(Made {
        outcome: Outcome::Done,
        section: None,
        output: Output::Text(text),
    })
}

/// Returns the walks of a core file's threads by the modules of these files.
fn procwalk_made<'a, 'm>(
    alloc: Global,
    core: &CoreRead,
    depth: u32,
    names: &[String],
    files: &[Loaded<'_>],
) -> Result<Made<'m>, Unmade<'a>>
    requires items { loaded_items files.now ≡ map Mapped (map string_bytes names.now) }
    requires few { length files.now ≤ 512 }
    requires short { is_whole core.now ≡ true → length (core_read_bytes core.now) < 2 ^ 32 }
    requires small { All (λ bytes. length bytes < 2 ^ 32) (loaded_bytes files.now) }
    ensures comes { MadeAs (ProcessComes (core_read_bytes core.now) (ProcwalkComesIn depth (zip (map string_bytes names.now) (loaded_bytes files.now))) (core_check (core_read_bytes core.now))) result }
    ensures whole { is_whole core.now ≡ true → NeedsNoMore result }
{
    let core = match CoreInput::parse(core) {
        Ok(core) => core,
        Err(fault) => return Err(Unmade::Refused(unread_core(&fault, 0))),
    };
    let (page, entries) = match entries(alloc, &core) {
        Ok(note) => note,
        Err(fault) => return Err(unread_module(alloc, &fault, 0)),
    };
    let modules = mapped_modules(alloc, &core, page, &entries, names, files)?;
    walked(alloc, &core, depth, &entries, &modules)
}

impl<'a> Procwalk<'a> {
    /// Returns what the words ask for, if they have this form, with the command of this name.
    pub fn read(words: &'a [String], name: &str) -> Option<Procwalk<'a>>
        ensures found { IfSome result (λ procwalk. NameProcess name.now (map string_bytes words.now) (procwalk_of procwalk)) }
        ensures only { (procwalk : ProcwalkWords) → NameProcess name.now (map string_bytes words.now) procwalk → IsSomeAnd result (λ found. procwalk_of found ≡ procwalk) }
    {
        let (command, core, depth, files) = three_and_items(words)?;
        if command != name || core.is_empty() {
            return None;
        }
        let depth = number_up_to(depth, MOST_FRAMES)?;
        if !are_named(files) {
            return None;
        }
        Some(Procwalk { core, depth, files })
    }

    /// Returns the files of the command.
    pub fn files(&self) -> CommandFiles<'a>
        ensures { files_of result ≡ procwalk_files (procwalk_of self.now) }
    {
        CommandFiles {
            out: None,
            first: Some(Item::Core(self.core)),
            second: None,
            list: FileList::Mapped(self.files),
        }
    }

    /// Returns the walks of the core file's threads by the modules of the mapped files.
    ///
    /// # Errors
    ///
    /// `Refusal::Input` shows what is refused, `Refusal::Limit` has the limit that is exceeded, and `Refusal::Memory` means
    /// that memory ran out. `Unmade::Unread` means that more of the core file has to be read.
    pub fn make<'m>(&self, alloc: Global, loaded: &'m [Loaded<'a>]) -> Result<Made<'m>, Unmade<'a>>
        requires items { loaded_items loaded.now ≡ items_of (procwalk_files (procwalk_of self.now)) }
        requires within { files_limit (procwalk_files (procwalk_of self.now)) (loaded_bytes loaded.now) ≡ None }
        ensures comes { MadeAs (ProcwalkComes (procwalk_of self.now) (loaded_bytes loaded.now)) result }
        ensures whole { AreReadWhole loaded.now → NeedsNoMore result }
    {
        match loaded {
            [core, files @ ..] => {
                procwalk_made(alloc, core.core(), self.depth, self.files, files)
            }
            _ => unreachable!(),
        }
    }
}
