//! The files of `procbacktrace`: those that are used, with their tables, and those that are passed, since they can't be used.

ghost use Rattle.std.specs.Prelude.{◌≡◌, ◌<◌, ◌≤◌, ◌^◌, ◌++◌, ℕ, [], ◌∷◌, All, List, IfOk, IfErr, OnOk, IsTrue, false, length, map};
ghost use Rattle.std.specs.List.{zip};
ghost use Rattle.std.specs.String.{string_bytes};
ghost use Rattle.elf_read.specs.Header.{arch_of};
ghost use Rattle.elf_mapped.specs.Program.{all_bytes};
ghost use Rattle.sf_asm.specs.Fault.{is_answered};
ghost use Rattle.sf_modules.specs.Process.{is_process_of_parts, process_view};
ghost use Rattle.sf_modules.specs.Reading.{mapped_check};
ghost use Rattle.process_tables.specs.Modules.{MappedModule};
ghost use Rattle.process_tables.specs.Views.{IsTableOf};
ghost use Rattle.sf_words.specs.Items.{Mapped};
ghost use Rattle.sf_words.specs.Loading.{loaded_bytes, loaded_items};
ghost use Rattle.section_commands.specs.Coming.{Coming};
ghost use Rattle.section_commands.specs.Making.{ComesAs, NeedsNoMore, UnmadeAs};
ghost use Rattle.sf_run.specs.NamedFiles.{AreRead, IsNoFault, IsOver};
ghost use Rattle.sf_run.specs.Procbacktrace.{FileComes, FileOutcome, FilesCome, HasModule, IsUnusable, IsUsed, ProcbacktraceComesIn, coming_of_table};

use crate::linked::unlinked;
use elf_mapped::MappedBytes;
use module_tables::numbered;
use process_tables::{MappedTable, TableFault, mapped_table};
use section_commands::{Unmade, mixed, same_machine, unread_module};
use sf_asm::LinkFault;
use sf_model::{Arch, Notice};
use sf_modules::{Process, is_mapped_name};
use sf_text::PassedFile;
use sf_words::{Item, Loaded, Refusal};
use std::alloc::Global;

/// The files whose base names the process had.
#[derive(Drop)]
pub struct NamedFiles<'w, 'p> {
    /// The tables of those that are used.
    pub tables: Vec<MappedTable<'w, 'p>>,
    /// Those that can't be used.
    pub passed: Vec<PassedFile<'w>>,
}

/// Returns why the file of an item was not linked, as a refusal of the run.
fn unlinked_file<'a>(fault: LinkFault, item: u32) -> Refusal<'a>
    requires { IsTrue (is_answered fault) }
    ensures memory { (fault ≡ LinkFault.NoMemory) → (result ≡ Refusal.Memory) }
    ensures is { ComesAs (λ (coming : Coming). coming ≡ coming_of_table item fault) result }
{
    unlinked(&numbered(fault, item), Some(item))
}

/// Makes the table of the file of an item.
fn table_of<'w, 'p, 'a>(
    alloc: Global,
    process: &Process<'p>,
    item: u32,
    word: &'w str,
    bytes: MappedBytes<'_>,
) -> Result<MappedTable<'w, 'p>, Unmade<'a>>
    requires { length (all_bytes bytes) < 2 ^ 32 }
    ensures made { IfOk result (λ t. (m : MappedModule) × HasModule (process_view process.now) item (word.now, all_bytes bytes.entry) m × IsTableOf m t) }
    ensures refused { IfErr result (UnmadeAs (λ (coming : Coming). IsUnusable (process_view process.now) item (word.now, all_bytes bytes.entry) (mapped_check (process_view process.now) word.now (all_bytes bytes.entry)) coming)) }
    ensures whole { is_process_of_parts process.now ≡ false → NeedsNoMore result }
{
    match mapped_table(alloc, process, item, word, bytes) {
        Ok(made) => Ok(made),
        Err(TableFault::Module(fault)) => Err(unread_module(alloc, &fault, item)),
        Err(TableFault::Link(fault)) => Err(Unmade::Refused(unlinked_file(fault, item))),
    }
}

/// Makes the table of the file of an item, which has to be for this machine.
fn usable_table<'w, 'p, 'a>(
    alloc: Global,
    process: &Process<'p>,
    arch: Arch,
    item: u32,
    word: &'w str,
    bytes: MappedBytes<'_>,
) -> Result<MappedTable<'w, 'p>, Unmade<'a>>
    requires machine { arch ≡ arch_of ((process_view process.now).core) }
    requires small { length (all_bytes bytes) < 2 ^ 32 }
    ensures made { IfOk result (λ t. (m : MappedModule) × IsUsed (process_view process.now) item (word.now, all_bytes bytes.entry) m × IsTableOf m t) }
    ensures refused { IfErr result (UnmadeAs (λ (coming : Coming). IsUnusable (process_view process.now) item (word.now, all_bytes bytes.entry) (mapped_check (process_view process.now) word.now (all_bytes bytes.entry)) coming)) }
    ensures whole { is_process_of_parts process.now ≡ false → NeedsNoMore result }
{
    let made = table_of(alloc, process, item, word, bytes)?;
    if !same_machine(arch, made.mapped.machine) {
        return Err(Unmade::Refused(mixed(item)));
    }
    Ok(made)
}

/// Returns the fault for which a file is passed, or why the run makes nothing.
fn fault_of<'a>(refusal: Refusal<'a>) -> Result<Notice, Refusal<'a>>
    ensures fault { IfOk result (λ notice. refusal.entry ≡ Refusal.Input notice) }
    ensures other { IfErr result (λ left. (left ≡ refusal.entry) × IsNoFault left) }
{
    match refusal {
        Refusal::Input(notice) => Ok(notice),
        Refusal::Read(name) => Err(Refusal::Read(name)),
        Refusal::Memory => Err(Refusal::Memory),
        Refusal::Limit(limit) => Err(Refusal::Limit(limit)),
    }
}

/// Adds the table of the file of an item, or passes the file if it can't be used.
fn add_file<'w, 'p, 'a>(
    alloc: Global,
    process: &Process<'p>,
    arch: Arch,
    item: u32,
    word: &'w str,
    bytes: MappedBytes<'_>,
    files: &mut NamedFiles<'w, 'p>,
) -> Result<(), Unmade<'a>>
    requires machine { arch ≡ arch_of ((process_view process.now).core) }
    requires small { length (all_bytes bytes) < 2 ^ 32 }
    ensures added { OnOk result ((outcomes : List FileOutcome) → AreRead outcomes files.old.tables.items files.old.passed.items
        → (outcome : FileOutcome) × FileComes (process_view process.now) item (word.now, all_bytes bytes.entry) outcome × AreRead (outcomes ++ outcome ∷ []) files.new.tables.items files.new.passed.items) }
    ensures over { IfErr result (UnmadeAs (λ (coming : Coming). IsOver (process_view process.now) item (word.now, all_bytes bytes.entry) coming)) }
    ensures whole { is_process_of_parts process.now ≡ false → NeedsNoMore result }
{
    match usable_table(alloc, process, arch, item, word, bytes) {
        Ok(made) => files.tables.push(made)?,
        Err(Unmade::Refused(refusal)) => {
            let notice = fault_of(refusal)?;
            files.passed.push(PassedFile { name: word, notice })?;
        }
        Err(Unmade::Unread(addresses)) => return Err(Unmade::Unread(addresses)),
    }
    Ok(())
}

/// Makes the tables of the files whose base names the process had, in order, and passes those that can't be used. The core
/// file is item 0.
pub fn read_named_files<'w, 'p, 'a>(
    alloc: Global,
    process: &Process<'p>,
    arch: Arch,
    names: &[String],
    files: &[Loaded<'w>],
) -> Result<NamedFiles<'w, 'p>, Unmade<'a>>
    requires machine { arch ≡ arch_of ((process_view process.now).core) }
    requires items { loaded_items files.now ≡ map Mapped (map string_bytes names.now) }
    requires few { length files.now ≤ 512 }
    requires small { All (λ bytes. length bytes < 2 ^ 32) (loaded_bytes files.now) }
    ensures read { IfOk result (λ named. (outcomes : List FileOutcome) × FilesCome (process_view process.now) 1 (zip (map string_bytes names.now) (loaded_bytes files.now)) outcomes × AreRead outcomes named.tables.items named.passed.items) }
    ensures over { IfErr result (λ unmade. (depth : ℕ) → UnmadeAs (ProcbacktraceComesIn depth (zip (map string_bytes names.now) (loaded_bytes files.now)) (process_view process.now)) unmade) }
    ensures whole { is_process_of_parts process.now ≡ false → NeedsNoMore result }
{
    let mut named = NamedFiles {
        tables: Vec::new(alloc),
        passed: Vec::new(alloc),
    };
    let mut item = 0;
    for file in files {
        item += 1;
        let Item::Mapped(word) = file.item else {
            unreachable!();
        };
        if is_mapped_name(process, word.as_bytes()) {
            add_file(alloc, process, arch, item, word, file.mapped(), &mut named)?;
        }
    }
    Ok(named)
}
