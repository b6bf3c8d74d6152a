//! The table of a file that a process had mapped.

ghost use Rattle.std.specs.Prelude.{◌≡◌, ◌<◌, ◌^◌, ℕ, true, Ok, IfOk, IfErr, IsErrOf, length};
ghost use Rattle.elf_mapped.specs.Program.{all_bytes};
ghost use Rattle.sf_asm.specs.Functions.{bytes_of, form_of};
ghost use Rattle.sf_model.specs.declared.form.Form.TheVariants.{Elf};
ghost use Rattle.sf_modules.specs.declared.fault.ModuleFault.TheVariants.{Unread};
ghost use Rattle.sf_modules.specs.Process.{is_process_of_parts, process_view};
ghost use Rattle.sf_modules.specs.Reading.{mapped_check};
ghost use Rattle.process_tables.specs.Modules.{IsMappedModule, MappedModule};
ghost use Rattle.process_tables.specs.Views.{IsTableFault, IsTableOf};

use elf_mapped::MappedBytes;
use module_tables::{ModuleTable, module_table};
use sf_asm::{InputBytes, LinkFault};
use sf_modules::{MappedFile, ModuleFault, Process, mapped_file};
use std::alloc::Global;

/// A file that the process had mapped, with its table.
#[derive(Drop)]
pub struct MappedTable<'w, 'p> {
    /// The number that is given for the file.
    pub item: u32,
    /// The word that is given for the file.
    pub word: &'w str,
    /// Where the process had it.
    pub mapped: MappedFile<'p>,
    /// Its section for the address at which its first loaded segment was, and its signal frames.
    pub table: ModuleTable,
}

/// Why a file has no table.
#[derive(Drop)]
pub enum TableFault {
    /// Where the process had it isn't found.
    Module(ModuleFault),
    /// It can't be linked.
    Link(LinkFault),
}

// Returns a file as an input to link.
fn input_bytes(bytes: MappedBytes<'_>) -> InputBytes<'_>
    ensures form { form_of result ≡ Elf }
    ensures bytes { bytes_of result ≡ all_bytes bytes.entry }
{
    match bytes {
        MappedBytes::Whole(bytes) => InputBytes::File(bytes),
        MappedBytes::Parts(elf) => InputBytes::Linked(&elf.linked),
    }
}

/// Makes the table of the file for which this number and this word are given, at the address at which the process had it.
///
/// # Errors
///
/// `Module` with a fault of [`mapped_file`], or `Link` with one of [`module_table`].
pub fn mapped_table<'w, 'p>(
    alloc: Global,
    process: &Process<'p>,
    item: u32,
    word: &'w str,
    bytes: MappedBytes<'_>,
) -> Result<MappedTable<'w, 'p>, TableFault>
    requires { length (all_bytes bytes) < 2 ^ 32 }
    // The file was found, and the table is that of its module.
    ensures found { IfOk result (λ _. mapped_check (process_view process.now) word.now (all_bytes bytes.entry) ≡ Ok tt) }
    ensures table { IfOk result (λ t. (m : MappedModule) × IsMappedModule (process_view process.now) item word.now (all_bytes bytes.entry) m × IsTableOf m t) }
    // A fault is the first one, unless a part of the core file wasn't read.
    ensures fault { IfErr result (IsTableFault (process_view process.now) word.now (all_bytes bytes.entry)) }
    // That is so only where the core file was read by parts.
    ensures unread { (address : ℕ) → IsErrOf result (TableFault.Module (ModuleFault.Unread address)) → is_process_of_parts process.now ≡ true }
{
    let mapped = match mapped_file(process, word.as_bytes(), bytes) {
        Ok(mapped) => mapped,
        Err(fault) => return Err(TableFault::Module(fault)),
    };
    match module_table(alloc, input_bytes(bytes), mapped.base, mapped.entry.start) {
        Ok(table) => Ok(MappedTable {
            item,
            word,
            mapped,
            table,
        }),
        Err(fault) => Err(TableFault::Link(fault)),
    }
}
