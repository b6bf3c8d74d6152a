//! A file that a process had mapped, with its SFrame section.

ghost use Rattle.std.specs.Prelude.{◌≡◌, ◌<◌, ◌^◌, ℕ, true, Some, IfOk, IsErrOf, length};
ghost use Rattle.elf_read.specs.Sections.{section_fields};
ghost use Rattle.elf_mapped.specs.Program.{all_bytes, program_bytes};
ghost use Rattle.elf_mapped.specs.Sframe.{sframe_section};
ghost use Rattle.sf_modules.specs.declared.fault.ModuleFault.TheVariants.{NoMemory, Unread};
ghost use Rattle.sf_modules.specs.Fault.{FollowsCheck};
ghost use Rattle.sf_modules.specs.Fit.{process_address};
ghost use Rattle.sf_modules.specs.Module.{IsModule, module_view};
ghost use Rattle.sf_modules.specs.Process.{is_process_of_parts, process_view};
ghost use Rattle.sf_modules.specs.Reading.{module_check};

use crate::fault::ModuleFault;
use crate::file::{check_kind, section_of};
use crate::place::place_of;
use crate::process::Process;
use elf_mapped::{MappedBytes, ProgramFile};
use sf_decode::View;
use sf_model::Arch;

/// A module of a process: an executable or a shared object, with its SFrame section at the address at which it was
/// mapped.
#[derive(Clone, Copy)]
pub struct Module<'c, 'a> {
    /// The pathname by which the process had the file, which the core file lends.
    pub name: &'c [u8],
    /// For which machine the file is.
    pub machine: Arch,
    /// The section, which lends the file's bytes.
    pub view: View<'a>,
}

// Returns the address at which a section was.
fn address_of(base: u64, elf: &ProgramFile<'_>, section: u32) -> u64
    requires { sframe_section (program_bytes elf.now) ≡ Some section }
    ensures { result ≡ process_address base (section_fields (program_bytes elf.now) section).sh_addr }
{
    base.wrapping_add(elf.sframe_address(section))
}

/// Reads the module of a file for which this word is given. Among the process's entries whose names have most parts in
/// common with the word, from the last part on, the first at which the file fits shows where its first loaded segment was,
/// and so where its SFrame section was. The section is the first of the name `.sframe` that is loaded and is in the file.
///
/// # Errors
///
/// The first of these: `Elf` if the ELF file is refused, or is no executable or shared object; `NoSection`; `Elf` if the
/// section is compressed; `Segments` if the program headers don't have the format's length, don't lie in the file or are of
/// no loaded segment; `Elf` if the file has no room for its PT_NOTE segments together; `NotMapped` if no entry's name has
/// the word's last part; `Mapping` if the file doesn't fit at any of the nearest; `Ambiguous` if it fits at two of different
/// names; `Build` if the core file has another build identifier, or `Unread` if the part of it that shows this was not read;
/// `Section` if the section is refused.
#[tactic(auto, unfolding(crate::specs::Reading::module_check))]
pub fn read_module<'p, 'a>(
    process: &Process<'p>,
    word: &[u8],
    bytes: MappedBytes<'a>,
) -> Result<Module<'p, 'a>, ModuleFault>
    requires { length (all_bytes bytes) < 2 ^ 32 }
    // What was read is the module of the file.
    ensures sound { IfOk result (λ m. IsModule (process_view process.now) word.now (all_bytes bytes.entry) (module_view m)) }
    // It is read exactly where no check fails; else the fault is that of the first that does, unless a part wasn't read.
    ensures exact { FollowsCheck (module_check (process_view process.now) word.now (all_bytes bytes.entry)) result }
    ensures unread { (address : ℕ) → IsErrOf result (ModuleFault.Unread address) → is_process_of_parts process.now ≡ true }
    ensures memory { IsErrOf result ModuleFault.NoMemory → ⊥ }
{
    let elf = ProgramFile::parse(bytes)?;
    check_kind(&elf)?;
    let section = section_of(&elf)?;
    let mapped = place_of(process, word, &elf)?;
    let view = View::parse(
        elf.sframe_bytes(section),
        address_of(mapped.base, &elf, section),
    )?;
    Ok(Module {
        name: mapped.entry.name,
        machine: mapped.machine,
        view,
    })
}
