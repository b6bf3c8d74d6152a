//! Files that are given more than once: each is looked for once.

ghost use Rattle.std.specs.Prelude.{◌≡◌, ◌<◌, ◌^◌, ◌&&◌, ℕ, true, bytes_eq, IfOk, IsErrOf, IsTrue, length};
ghost use Rattle.elf_mapped.specs.Program.{all_bytes};
ghost use Rattle.sf_modules.specs.declared.fault.ModuleFault.TheVariants.{NoMemory, Unread};
ghost use Rattle.sf_modules.specs.Fault.{FollowsCheck};
ghost use Rattle.sf_modules.specs.Module.{IsModule, module_view};
ghost use Rattle.sf_modules.specs.Process.{is_process_of_parts, process_view};
ghost use Rattle.sf_modules.specs.ReadFile.{AreRead};
ghost use Rattle.sf_modules.specs.Reading.{module_check};

use crate::fault::ModuleFault;
use crate::mapped::{Module, read_module};
use crate::process::Process;
use elf_mapped::MappedBytes;

/// A file that was read, with its module.
#[derive(Clone, Copy)]
pub struct ReadFile<'w, 'p, 'a> {
    /// The word that was given for the file.
    pub word: &'w [u8],
    /// What was read of the file.
    pub bytes: MappedBytes<'a>,
    /// Its module.
    pub module: Module<'p, 'a>,
}

// Returns whether this word and these bytes are those of a file that was read. Nothing is said of a file that was read by
// parts.
fn is_same(file: &ReadFile<'_, '_, '_>, word: &[u8], bytes: MappedBytes<'_>) -> bool
    ensures { IsTrue result → (bytes_eq file.now.word.now word.now && bytes_eq (all_bytes file.now.bytes) (all_bytes bytes.entry)) ≡ true }
{
    match (file.bytes, bytes) {
        (MappedBytes::Whole(read), MappedBytes::Whole(bytes)) => file.word == word && read == bytes,
        _ => false,
    }
}

/// Reads the module of a file as [`read_module`] does. Where one of `files`, which were read before, has this word and all
/// these bytes, the module is that one's. A file that was read by parts is read again.
///
/// # Errors
///
/// As of [`read_module`].
pub fn read_module_once<'p, 'a>(
    process: &Process<'p>,
    files: &[ReadFile<'_, 'p, 'a>],
    word: &[u8],
    bytes: MappedBytes<'a>,
) -> Result<Module<'p, 'a>, ModuleFault>
    requires small { length (all_bytes bytes) < 2 ^ 32 }
    requires before { AreRead (process_view process.now) files.now }
    // What was read is the module of the file.
    ensures sound { IfOk result (λ m. IsModule (process_view process.now) word.now (all_bytes bytes.entry) (module_view m)) }
    // It is read exactly where no check fails; else the fault is that of the first that does, unless a part wasn't read.
    ensures exact { FollowsCheck (module_check (process_view process.now) word.now (all_bytes bytes.entry)) result }
    ensures unread { (address : ℕ) → IsErrOf result (ModuleFault.Unread address) → is_process_of_parts process.now ≡ true }
    ensures memory { IsErrOf result ModuleFault.NoMemory → ⊥ }
{
    for file in files {
        if is_same(file, word, bytes) {
            return Ok(file.module);
        }
    }
    read_module(process, word, bytes)
}
