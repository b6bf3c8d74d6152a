//! A core file that was read, whole or by parts.

ghost use Rattle.std.specs.Prelude.{◌≡◌, ◌≤◌, length, IfOk};
ghost use Rattle.core_notes.specs.Views.{threads_left};

use crate::input_memory::InputMemory;
use crate::loading::CoreRead;
use crate::partial_core::PartialCore;
use core_notes::{Core, CoreFault, CoreMemory, Thread, ThreadIter};
use sf_base::NoMemory;
use sf_bytes::Part;
use sf_model::Arch;
use std::alloc::{AllocError, Global};

/// A core file that passes every check, read whole or by parts.
#[derive(Clone, Copy)]
pub enum CoreInput<'a> {
    /// It was read whole.
    Whole(Core<'a>),
    /// Parts of it were read.
    Parts(&'a PartialCore),
}

// Returns the threads that an iterator has left.
fn listed(alloc: Global, threads: ThreadIter<'_>) -> Result<Vec<Thread>, NoMemory>
    ensures { IfOk result (λ list. list.items ≡ threads_left threads.entry) }
{
    Ok(threads.collect(alloc)?)
}

impl<'a> CoreInput<'a> {
    ghost use Rattle.std.specs.Prelude.{◌<◌, ◌^◌, false, true};
    ghost use Rattle.std.specs.Option.{option_map};
    ghost use Rattle.sf_bytes.specs.Cursor.{cursor};
    ghost use Rattle.elf_read.specs.Checking.{verdict};
    ghost use Rattle.elf_read.specs.Header.{arch_of};
    ghost use Rattle.core_notes.specs.Checks.{core_check, file_threads};
    ghost use Rattle.core_notes.specs.Listing.{notes_in, whole_notes};
    ghost use Rattle.core_notes.specs.Thread.{file_note_in};
    ghost use Rattle.core_parts.specs.Input.{input_file, is_by_parts, is_part, memory_file};
    ghost use Rattle.core_parts.specs.Loaded.{core_read_bytes, is_whole};

    /// Checks what was read of a core file, as [`Core::parse`] checks a whole file. What was read by parts was checked when it
    /// was read.
    ///
    /// # Errors
    ///
    /// The fault of the first check that fails.
    pub fn parse(read: &'a CoreRead) -> Result<CoreInput<'a>, CoreFault>
        requires { is_whole read.now ≡ true → length (core_read_bytes read.now) < 2 ^ 32 }
        ensures exact { verdict result ≡ core_check (core_read_bytes read.now) }
        ensures bytes { IfOk result (λ core. input_file core ≡ core_read_bytes read.now) }
        ensures whole { IfOk result (λ core. is_whole read.now ≡ true → is_by_parts core ≡ false) }
    {
        match read {
            CoreRead::Whole(bytes) => Ok(CoreInput::Whole(Core::parse(bytes)?)),
            CoreRead::Parts(core) => {
                core.is_checked();
                Ok(CoreInput::Parts(core))
            }
        }
    }

    /// Returns the machine that the file is for.
    pub fn arch(&self) -> Arch
        ensures { result ≡ arch_of (input_file self.now) }
    {
        match self {
            CoreInput::Whole(core) => core.arch(),
            CoreInput::Parts(core) => core.arch(),
        }
    }

    /// Returns the threads, in the order of their notes.
    ///
    /// `NoMemory` if out of memory.
    pub fn threads(&self, alloc: Global) -> Result<Vec<Thread>, NoMemory>
        ensures are { IfOk result (λ threads. threads.items ≡ file_threads (input_file self.now)) }
        ensures few { IfOk result (λ threads. length threads.items ≤ 4096) }
    {
        match self {
            CoreInput::Whole(core) => {
                let count = core.threads();
                listed(alloc, core.threads_iter())
            }
            CoreInput::Parts(core) => Ok(Vec::from_slice(alloc, core.threads())?),
        }
    }

    /// Returns the descriptor of the first note that lists the mapped files, if there is one.
    pub fn file_note(&self) -> Option<Part<'a>>
        ensures { option_map cursor result ≡ file_note_in (whole_notes (notes_in (input_file self.now))) }
    {
        match self {
            CoreInput::Whole(core) => core.file_note(),
            CoreInput::Parts(core) => core.file_note(),
        }
    }

    /// Returns the memory, as far as it was read, put in order for many reads.
    ///
    /// `AllocError` if out of memory.
    pub fn memory(&self, alloc: Global) -> Result<InputMemory<'a>, AllocError>
        ensures file { IfOk result (λ memory. memory_file memory ≡ input_file self.now) }
        ensures part { IfOk result (λ memory. is_part memory ≡ is_by_parts self.now) }
    {
        match self {
            CoreInput::Whole(core) => Ok(InputMemory::Whole(CoreMemory::new(alloc, core)?)),
            CoreInput::Parts(core) => Ok(InputMemory::Parts(core.memory(alloc)?)),
        }
    }
}
