//! A process as its core file shows it.

ghost use Rattle.std.specs.Prelude.{◌<◌, map};
ghost use Rattle.sf_modules.specs.Entry.{mapping_view};
ghost use Rattle.sf_modules.specs.LastParts.{AreByPart};
ghost use Rattle.sf_modules.specs.Stretches.{AreStretchesOf};

use crate::candidates::Candidates;
use crate::entry::Entry;
use crate::last_parts::{LastParts, last_parts_of};
use crate::name::last_part;
use crate::stretches::Stretches;
use core_parts::{CoreInput, InputMap};
use sf_base::NoMemory;
use std::alloc::Global;

/// A process: its core file, as far as it was read, put in order, and the content of that file's note on mapped files, as
/// [`crate::entries`] reads it.
#[derive(Drop)]
pub struct Process<'p> {
    /// The page size.
    pub(crate) page: u64,
    /// The entries of the files that it had mapped.
    pub(crate) entries: &'p [Entry<'p>],
    /// The memory of the core file.
    pub(crate) memory: InputMap<'p>,
    /// The entries, put in order.
    pub(crate) stretches: Stretches<'p>,
    /// The entries by the last parts of their names.
    pub(crate) last_parts: LastParts<'p>,
    ghost some: { 0 < page },
    ghost ordered: { AreStretchesOf stretches (map mapping_view entries.now) },
    ghost by_part: { AreByPart last_parts (map mapping_view entries.now) },
}

impl<'p> Process<'p> {
    ghost use Rattle.std.specs.Prelude.{◌≡◌, IfOk, map};
    ghost use Rattle.core_parts.specs.Input.{input_file, is_by_parts};
    ghost use Rattle.sf_modules.specs.Candidates.{candidates};
    ghost use Rattle.sf_modules.specs.Entry.{mapping_view};
    ghost use Rattle.sf_modules.specs.LastParts.{candidates_left};
    ghost use Rattle.sf_modules.specs.Process.{is_process_of_parts, process_of, process_view};

    /// Puts a core file in order, with the page size and the entries of its note on mapped files, once for all files.
    ///
    /// `NoMemory` if out of memory.
    pub fn new(
        alloc: Global,
        core: &CoreInput<'p>,
        page: u64,
        entries: &'p [Entry<'p>],
    ) -> Result<Process<'p>, NoMemory>
        requires { 0 < page }
        ensures process { IfOk result (λ p. process_view p ≡ process_of (input_file core.now) page (map mapping_view entries.now)) }
        ensures parts { IfOk result (λ p. is_process_of_parts p ≡ is_by_parts core.now) }
    {
        let memory = InputMap::new(alloc, core)?;
        let stretches = Stretches::new(alloc, entries)?;
        let last_parts = last_parts_of(alloc, entries)?;
        Ok(Process {
            page,
            entries,
            memory,
            stretches,
            last_parts,
        })
    }

    /// Returns the entries whose names have the last part of a word.
    pub(crate) fn candidates(&self, word: &[u8]) -> Candidates<'_, 'p>
        ensures { candidates_left result ≡ candidates word.now (map mapping_view self.now.entries.now) }
    {
        Candidates {
            entries: self.entries,
            next: &self.last_parts.next,
            at: self.last_parts.first.get(last_part(word)).copied(),
        }
    }
}
