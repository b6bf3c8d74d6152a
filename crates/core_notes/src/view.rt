//! A core file that was checked.

ghost use Rattle.std.specs.Prelude.{◌≡◌, ◌<◌, ◌^◌, IsTrue, is_ok, length};
ghost use Rattle.elf_read.specs.Views.{file};
ghost use Rattle.core_notes.specs.Checks.{core_check, file_threads};
ghost use Rattle.core_notes.specs.Memory.{rise_from};
ghost use Rattle.core_notes.specs.Order.{IsOrder};
ghost use Rattle.core_notes.specs.Segment.{segments};

use crate::fault::CoreFault;
use crate::file_note::first_file_note;
use crate::iter::ThreadIter;
use crate::memory::{Order, read_eight, rise};
use crate::memory_bytes::bytes_at;
use crate::notes::Notes;
use crate::parsing::check_core;
use crate::status::Thread;
use elf_read::Elf;
use sf_bytes::Part;
use sf_model::{Arch, Memory};

/// A core file that was checked. It lends the file's bytes, of which there are fewer than 2^32.
#[derive(Clone, Copy)]
pub struct Core<'a> {
    pub(crate) elf: Elf<'a>,
    threads: u32,
    // Whether a read may find its segment by halves.
    pub(crate) rises: bool,
    ghost small: { length (file elf) < 2 ^ 32 },
    ghost checked: { IsTrue (is_ok (core_check (file elf))) },
    ghost counted: { threads ≡ length (file_threads (file elf)) },
    ghost ordered: { rises ≡ rise_from 0 (segments (file elf)) },
}

impl<'a> Core<'a> {
    ghost use Rattle.std.specs.Prelude.{◌≤◌, IfOk, IsOkAnd, List, slice_index_or};
    ghost use Rattle.std.specs.Option.{option_map};
    ghost use Rattle.sf_bytes.specs.Cursor.{cursor};
    ghost use Rattle.elf_read.specs.Checking.{verdict};
    ghost use Rattle.elf_read.specs.Header.{arch_of};
    ghost use Rattle.core_notes.specs.declared.status.Thread.{Thread as thread};
    ghost use Rattle.core_notes.specs.Core.{IsCore};
    ghost use Rattle.core_notes.specs.MemoryBytes as held;
    ghost use Rattle.core_notes.specs.Note.{NoteView};
    ghost use Rattle.core_notes.specs.Thread as spec;
    ghost use Rattle.core_notes.specs.Views.{core_bytes, memory_of, notes_of, threads_left, threads_of};

    /// Checks a file: the ELF file, its kind, each note in order, and the number of threads. The fault is that of the
    /// first check that fails.
    pub fn parse(bytes: &'a [u8]) -> Result<Core<'a>, CoreFault>
        requires { length bytes.now < 2 ^ 32 }
        // What was read is a core file of the notes that the view shows.
        ensures sound { IfOk result (λ core. IsCore bytes.now (notes_of core)) }
        // Each core file is read, as one of its notes.
        ensures complete { (notes : List NoteView) → IsCore bytes.now notes → IsOkAnd result (λ core. notes_of core ≡ notes) }
        // It is read exactly where no check fails; else the fault is that of the first that does.
        ensures exact { verdict result ≡ core_check bytes.now }
        ensures bytes { IfOk result (λ core. core_bytes core ≡ bytes.now) }
    {
        Self::checked(bytes)
    }

    // Makes the checks, and counts the threads.
    fn checked(bytes: &'a [u8]) -> Result<Core<'a>, CoreFault>
        requires { length bytes.now < 2 ^ 32 }
        ensures exact { verdict result ≡ core_check bytes.now }
        ensures bytes { IfOk result (λ core. core_bytes core ≡ bytes.now) }
    {
        let elf = Elf::parse(bytes)?;
        let threads = check_core(bytes, &elf)?;
        let rises = rise(&elf);
        Ok(Core {
            elf,
            threads,
            rises,
        })
    }

    /// Returns the machine that the file is for.
    pub fn arch(&self) -> Arch
        ensures { result ≡ arch_of (core_bytes self.now) }
    {
        self.elf.arch()
    }

    /// Returns the number of threads.
    pub fn threads(&self) -> u32
        ensures value { result ≡ length (threads_of self.now) }
        ensures some { 1 ≤ result }
        ensures most { result ≤ 4096 }
    {
        self.threads
    }

    /// Returns the iterator over the threads, in the order of their notes.
    pub fn threads_iter(&self) -> ThreadIter<'a>
        ensures { threads_left result ≡ threads_of self.now }
    {
        ThreadIter::new(self.elf.arch(), Notes::new(&self.elf))
    }

    /// Returns the thread of a number. To go over all threads, use `threads_iter`.
    pub fn thread(&self, i: u32) -> Thread
        requires { i < length (threads_of self.now) }
        ensures { (d : thread) → slice_index_or (threads_of self.now) i d ≡ result }
    {
        let mut threads = self.threads_iter();
        for passed in 0..i {
            threads.next();
        }
        match threads.next() {
            Some(thread) => thread,
            None => unreachable!(),
        }
    }

    /// Returns the descriptor of the first note that lists the mapped files, if there is one.
    pub fn file_note(&self) -> Option<Part<'a>>
        ensures { option_map cursor result ≡ spec.file_note_in (notes_of self.now) }
    {
        first_file_note(Notes::new(&self.elf))
    }

    // Returns what is known of the order of its segments.
    fn order(&self) -> Order<'a>
        ensures { IsOrder result (segments (file self.now.elf)) }
    {
        if self.rises {
            Order::Rising
        } else {
            Order::Unknown
        }
    }

    /// Finds `len` bytes of its memory from an address on, by the first segment that holds them all.
    pub fn bytes_at(&self, address: u64, len: u64) -> Option<&'a [u8]>
        ensures { option_map (λ b. b.now) result ≡ held.bytes_at (memory_of self.now) address len }
    {
        bytes_at(&self.elf, self.order(), address, len)
    }
}

impl<'a> Memory for Core<'a> {
    ghost use Rattle.core_notes.specs.Views.{memory_of};

    ghost regions = { memory_of };

    fn read8(&self, address: u64) -> Option<u64> {
        read_eight(&self.elf, self.order(), address)
    }
}
