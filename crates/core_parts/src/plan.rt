//! Which bytes of an open core file are read of its memory. Nothing is stated here: what is read is a part of the file,
//! whichever it is, and whoever reads the memory says which addresses it misses.

use crate::core_file::CoreParts;
use crate::segment::{SegmentHead, held_spans};
use core_notes::Thread;
use elf_read::u64_at;
use sf_base::NoMemory;
use sf_bytes::FilePart;
use sf_lookup::Spans;
use sf_parts::Window;
use std::alloc::Global;

// How many bytes a block has. It begins at a multiple of this in its segment, and ends there or with the segment.
const BLOCK: u64 = 1 << 16;
// How many bytes of a stack are read at first, at most: a number of blocks.
const STACK: u64 = 1 << 19;
// How many bytes of all stacks are read at first, at most, unless each has one block alone.
const ALL_STACKS: u64 = 1 << 27;
// How many times as many bytes as are read before a missed address are read from it on: a few rounds suffice for a deep
// stack.
const GROWTH: u64 = 4;
// How many bytes are read from a missed address on, at least: a value of memory.
const VALUE: u64 = 8;
// How many mapped files have their first page read at the start, at most.
const MAPPED_FILES: u64 = 1 << 12;
// The note on mapped files: how many bytes are before its entries, how many each has, and where in it its offset is.
const NOTE_HEADER_LEN: u64 = 16;

const ENTRY_LEN: u64 = 24;

const ENTRY_OFFSET: u64 = 16;

// Bytes of a segment that are wanted.
#[derive(Clone, Copy)]
struct Want {
    // The place of the first byte that can be read with them: of the segment, or after a part that was read before.
    first: u64,
    // The place of the first byte that is wanted.
    place: u64,
    // The place after the last byte that is wanted.
    end: u64,
    // The place after the last byte that can be read with them.
    last: u64,
    // Whether they were missed, and more is read after them the more is read before.
    missed: bool,
}

// Bytes that are read as one part, as far as they are known.
#[derive(Clone, Copy)]
struct Run {
    // The place of the first.
    place: u64,
    // The place after the last.
    end: u64,
    // Where the bytes begin by which a missed address makes the run longer: at the run's first byte, or at the last
    // stack pointer or mapped file.
    start: u64,
}

// What is wanted of a core file.
#[derive(Drop)]
struct Plan<'a> {
    // The segments that have an address.
    segments: Spans<SegmentHead>,
    // The parts that were read before.
    read: &'a [FilePart],
    // What is wanted of the segments.
    wants: Vec<Want>,
}

// Returns how many bytes of each stack are read at first, if there is this number of threads.
fn stack_size(threads: usize) -> u64 {
    match ALL_STACKS.checked_div(threads as u64) {
        Some(each) => (each / BLOCK * BLOCK).min(STACK).max(BLOCK),
        None => BLOCK,
    }
}

// Returns the threads' stack pointers.
fn stack_addresses(alloc: Global, threads: &[Thread]) -> Result<Vec<u64>, NoMemory> {
    let mut addresses = Vec::with_capacity(alloc, threads.len())?;
    for thread in threads {
        addresses.push(thread.regs.sp)?;
    }
    Ok(addresses)
}

// Returns the addresses at which mapped files begin, by the note on them: there is the build identifier of most.
fn file_addresses(alloc: Global, note: Option<&FilePart>) -> Result<Vec<u64>, NoMemory> {
    let mut addresses = Vec::new(alloc);
    let Some(note) = note else {
        return Ok(addresses);
    };
    for k in 0..u64_at(&note.bytes, 0).min(MAPPED_FILES) {
        let place = ENTRY_LEN * k + NOTE_HEADER_LEN;
        if u64_at(&note.bytes, place + ENTRY_OFFSET) == 0 {
            addresses.push(u64_at(&note.bytes, place))?;
        }
    }
    Ok(addresses)
}

// Returns the place after a part's last byte.
fn end_of(part: &FilePart) -> u64 {
    part.place.saturating_add(part.bytes.len() as u64)
}

// Returns the places of the first byte and after the last one that can be read of a segment with the byte at a place, or
// `None` if one of the parts that were read before has it.
fn unread_around(head: &SegmentHead, read: &[FilePart], place: u64) -> Option<(u64, u64)> {
    let mut first = head.place;
    let mut last = head.place.saturating_add(head.size);
    for part in read {
        let end = end_of(part);
        if end <= place {
            first = first.max(end);
        } else if place < part.place {
            last = last.min(part.place);
        } else {
            return None;
        }
    }
    Some((first, last))
}

impl<'a> Plan<'a> {
    // Returns what is wanted for the value at an address: the block of its segment that has its first byte, `size` bytes or
    // as many as the value needs.
    fn want_at(&self, address: u64, size: u64, missed: bool) -> Option<Want> {
        let head = self.segments.first_at(address)?;
        let skip = address.checked_sub(head.vaddr)?;
        let place = head.place.checked_add(skip)?;
        let (first, last) = unread_around(&head, self.read, place)?;
        let block = head.place.checked_add(skip / BLOCK * BLOCK)?;
        let end = block.saturating_add(size).max(place.saturating_add(VALUE));
        Some(Want {
            first,
            place: block.max(first),
            end: end.min(last),
            last,
            missed,
        })
    }

    // Adds what is wanted for the values at these addresses. Of an address that no segment has nothing is.
    fn add(&mut self, addresses: &[u64], size: u64, missed: bool) -> Result<(), NoMemory> {
        for address in addresses {
            if let Some(want) = self.want_at(*address, size, missed) {
                self.wants.push(want)?;
            }
        }
        Ok(())
    }
}

impl Run {
    // Adds what is wanted from a place on that is in the run or at its end. What was missed has `GROWTH` times as many bytes
    // read from it on as are read before it, and takes those past the run's end off those that may be read.
    fn add(&mut self, want: &Want, spare: &mut u64) {
        let end = self.end.max(want.end);
        if !want.missed {
            self.start = want.place;
            self.end = end;
            return;
        }
        let before = want.place.saturating_sub(self.start.max(want.first));
        let grown = want.place.saturating_add(GROWTH.saturating_mul(before));
        let more = grown.min(want.last).saturating_sub(end).min(*spare);
        *spare = spare.saturating_sub(more);
        self.end = end.saturating_add(more);
    }
}

// Returns how many bytes are wanted. Those that are wanted twice count twice.
fn wanted_size(wants: &[Want]) -> u64 {
    let mut size: u64 = 0;
    for want in wants {
        size = size.saturating_add(want.end.saturating_sub(want.place));
    }
    size
}

// Adds the window of a run, unless it is empty.
fn push_run(windows: &mut Vec<Window>, run: &Run) -> Result<(), NoMemory> {
    if run.place < run.end {
        windows.push(Window {
            place: run.place,
            size: run.end.saturating_sub(run.place),
        })?;
    }
    Ok(())
}

// Returns the windows that have what is wanted, which is in the order of its places, and `spare` bytes more at most. They are
// in that order and apart: what overlaps or touches is one window.
fn joined(alloc: Global, wants: &[Want], mut spare: u64) -> Result<Vec<Window>, NoMemory> {
    let mut windows = Vec::new(alloc);
    let mut run = Run {
        place: 0,
        end: 0,
        start: 0,
    };
    for want in wants {
        if run.end < want.place {
            push_run(&mut windows, &run)?;
            run = Run {
                place: want.place,
                end: want.place,
                start: want.place,
            };
        }
        run.add(want, &mut spare);
    }
    push_run(&mut windows, &run)?;
    Ok(windows)
}

/// Returns the windows of a core file that are read of its memory, in the order of their places and apart: what the memory
/// has from the threads' stack pointers on, where mapped files begin, and at these addresses, which were missed. They have
/// `left` bytes, unless the blocks of these addresses have more.
pub fn windows_of(
    alloc: Global,
    core: &CoreParts,
    left: u64,
    missed: &[u64],
) -> Result<Vec<Window>, NoMemory> {
    let stacks = stack_addresses(alloc, &core.head.threads)?;
    let files = file_addresses(alloc, core.head.file_note.as_ref())?;
    let mut plan = Plan {
        segments: Spans::new(alloc, &held_spans(alloc, &core.head.heads)?)?,
        read: &core.file.parts,
        wants: Vec::new(alloc),
    };
    plan.add(&stacks, stack_size(stacks.len()), false)?;
    plan.add(&files, BLOCK, false)?;
    plan.add(missed, BLOCK, true)?;
    plan.wants.sort_unstable_by_key(|want| want.place);
    let spare = left.saturating_sub(wanted_size(&plan.wants));
    joined(alloc, &plan.wants, spare)
}
