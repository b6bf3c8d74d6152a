//! Walks by a core file that was read, whole or by parts.

ghost use Rattle.std.specs.Prelude.{IfOk};
ghost use Rattle.sf_model.specs.Walk.{look_up_walk};
ghost use Rattle.core_notes.specs.Memory.{file_regions};
ghost use Rattle.core_walk.specs.Walk.{thread_state};
ghost use Rattle.core_parts.specs.Input.{is_part, memory_file};
ghost use Rattle.core_parts.specs.Walked.{IsWalked};

use crate::input_memory::InputMemory;
use core_notes::Thread;
use core_walk::{LookUp, walk_by};
use sf_base::NoMemory;
use sf_model::Walk;
use std::alloc::Global;

/// What a walk comes to by what was read of a core file.
#[derive(Drop)]
pub enum Walked {
    /// The walk by the whole memory.
    Whole(Walk),
    /// The walk needs the eight bytes from this address on. The whole memory has them, and they weren't read.
    Missed(u64),
}

/// Lists the frames of a thread as [`walk_by`](core_walk::walk_by) does over the whole memory of the core file, or says
/// which bytes this takes that weren't read.
///
/// # Errors
///
/// `NoMemory`.
pub fn walk_input<L: LookUp>(
    alloc: Global,
    rows: &L,
    thread: &Thread,
    memory: &InputMemory<'_>,
    depth: u32,
) -> Result<Walked, NoMemory>
    ensures { IfOk result (λ walked.
        IsWalked (λ memory. look_up_walk (L.found_at rows.now) (thread_state thread.now) memory depth) (file_regions (memory_file memory.now)) (is_part memory.now) walked) }
{
    let walk = walk_by(alloc, rows, thread, memory, depth)?;
    memory.is_of_file();
    match memory.missed(walk.stop) {
        Some(address) => Ok(Walked::Missed(address)),
        None => Ok(Walked::Whole(walk)),
    }
}
