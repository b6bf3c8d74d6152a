//! The walk of a thread.

ghost use Rattle.std.specs.Prelude.{◌≡◌, IfOk};
ghost use Rattle.sf_model.specs.Walk.{look_up_walk, section_walk};
ghost use Rattle.sf_decode.specs.View.{table_of};
ghost use Rattle.core_walk.specs.Walk.{walk_listing, thread_state};

use crate::look_up::LookUp;
use crate::step::{Caller, address_before, step};
use core_notes::Thread;
use sf_base::NoMemory;
use sf_decode::View;
use sf_model::{Memory, Stop};
use std::alloc::Global;

/// Lists the frames of a thread, at most `depth`, from the innermost on, and why no more are listed. The thread's own
/// frame is looked up at its program counter, and each caller at the address before the one that it returns to.
///
/// `NoMemory` where memory ran out.
pub fn walk_by<L: LookUp, M: Memory>(
    alloc: Global,
    rows: &L,
    thread: &Thread,
    mem: &M,
    depth: u32,
) -> Result<sf_model::Walk, NoMemory>
    ensures { IfOk result (λ walk. walk_listing walk ≡ look_up_walk (L.found_at rows.now) (thread_state thread.now) (M.regions mem.now) depth) }
{
    let mut frames = Vec::new(alloc);
    let mut at = Caller {
        pc: thread.pc,
        regs: thread.regs,
    };
    let mut asked = thread.pc;
    for listed in 0..depth {
        let (frame, next) = step(rows, thread.mask, mem, asked, &at);
        frames.push(frame)?;
        at = match next {
            Ok(caller) => caller,
            Err(stop) => return Ok(sf_model::Walk { frames, stop }),
        };
        asked = address_before(at.pc);
    }
    let stop = Stop::Depth;
    Ok(sf_model::Walk { frames, stop })
}

/// Lists the frames of a thread as [`walk_by`] does, by the rows of a section.
///
/// `NoMemory` where memory ran out.
#[tactic(auto, unfolding(sf_model::specs::Walk::section_walk))]
pub fn walk<M: Memory>(
    alloc: Global,
    view: &View<'_>,
    thread: &Thread,
    mem: &M,
    depth: u32,
) -> Result<sf_model::Walk, NoMemory>
    ensures { IfOk result (λ walk. walk_listing walk ≡ section_walk (table_of view.now).functions (thread_state thread.now) (M.regions mem.now) depth) }
{
    walk_by(alloc, view, thread, mem, depth)
}
