//! The walk of a thread.

use crate::masks::stops_unsigned;
use crate::process::Process;
use crate::stepping::{ProcessFrame, State, is_outside, resumed, step_without_row, to_caller};
use core_notes::Thread;
use core_walk::step::{Caller, step};
use sf_base::NoMemory;
use sf_model::{Frame, Memory, Stop};
use std::alloc::Global;

/// The frames of a walk from the innermost on, and why it stopped.
#[derive(Drop)]
pub struct ProcessWalk {
    /// The frames.
    pub frames: Vec<ProcessFrame>,
    /// Why no more are listed.
    pub stop: Stop,
}

impl<'m> Process<'m> {
    ghost use Rattle.std.specs.Prelude.{◌≡◌, IfOk};
    ghost use Rattle.sf_model.specs.Walk.{recover_by};
    ghost use Rattle.core_walk.specs.Walk.{thread_state};
    ghost use Rattle.sf_modules.specs.Found.{found_in};
    ghost use Rattle.process_walk.specs.Masks.{recover_unmasked};
    ghost use Rattle.process_walk.specs.Outside.{row_step};
    ghost use Rattle.process_walk.specs.Process.{entries_in, is_unmasked, modules_in, signals_in};
    ghost use Rattle.process_walk.specs.Signals.{signal_at};
    ghost use Rattle.process_walk.specs.Step.{step_at};
    ghost use Rattle.process_walk.specs.Walk.{listing, process_walk};

    // Returns the frame at a state by the row that holds there, and its caller or why the walk stops. A return address that
    // is taken as it is, is one with a mask of no bits.
    fn step_by_row<M: Memory>(
        &self,
        mask: Option<u64>,
        mem: &M,
        state: &State,
    ) -> (Frame, Result<Caller, Stop>)
        ensures { result ≡ row_step (recover_unmasked (is_unmasked self.now) mask (recover_by (found_in (entries_in self.now) (modules_in self.now)) (M.regions mem.now)) state.now.asked state.now.at.regs) mask state.now.asked state.now.at.pc }
    {
        let (frame, next) = step(&self.modules, mask, mem, state.asked, &state.at);
        if stops_unsigned(self.is_unmasked, &next) {
            return step(&self.modules, Some(0), mem, state.asked, &state.at);
        }
        (frame, next)
    }

    // Returns the frame at a state, and the caller's state or why the walk stops: by the row that holds, or else over the
    // signal frame there.
    fn step<M: Memory>(
        &self,
        mask: Option<u64>,
        mem: &M,
        state: &State,
    ) -> (ProcessFrame, Result<State, Stop>)
        ensures { result ≡ step_at (recover_unmasked (is_unmasked self.now) mask (recover_by (found_in (entries_in self.now) (modules_in self.now)) (M.regions mem.now))) (signal_at (entries_in self.now) (modules_in self.now) (signals_in self.now)) mask (M.regions mem.now) state.now }
    {
        let (frame, next) = self.step_by_row(mask, mem, state);
        if is_outside(&next) {
            return step_without_row(self.signal_at(state.asked), mem, state);
        }
        let is_signal = false;
        (ProcessFrame { frame, is_signal }, to_caller(next))
    }

    /// Lists the frames of a thread, at most `depth`, from the innermost on, and why no more are listed. Each is looked up in
    /// the module at its address, and where that has no row, in the module's signal frames.
    ///
    /// `NoMemory` if out of memory.
    pub fn walk<M: Memory>(
        &self,
        alloc: Global,
        thread: &Thread,
        mem: &M,
        depth: u32,
    ) -> Result<ProcessWalk, NoMemory>
        ensures { IfOk result (λ walk. listing walk ≡ process_walk (recover_unmasked (is_unmasked self.now) thread.now.mask (recover_by (found_in (entries_in self.now) (modules_in self.now)) (M.regions mem.now))) (signal_at (entries_in self.now) (modules_in self.now) (signals_in self.now)) (thread_state thread.now) (M.regions mem.now) depth) }
    {
        let mut frames = Vec::new(alloc);
        let mut state = resumed(Caller {
            pc: thread.pc,
            regs: thread.regs,
        });
        for listed in 0..depth {
            let (frame, next) = self.step(thread.mask, mem, &state);
            frames.push(frame)?;
            state = match next {
                Ok(caller) => caller,
                Err(stop) => return Ok(ProcessWalk { frames, stop }),
            };
        }
        let stop = Stop::Depth;
        Ok(ProcessWalk { frames, stop })
    }
}
