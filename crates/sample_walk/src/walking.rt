//! A walk from a state, into an array of the caller's.

ghost use Rattle.std.specs.Prelude.{◌≡◌, length, take};
ghost use Rattle.sample_walk.specs.Cache.{AreRight};
ghost use Rattle.sample_walk.specs.Onward.{stepping};
ghost use Rattle.sample_walk.specs.Onward as spec;
ghost use Rattle.sample_walk.specs.PartWalk.{AreFirstByEachWhole};
ghost use Rattle.sample_walk.specs.Room.{walk_end, module_frame, places_listed};

use crate::cache::{CacheEntry, locate};
use crate::modules::Modules;
use crate::state::State;
use crate::stepping::step;
use sf_model::{Frame, Memory, Stop};

/// A frame of a walk, and its module.
#[repr(C)]
#[derive(Clone, Copy)]
pub struct ModuleFrame {
    /// The frame's program counter.
    pub pc: u64,
    /// The frame's canonical frame address, 0 if it isn't known. Then the frame is the last.
    pub cfa: u64,
    /// The index of the module that has the address at which the frame's row was looked up; the number of modules if
    /// none has it.
    pub index: usize,
}

/// How a walk ended.
#[derive(Clone, Copy)]
pub struct Ended {
    /// How many frames were listed.
    pub count: usize,
    /// Why the walk stopped, or none if the room is full.
    pub stop: Option<Stop>,
    /// The state of the next frame if the room is full, else that of the last frame.
    pub at: State,
}

// Returns a frame with the index of its module.
fn module_frame(frame: &Frame, index: usize) -> ModuleFrame
    ensures { result ≡ module_frame frame.now index }
{
    ModuleFrame {
        pc: frame.pc,
        cfa: frame.cfa.unwrap_or(0),
        index,
    }
}

/// Lists the frames of a walk from a state on, as many as there is room for, and returns how the walk ended. They are the
/// first frames of the walk by each memory that this one is a part of. The cache is right for the modules; one of no
/// entries keeps nothing.
pub fn walk_on<L: Modules, M: Memory>(
    modules: &L,
    cache: &mut [CacheEntry],
    mask: Option<u64>,
    mem: &M,
    start: State,
    frames: &mut [ModuleFrame],
) -> Ended
    requires { AreRight (L.row_at modules.now) (L.index_at modules.now) cache.old }
    ensures cache { AreRight (L.row_at modules.now) (L.index_at modules.now) cache.new }
    ensures frames { frames.new ≡ places_listed (L.index_at modules.now) (spec.walk_on (stepping (L.row_at modules.now) mask (M.regions mem.now)) (length frames.old) start).places frames.old }
    ensures ended { result ≡ walk_end (spec.walk_on (stepping (L.row_at modules.now) mask (M.regions mem.now)) (length frames.old) start) }
    ensures first { AreFirstByEachWhole (L.row_at modules.now) mask (M.regions mem.now) start (take result.count frames.new) }
{
    let mut at = start;
    for count in 0..frames.len() {
        let found = locate(modules, cache, at.asked());
        let (frame, next) = step(found.rule, mask, mem, &at);
        frames[count] = module_frame(&frame, found.index);
        at = match next {
            Ok(caller) => caller,
            Err(stop) => {
                return Ended {
                    count: count + 1,
                    stop: Some(stop),
                    at,
                };
            }
        };
    }
    Ended {
        count: frames.len(),
        stop: None,
        at,
    }
}
