//! Walks that go on, by modules in any order and a cache.

ghost use Rattle.std.specs.Prelude.{◌≡◌, length, take, ℕ};
ghost use Rattle.sf_model.specs.Walk.{LookUp};
ghost use Rattle.sample_walk.specs.Cache.{AreRight};
ghost use Rattle.sample_walk.specs.PartWalk.{AreFirstByEachWhole};
ghost use Rattle.sample_walk.specs.Room.{places_listed};
ghost use Rattle.sf_c.specs.Modules.{module_row};
ghost use Rattle.sf_c.specs.Order.{IsIndex, index_in};
ghost use Rattle.sf_c.specs.Sample.{mask_of, stack_memory};
ghost use Rattle.sf_c.specs.WalkOn as spec;

use crate::finding::flag;
use crate::indexed::IndexedModules;
use crate::modules::KiblawenModule;
use crate::sample::KiblawenSample;
use crate::walking::{KiblawenStop, stop_shown};
use sample_walk::{CacheEntry, ModuleFrame, State, Value, clear, walk_on};
use sf_model::Stop;

/// The modules of a process in any order, with an index of them.
#[repr(C)]
#[derive(Clone, Copy)]
pub struct KiblawenModules<'a> {
    /// The modules.
    pub modules: &'a [KiblawenModule<'a>],
    /// Their indices, in the order in which the modules start.
    pub order: &'a [usize],
}

/// Where a walk is.
#[repr(C)]
#[derive(Clone, Copy)]
pub struct KiblawenState {
    /// The program counter.
    pub pc: u64,
    /// The stack pointer.
    pub sp: u64,
    /// The frame pointer, or the address where it was to be read.
    pub fp: u64,
    /// The link register.
    pub lr: u64,
    /// 0 if the frame pointer is known.
    pub fp_unknown: u32,
    /// 0 if the row is looked up at the program counter; else a call returns there, and it is looked up at the address
    /// before.
    pub returned: u32,
}

// Returns a state that C gives.
fn state_in(state: &KiblawenState) -> State
    ensures { result ≡ spec.state_in state.now }
{
    let fp = if state.fp_unknown == 0 {
        Value::Known(state.fp)
    } else {
        Value::Unreadable(state.fp)
    };
    State {
        pc: state.pc,
        sp: state.sp,
        fp,
        lr: state.lr,
        returned: state.returned != 0,
    }
}

// Returns a state, as C has it.
fn state_shown(state: &State) -> KiblawenState
    ensures { result ≡ spec.state_shown state.now }
{
    let (fp, fp_unknown) = match state.fp {
        Value::Known(value) => (value, 0),
        Value::Unreadable(address) => (address, 1),
    };
    KiblawenState {
        pc: state.pc,
        sp: state.sp,
        fp,
        lr: state.lr,
        fp_unknown,
        returned: flag(state.returned),
    }
}

/// Clears a cache: from then on it is right for the modules that it is used with first.
#[unsafe(no_mangle)]
pub extern "C" fn kiblawen_cache_clear(cache: &mut [CacheEntry])
    ensures { (look_up : LookUp) (index : ℕ → ℕ) → AreRight look_up index cache.new }
{
    clear(cache);
}

/// Walks on from a state, by a sample's memory and mask and the sections of modules: lists the frames from the state's own
/// on, each with the index of its module, as many as there is room for, and returns how many they are. They are the first
/// frames of the walk by each memory that the sample's is a part of. The state where the walk ends is written to `state`,
/// and why it stopped to `stop`. The caller owes that the modules have an index, and that the cache is right for them;
/// one of no entries keeps nothing.
#[unsafe(no_mangle)]
pub extern "C" fn kiblawen_walk_on(
    modules: &KiblawenModules<'_>,
    cache: &mut [CacheEntry],
    sample: &KiblawenSample<'_>,
    state: &mut KiblawenState,
    frames: &mut [ModuleFrame],
    stop: &mut KiblawenStop,
) -> usize
    requires index { IsIndex modules.now.modules.now modules.now.order.now }
    requires cache { AreRight (module_row modules.now.modules.now) (index_in modules.now.modules.now) cache.old }
    ensures cache { AreRight (module_row modules.now.modules.now) (index_in modules.now.modules.now) cache.new }
    ensures frames { frames.new ≡ places_listed (index_in modules.now.modules.now) (spec.sample_walk_on (module_row modules.now.modules.now) sample.now (length frames.old) (spec.state_in state.old)).places frames.old }
    ensures count { result ≡ length (spec.sample_walk_on (module_row modules.now.modules.now) sample.now (length frames.old) (spec.state_in state.old)).places }
    ensures stop { stop.new ≡ spec.end_shown (spec.sample_walk_on (module_row modules.now.modules.now) sample.now (length frames.old) (spec.state_in state.old)).stop }
    ensures state { spec.state_in state.new ≡ (spec.sample_walk_on (module_row modules.now.modules.now) sample.now (length frames.old) (spec.state_in state.old)).at }
    ensures first { AreFirstByEachWhole (module_row modules.now.modules.now) (mask_of sample.now) (stack_memory sample.now) (spec.state_in state.old) (take result frames.new) }
{
    let start = state_in(state);
    let indexed = IndexedModules {
        modules: modules.modules,
        order: modules.order,
    };
    let ended = walk_on(
        &indexed,
        cache,
        sample.known_mask(),
        &sample.memory(),
        start,
        frames,
    );
    *state = state_shown(&ended.at);
    *stop = stop_shown(ended.stop.unwrap_or(Stop::Depth));
    ended.count
}
