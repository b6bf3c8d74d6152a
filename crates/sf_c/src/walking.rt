//! The walk of a sample into an array of the caller's.

ghost use Rattle.std.specs.Prelude.{◌≡◌, length};
ghost use Rattle.sf_decode.specs.Kept.{functions_lent};
ghost use Rattle.sf_model.specs.Walk.{section_walk};
ghost use Rattle.sf_c.specs.Modules.{ModulesRise, module_row};
ghost use Rattle.sf_c.specs.Sample.{stack_memory, sample_thread};
ghost use Rattle.sf_c.specs.Walk as spec;

use crate::modules::{KiblawenModule, Modules};
use crate::sample::KiblawenSample;
use crate::section::OneSection;
use core_walk::LookUp;
use core_walk::step::{Caller, address_before, step};
use sf_decode::LentSection;
use sf_model::{Frame, Stop};

/// A frame of a walk.
#[repr(C)]
#[derive(Clone, Copy, PartialEq, Eq)]
pub struct KiblawenFrame {
    /// The frame's program counter.
    pub pc: u64,
    /// The frame's canonical frame address, 0 if no row holds. Then the frame is the last, and the walk stopped outside.
    pub cfa: u64,
}

/// Why a walk stopped.
#[repr(C)]
#[derive(Clone, Copy, PartialEq, Eq)]
pub struct KiblawenStop {
    /// 0: the room is full. 1: no row holds at an address. 2: a value can't be read. 3: a return address is signed, and
    /// the sample has no mask.
    pub kind: u32,
    /// The address at which no row holds, the address of the value, or the return address; 0 if the room is full.
    pub value: u64,
}

// Returns a frame, as C has it.
fn frame_shown(frame: &Frame) -> KiblawenFrame
    ensures { result ≡ spec.frame_shown frame.now }
{
    KiblawenFrame {
        pc: frame.pc,
        cfa: frame.cfa.unwrap_or(0),
    }
}

/// Returns why a walk stopped, as C has it.
pub fn stop_shown(stop: Stop) -> KiblawenStop
    ensures { result ≡ spec.stop_shown stop }
{
    let (kind, value) = match stop {
        Stop::Depth => (0, 0),
        Stop::Outside(address) => (1, address),
        Stop::Unreadable(address) => (2, address),
        Stop::Signed(address) => (3, address),
    };
    KiblawenStop { kind, value }
}

// Lists the frames of a sample from the first place of the room on, and returns how many.
fn walk_into<L: LookUp>(
    rows: &L,
    sample: &KiblawenSample<'_>,
    frames: &mut [KiblawenFrame],
    stop: &mut KiblawenStop,
) -> usize
    ensures frames { frames.new ≡ spec.frames_listed (spec.sample_walk (L.found_at rows.now) sample.now (length frames.old)).frames frames.old }
    ensures count { result ≡ length (spec.sample_walk (L.found_at rows.now) sample.now (length frames.old)).frames }
    ensures stop { stop.new ≡ spec.stop_shown (spec.sample_walk (L.found_at rows.now) sample.now (length frames.old)).stop }
{
    let stack = sample.memory();
    let mask = sample.known_mask();
    let mut at = Caller {
        pc: sample.pc,
        regs: sample.registers(),
    };
    let mut asked = sample.pc;
    for count in 0..frames.len() {
        let (frame, next) = step(rows, mask, &stack, asked, &at);
        frames[count] = frame_shown(&frame);
        at = match next {
            Ok(caller) => caller,
            Err(reason) => {
                *stop = stop_shown(reason);
                return count + 1;
            }
        };
        asked = address_before(at.pc);
    }
    *stop = stop_shown(Stop::Depth);
    frames.len()
}

/// Walks a sample by one section: lists its frames from the innermost on, as many as there is room for, and returns how
/// many they are. Why the walk stopped is written to `stop`. A closed section has no functions.
#[unsafe(no_mangle)]
pub extern "C" fn kiblawen_walk(
    section: &LentSection<'_>,
    sample: &KiblawenSample<'_>,
    frames: &mut [KiblawenFrame],
    stop: &mut KiblawenStop,
) -> usize
    ensures frames { frames.new ≡ spec.frames_listed (section_walk (functions_lent section.now) (sample_thread sample.now) (stack_memory sample.now) (length frames.old)).frames frames.old }
    ensures count { result ≡ length (section_walk (functions_lent section.now) (sample_thread sample.now) (stack_memory sample.now) (length frames.old)).frames }
    ensures stop { stop.new ≡ spec.stop_shown (section_walk (functions_lent section.now) (sample_thread sample.now) (stack_memory sample.now) (length frames.old)).stop }
{
    walk_into(&OneSection { section }, sample, frames, stop)
}

/// Walks a sample as [`kiblawen_walk`] does, by the sections of modules: each frame is looked up in the section of the
/// module that has its address in its range. The caller owes that the modules are in order.
#[unsafe(no_mangle)]
pub extern "C" fn kiblawen_walk_modules(
    modules: &[KiblawenModule<'_>],
    sample: &KiblawenSample<'_>,
    frames: &mut [KiblawenFrame],
    stop: &mut KiblawenStop,
) -> usize
    requires { ModulesRise modules.now }
    ensures frames { frames.new ≡ spec.frames_listed (spec.sample_walk (module_row modules.now) sample.now (length frames.old)).frames frames.old }
    ensures count { result ≡ length (spec.sample_walk (module_row modules.now) sample.now (length frames.old)).frames }
    ensures stop { stop.new ≡ spec.stop_shown (spec.sample_walk (module_row modules.now) sample.now (length frames.old)).stop }
{
    walk_into(&Modules { modules }, sample, frames, stop)
}
