//! The state of a walk, and one step where no row holds.

ghost use Rattle.std.specs.Prelude.{◌≡◌};
ghost use Rattle.sf_model.specs.Recovery as recovering;
ghost use Rattle.process_walk.specs.Outside.{is_outside};
ghost use Rattle.process_walk.specs.Step as spec;

use core_walk::step::{Caller, address_before};
use sf_model::{Frame, Memory, Regs, Stop};
use signal_frames::SignalFrame;

/// A frame of a walk.
#[derive(Clone, Copy)]
pub struct ProcessFrame {
    /// Its program counter, and its canonical frame address or none if it isn't known.
    pub frame: Frame,
    /// Whether it is a signal frame that was stepped over, all of whose values were read: the frame after it was interrupted.
    pub is_signal: bool,
}

/// Where a walk is.
#[derive(Clone, Copy)]
pub struct State {
    /// The address that is looked up.
    pub asked: u64,
    /// The program counter and the registers of the frame.
    pub at: Caller,
}

// Returns the state at a caller: it is looked up at the address before its return address.
fn called(caller: Caller) -> State
    ensures { result ≡ spec.called caller }
{
    State {
        asked: address_before(caller.pc),
        at: caller,
    }
}

/// Returns the state of a caller that is known, or why the walk stops.
pub fn to_caller(next: Result<Caller, Stop>) -> Result<State, Stop>
    ensures { result ≡ spec.to_caller next }
{
    Ok(called(next?))
}

/// Returns whether a step by rows stops since no row holds.
pub fn is_outside(next: &Result<Caller, Stop>) -> bool
    ensures { result ≡ is_outside next.now }
{
    match next {
        Ok(_) => false,
        Err(Stop::Outside(_)) => true,
        Err(Stop::Depth) => false,
        Err(Stop::Unreadable(_)) => false,
        Err(Stop::Signed(_)) => false,
    }
}

/// Returns the state at what was interrupted: it is looked up at its own program counter.
pub fn resumed(caller: Caller) -> State
    ensures { result ≡ spec.resumed caller }
{
    State {
        asked: caller.pc,
        at: caller,
    }
}

/// Returns a frame as it is listed.
pub fn frame_listed(pc: u64, cfa: Option<u64>, is_signal: bool) -> ProcessFrame
    ensures { result ≡ spec.frame_listed pc cfa is_signal }
{
    let frame = Frame { pc, cfa };
    ProcessFrame { frame, is_signal }
}

// Returns the address a signed number of bytes further on, modulo 2^64.
#[tactic(auto, using(crate::proofs::Addresses::moved_by))]
fn moved(address: u64, by: i64) -> u64
    ensures { result ≡ recovering.moved address by }
{
    address.wrapping_add_signed(by)
}

// Returns the value that is saved at a place, or that the walk stops since it can't be read.
fn saved_at<M: Memory>(mem: &M, place: u64) -> Result<u64, Stop>
    ensures { result ≡ spec.known_or_stop (recovering.saved_at (M.regions mem.now) place) }
{
    match mem.read8(place) {
        Some(value) => Ok(value),
        None => Err(Stop::Unreadable(place)),
    }
}

// Returns what was interrupted, given its stack pointer, or why the walk stops. The return address is read first.
fn interrupted<M: Memory>(
    frame: &SignalFrame,
    mem: &M,
    regs: &Regs,
    frame_address: u64,
) -> Result<State, Stop>
    ensures { result ≡ spec.interrupted frame.now (M.regions mem.now) regs.now frame_address }
{
    let pc = saved_at(mem, moved(regs.sp, frame.return_address))?;
    let fp = saved_at(mem, moved(regs.sp, frame.frame_pointer))?;
    let regs = Regs {
        sp: frame_address,
        fp,
        lr: pc,
    };
    Ok(resumed(Caller { pc, regs }))
}

// Returns a signal frame, and what was interrupted or why the walk stops: at the first of the three values that can't be
// read.
fn step_over<M: Memory>(
    frame: &SignalFrame,
    mem: &M,
    at: &Caller,
) -> (ProcessFrame, Result<State, Stop>)
    ensures { result ≡ spec.step_over frame.now (M.regions mem.now) at.now }
{
    match saved_at(mem, moved(at.regs.sp, frame.frame_address)) {
        Ok(frame_address) => {
            let next = interrupted(frame, mem, &at.regs, frame_address);
            let is_signal = next.is_ok();
            (frame_listed(at.pc, Some(frame_address), is_signal), next)
        }
        Err(stop) => (frame_listed(at.pc, None, false), Err(stop)),
    }
}

/// Returns the frame at a state where no row holds, and the caller's state or why the walk stops: the walk steps over the
/// signal frame, if there is one.
pub fn step_without_row<M: Memory>(
    signal: Option<SignalFrame>,
    mem: &M,
    state: &State,
) -> (ProcessFrame, Result<State, Stop>)
    ensures { result ≡ spec.step_without_row signal (M.regions mem.now) state.now }
{
    match signal {
        Some(frame) => step_over(&frame, mem, &state.at),
        None => {
            let stop = Stop::Outside(state.asked);
            (frame_listed(state.at.pc, None, false), Err(stop))
        }
    }
}
