//! One step of a walk, from a frame to its caller.

ghost use Rattle.std.specs.Prelude.{◌≡◌};
ghost use Rattle.sample_walk.specs.Step as spec;

use crate::rule::Rule;
use crate::signature::unsigned_by;
use crate::state::{State, Value};
use sf_model::{Base, Frame, Memory, Stop, moved};

// Returns the caller's value of a register that is saved at an offset from the canonical frame address, or has its
// present value.
fn caller_value<M: Memory>(
    mem: &M,
    frame_address: u64,
    present: Value,
    offset: Option<i32>,
) -> Value
    ensures { result ≡ spec.restored_value (M.regions mem.now) frame_address present offset }
{
    let Some(offset) = offset else {
        return present;
    };
    let place = moved(frame_address, offset);
    match mem.read8(place) {
        Some(value) => Value::Known(value),
        None => Value::Unreadable(place),
    }
}

// Returns the register that a row counts from.
fn base_of(base: Base, at: &State) -> Value
    ensures { result ≡ spec.base_register base at.now }
{
    match base {
        Base::Fp => at.fp,
        Base::Sp => Value::Known(at.sp),
    }
}

// Returns the caller of a frame, or why the walk stops. The caller's link register is the return address with its
// signature.
fn caller_of<M: Memory>(
    rule: &Rule,
    mask: Option<u64>,
    mem: &M,
    at: &State,
    frame_address: u64,
) -> Result<State, Stop>
    ensures { result ≡ spec.by_return rule.now mask (M.regions mem.now) at.now frame_address (spec.restored_value (M.regions mem.now) frame_address (spec.lr_of at.now) rule.now.ra) }
{
    let address = match caller_value(mem, frame_address, Value::Known(at.lr), rule.ra) {
        Value::Known(address) => address,
        Value::Unreadable(place) => return Err(Stop::Unreadable(place)),
    };
    let Some(pc) = unsigned_by(rule.signed, mask, address) else {
        return Err(Stop::Signed(address));
    };
    Ok(State {
        pc,
        sp: frame_address,
        fp: caller_value(mem, frame_address, at.fp, rule.fp),
        lr: address,
        returned: true,
    })
}

/// Returns the frame of a state, by the row that holds there if one does, and the caller's state or why the walk stops.
#[tactic(auto, unfolding(crate::specs::Step::step_by))]
pub fn step<M: Memory>(
    rule: Option<Rule>,
    mask: Option<u64>,
    mem: &M,
    at: &State,
) -> (Frame, Result<State, Stop>)
    ensures { result ≡ spec.step_by rule mask (M.regions mem.now) at.now }
{
    let pc = at.pc;
    let Some(rule) = rule else {
        return (Frame { pc, cfa: None }, Err(Stop::Outside(at.asked())));
    };
    match base_of(rule.base, at) {
        Value::Known(base) => {
            let frame_address = moved(base, rule.cfa);
            let frame = Frame {
                pc,
                cfa: Some(frame_address),
            };
            (frame, caller_of(&rule, mask, mem, at, frame_address))
        }
        Value::Unreadable(place) => (Frame { pc, cfa: None }, Err(Stop::Unreadable(place))),
    }
}
