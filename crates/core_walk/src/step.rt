//! One step of a walk, from a frame to its caller.

ghost use Rattle.std.specs.Prelude.{◌≡◌, Some, ℕ};
ghost use Rattle.sf_model.specs.Recovery as recovering;
ghost use Rattle.sf_model.specs.Walk.{address_before, recover_by, unsigned_address};
ghost use Rattle.core_walk.specs.Step.{GoesOnBy, Steps};

use crate::look_up::LookUp;
use sf_model::{Content, Frame, Key, Memory, Ra, Recovered, Regs, Stop, moved, recover};

/// Where the walk goes on.
#[derive(Clone, Copy)]
pub struct Caller {
    /// The address that the frame returns to.
    pub pc: u64,
    /// The caller's registers.
    pub regs: Regs,
}

/// Returns the address before this one, modulo 2^64: a call ends there, and may be the last of its function.
pub fn address_before(pc: u64) -> u64
    ensures { result ≡ address_before pc }
{
    moved(pc, -1)
}

// Returns a return address without its signature. None where it is signed and the thread has no mask.
fn unsigned_address(signed: Option<Key>, mask: Option<u64>, address: u64) -> Option<u64>
    ensures { result ≡ unsigned_address signed mask address }
{
    match (signed, mask) {
        (None, _) => Some(address),
        (Some(_), None) => None,
        (Some(_), Some(mask)) => Some(address & !mask),
    }
}

// Returns where a return address is saved that can't be read; one in the link register is known.
fn return_place(ra: Ra, frame_address: u64) -> u64
    ensures { (place : ℕ) → recovering.return_place ra frame_address ≡ Some place → place ≡ result }
{
    match ra {
        Ra::At(offset) => moved(frame_address, offset),
        Ra::Fixed | Ra::Link => moved(frame_address, -8),
    }
}

// Returns where a frame pointer is saved that can't be read; one that isn't saved is known.
fn pointer_place(offset: Option<i32>, frame_address: u64) -> u64
    ensures { (place : ℕ) → recovering.pointer_place offset frame_address ≡ Some place → place ≡ result }
{
    match offset {
        Some(offset) => moved(frame_address, offset),
        None => frame_address,
    }
}

// Returns the caller of a frame, by the row's content and what it recovers, or why the walk stops. The return address
// is checked before the frame pointer. The caller's link register is the return address with its signature.
fn caller_of(content: &Content, mask: Option<u64>, recovered: &Recovered) -> Result<Caller, Stop>
    ensures { GoesOnBy content.now mask recovered.now result }
{
    let frame_address = recovered.cfa;
    let Some(address) = recovered.ra else {
        return Err(Stop::Unreadable(return_place(content.ra, frame_address)));
    };
    let Some(fp) = recovered.fp else {
        return Err(Stop::Unreadable(pointer_place(content.fp, frame_address)));
    };
    let Some(pc) = unsigned_address(recovered.signed, mask, address) else {
        return Err(Stop::Signed(address));
    };
    Ok(Caller {
        pc,
        regs: Regs {
            sp: frame_address,
            fp,
            lr: address,
        },
    })
}

/// Returns the frame at a program counter, and its caller or why the walk stops. The row is looked up at the asked
/// address.
pub fn step<L: LookUp, M: Memory>(
    rows: &L,
    mask: Option<u64>,
    mem: &M,
    asked: u64,
    at: &Caller,
) -> (Frame, Result<Caller, Stop>)
    ensures { Steps (recover_by (L.found_at rows.now) (M.regions mem.now)) mask asked at.now result.0 result.1 }
{
    let pc = at.pc;
    let Some((arch, found)) = rows.look_up(asked) else {
        return (Frame { pc, cfa: None }, Err(Stop::Outside(asked)));
    };
    let content = &found.row.content;
    let recovered = recover(arch, content, found.func.key, &at.regs, mem);
    let frame = Frame {
        pc,
        cfa: Some(recovered.cfa),
    };
    (frame, caller_of(content, mask, &recovered))
}
