//! What a row recovers of the caller's frame (SFrame Version 2, frame row entries).

ghost use Rattle.std.specs.Prelude.{◌≡◌, IsTrue};
ghost use Rattle.sf_model.specs.Content.{content_fits};
ghost use Rattle.sf_model.specs.Recovery.{base_value, key_if_signed, known, moved, pointer_place, recovered, recovery, return_place, saved_or_kept};

use crate::content::{Content, Ra};
use crate::machine::{Arch, Base, Key};
use crate::memory::Memory;

/// The registers that a row reads.
#[derive(Clone, Copy, Debug, PartialEq, Eq)]
pub struct Regs {
    /// The stack pointer: rsp, or sp.
    pub sp: u64,
    /// The frame pointer: rbp, or x29.
    pub fp: u64,
    /// The link register x30 on AArch64. On AMD64 nothing reads it.
    pub lr: u64,
}

/// What is recovered of the caller's frame.
#[derive(Clone, Copy, Debug, PartialEq, Eq)]
pub struct Recovered {
    /// The canonical frame address, which is the caller's stack pointer.
    pub cfa: u64,
    /// The return address with its signature, or none if its eight bytes can't be read.
    pub ra: Option<u64>,
    /// The caller's frame pointer, or none if its eight bytes can't be read.
    pub fp: Option<u64>,
    /// The key that signed the return address, or none if it is unsigned.
    pub signed: Option<Key>,
}

/// Returns the address `by` bytes further on, modulo 2^64.
#[tactic(auto, using(crate::proofs::Addresses::moved_by))]
pub fn moved(address: u64, by: i32) -> u64
    ensures { result ≡ moved address by }
{
    address.wrapping_add_signed(i64::from(by))
}

/// Returns the value that is saved at a place, or the present one if it isn't saved.
fn saved_or_kept<M: Memory>(place: Option<u64>, present: u64, memory: &M) -> Option<u64>
    ensures { result ≡ known (saved_or_kept (M.regions memory.now) present place) }
{
    match place {
        Some(address) => memory.read8(address),
        None => Some(present),
    }
}

/// Returns where the return address is saved, or none if it is in the link register.
fn return_place(ra: Ra, frame_address: u64) -> Option<u64>
    ensures { result ≡ return_place ra frame_address }
{
    match ra {
        Ra::Fixed => Some(moved(frame_address, -8)),
        Ra::Link => None,
        Ra::At(offset) => Some(moved(frame_address, offset)),
    }
}

/// Returns where the frame pointer is saved, or none if it isn't.
fn pointer_place(offset: Option<i32>, frame_address: u64) -> Option<u64>
    ensures { result ≡ pointer_place offset frame_address }
{
    match offset {
        Some(offset) => Some(moved(frame_address, offset)),
        None => None,
    }
}

/// Returns the present value of the register that the canonical frame address counts from.
fn base_value(base: Base, regs: &Regs) -> u64
    ensures { result ≡ base_value base regs.now }
{
    match base {
        Base::Fp => regs.fp,
        Base::Sp => regs.sp,
    }
}

/// Returns the key, if the return address is signed.
fn key_if_signed(signed: bool, key: Key) -> Option<Key>
    ensures { result ≡ key_if_signed signed key }
{
    if signed { Some(key) } else { None }
}

/// Returns what a row's content recovers: the canonical frame address, the return address and the frame
/// pointer of the caller, by the function's key, the present registers and the memory. The content fits the
/// machine.
#[tactic(auto, unfolding(crate::specs::Recovery::recovery))]
pub fn recover<M: Memory>(
    arch: Arch,
    content: &Content,
    key: Key,
    regs: &Regs,
    mem: &M,
) -> Recovered
    requires { IsTrue (content_fits arch content.now) }
    ensures { result ≡ recovered (recovery content.now key regs.now (M.regions mem.now)) }
{
    let cfa = moved(base_value(content.base, regs), content.cfa);
    Recovered {
        cfa,
        ra: saved_or_kept(return_place(content.ra, cfa), regs.lr, mem),
        fp: saved_or_kept(pointer_place(content.fp, cfa), regs.fp, mem),
        signed: key_if_signed(content.signed, key),
    }
}
