//! Samples, as C has them.

ghost use Rattle.std.specs.Prelude.{◌≡◌, ◌∷◌, []};
ghost use Rattle.sf_c.specs.Sample as spec;

use sf_model::{Memory, Regs};

/// A thread as it was stopped, and a copy of a part of its stack.
#[repr(C)]
#[derive(Clone, Copy)]
pub struct KiblawenSample<'a> {
    /// The program counter.
    pub pc: u64,
    /// The stack pointer: rsp, or sp.
    pub sp: u64,
    /// The frame pointer: rbp, or x29.
    pub fp: u64,
    /// The link register x30 on AArch64. On AMD64 nothing reads it.
    pub lr: u64,
    /// The bits of a return address that hold its signature, if `has_mask` isn't 0.
    pub mask: u64,
    /// 0 if the mask isn't known, as on AMD64.
    pub has_mask: u32,
    /// The bytes that were copied from the stack.
    pub stack: &'a [u8],
    /// The address of the first of those bytes.
    pub stack_start: u64,
}

impl<'a> KiblawenSample<'a> {
    /// Returns the registers that a row reads.
    pub fn registers(&self) -> Regs
        ensures { result ≡ spec.registers_of self.now }
    {
        Regs {
            sp: self.sp,
            fp: self.fp,
            lr: self.lr,
        }
    }

    /// Returns the mask of return addresses, if it is known.
    pub fn known_mask(&self) -> Option<u64>
        ensures { result ≡ spec.mask_of self.now }
    {
        if self.has_mask == 0 {
            None
        } else {
            Some(self.mask)
        }
    }

    /// Returns the memory that a walk reads.
    pub fn memory(&self) -> Stack<'a>
        ensures { spec.one_region result ≡ spec.stack_memory self.now }
    {
        Stack {
            bytes: self.stack,
            start: self.stack_start,
        }
    }
}

/// A run of bytes that was copied from a stack, at its address.
#[derive(Clone, Copy)]
pub struct Stack<'a> {
    bytes: &'a [u8],
    start: u64,
}

impl<'a> Memory for Stack<'a> {
    ghost use Rattle.sf_c.specs.Sample.{one_region};

    ghost regions = { one_region };

    #[tactic(auto, unfolding(sf_model::specs::Memory::read_eight))]
    fn read8(&self, address: u64) -> Option<u64> {
        if address > u64::MAX - 7 || address < self.start {
            return None;
        }
        let offset = address - self.start;
        let len = self.bytes.len() as u64;
        if len < 8 || len - 8 < offset {
            return None;
        }
        let i = offset as usize;
        let b = self.bytes;
        Some(u64::from_le_bytes([
            b[i],
            b[i + 1],
            b[i + 2],
            b[i + 3],
            b[i + 4],
            b[i + 5],
            b[i + 6],
            b[i + 7],
        ]))
    }
}
