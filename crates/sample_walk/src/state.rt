//! Where a walk is.

ghost use Rattle.std.specs.Prelude.{◌≡◌};
ghost use Rattle.sample_walk.specs.Step as spec;

use sf_model::moved;

/// A register's value in a frame.
#[derive(Clone, Copy)]
pub enum Value {
    /// It is known.
    Known(u64),
    /// It is saved in the eight bytes from this address on, which can't be read.
    Unreadable(u64),
}

/// The state of a walk: the registers of a frame.
#[derive(Clone, Copy)]
pub struct State {
    /// The program counter.
    pub pc: u64,
    /// The stack pointer: rsp, or sp.
    pub sp: u64,
    /// The frame pointer: rbp, or x29.
    pub fp: Value,
    /// The link register x30 on AArch64. On AMD64 no row reads it.
    pub lr: u64,
    /// Whether a call returns to the program counter. Then its row is looked up at the address before.
    pub returned: bool,
}

impl State {
    /// Returns the address at which the frame's row is looked up.
    pub fn asked(&self) -> u64
        ensures { result ≡ spec.asked_at self.now }
    {
        if self.returned {
            moved(self.pc, -1)
        } else {
            self.pc
        }
    }
}
