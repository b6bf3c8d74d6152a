//! The memory of a core file that was read, whole or by parts.

use crate::partial_memory::PartialMemory;
use core_notes::CoreMemory;
use sf_model::{Memory, Stop};

/// The memory of a core file, as far as it was read, put in order for many reads. A read of what wasn't gives none.
#[derive(Drop)]
pub enum InputMemory<'a> {
    /// The core file was read whole.
    Whole(CoreMemory<'a>),
    /// Parts of it were read.
    Parts(PartialMemory<'a>),
}

impl<'a> InputMemory<'a> {
    ghost use Rattle.std.specs.Prelude.{◌≡◌, true, MatchOption};
    ghost use Rattle.core_notes.specs.Memory.{file_regions};
    ghost use Rattle.core_walk.specs.PartWalk.{IsPartOf};
    ghost use Rattle.core_parts.specs.Input.{IsEnough, is_part, memory_file, regions_in};

    /// Says that what is read of the memory is read of the whole memory.
    pub fn is_of_file(&self)
        ensures { IsPartOf (regions_in self.now) (file_regions (memory_file self.now)) }
    {}

    /// Returns the address that has to be read for a walk that stopped so: at eight bytes that weren't read, and that the
    /// whole memory has.
    pub fn missed(&self, stop: Stop) -> Option<u64>
        ensures { MatchOption result (IsEnough self.now stop) (λ address. is_part self.now ≡ true) }
    {
        let InputMemory::Parts(memory) = self else {
            return None;
        };
        match stop {
            Stop::Unreadable(address) => memory.holds(address).then_some(address),
            Stop::Depth | Stop::Outside(_) | Stop::Signed(_) => None,
        }
    }
}

impl<'a> Memory for InputMemory<'a> {
    ghost use Rattle.core_parts.specs.Input.{regions_in};

    ghost regions = { regions_in };

    fn read8(&self, address: u64) -> Option<u64> {
        match self {
            InputMemory::Whole(memory) => memory.read8(address),
            InputMemory::Parts(memory) => memory.memory.read8(address),
        }
    }
}
