//! The memory of a core file of which parts were read.

ghost use Rattle.std.specs.Prelude.{◌≡◌};
ghost use Rattle.core_parts.specs.PartMemory.{part_regions};
ghost use Rattle.core_parts.specs.Read.{regions_read};

use crate::memory::PartMemory;
use crate::partial_core::PartialCore;
use crate::segment::head_holds;

/// The memory of a core file, as far as parts of the file were read, put in order for many reads; and the core file, which
/// tells what wasn't read from what isn't there.
#[derive(Drop)]
pub struct PartialMemory<'a> {
    /// The core file.
    pub core: &'a PartialCore,
    /// What was read of its memory.
    pub memory: PartMemory<'a>,
    ghost heads_are: { memory.heads.now ≡ core.now.core.head.heads.items },
    ghost blocks_are: { part_regions memory ≡ regions_read core.now.core.head.heads.items core.now.core.file.parts.items },
}

impl<'a> PartialMemory<'a> {
    ghost use Rattle.std.specs.Prelude.{is_some};
    ghost use Rattle.core_notes.specs.Memory.{file_regions};
    ghost use Rattle.core_notes.specs.MemoryBytes as held;
    ghost use Rattle.core_parts.specs.Partial.{partial_file};
    ghost use Rattle.sf_model.specs.Memory.{read_eight};

    /// Returns whether the whole memory has `len` bytes from an address on in one segment, read or not.
    pub fn holds_bytes(&self, address: u64, len: u64) -> bool
        ensures { result ≡ is_some (held.bytes_at (file_regions (partial_file self.now.core.now)) address len) }
    {
        if len == 0 {
            return self.core.holds_bytes(address, len);
        }
        match self.memory.segment_at(address) {
            Some(head) => head_holds(&head, address, len),
            None => false,
        }
    }

    /// Returns whether the whole memory has the eight bytes from an address on, read or not.
    pub fn holds(&self, address: u64) -> bool
        ensures { result ≡ is_some (read_eight (file_regions (partial_file self.now.core.now)) address) }
    {
        address <= u64::MAX - 7 && self.holds_bytes(address, 8)
    }
}
