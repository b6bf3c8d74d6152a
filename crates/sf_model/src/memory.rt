//! The memory that a stack walk reads.

ghost use Rattle.std.specs.Prelude.{◌≡◌, List};
ghost use Rattle.sf_model.specs.Memory.{Region, read_eight};

/// Memory as a list of regions, each a run of bytes at an address.
pub trait Memory {
    /// The regions in their order.
    ghost regions: { Self → List Region };

    /// Returns the little-endian number in the eight bytes from `address` on, by the first region that
    /// holds all eight, or `None` if no region does or if they would pass the end of the addresses.
    fn read8(&self, address: u64) -> Option<u64>
        ensures { result ≡ read_eight (regions self.now) address };
}
