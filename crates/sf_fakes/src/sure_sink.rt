// A sink that never fails.
ghost use Rattle.std.specs.Prelude.{◌≡◌, ◌+◌, ◌-◌, ◌^◌, min, length, None, Ok};

use sf_base::{Failed, Sink};

/// A sink that keeps only the number of its bytes. The bytes are not known; it allocates nothing and never
/// fails.
#[derive(Clone, Copy, PartialEq, Eq)]
pub struct SureSink {
    count: u64,
}

impl SureSink {
    /// Creates an empty sink.
    pub fn new() -> SureSink
        ensures { result.count ≡ 0 }
    {
        SureSink { count: 0 }
    }

    /// Returns how many bytes were written. The count stops at `u64::MAX`.
    pub fn count(&self) -> u64
        ensures { result ≡ self.now.count }
    {
        self.count
    }
}

impl Sink for SureSink {
    ghost seen = { λ _. record { written = None; faults = 0 } };

    fn write(&mut self, piece: &[u8]) -> Result<usize, Failed>
        ensures all { result ≡ Ok (length piece.now) }
        ensures count { self.new.count ≡ min (self.old.count + length piece.now) (2 ^ 64 - 1) }
    {
        self.count = self.count.saturating_add(piece.len() as u64);
        Ok(piece.len())
    }
}
