// A sink in memory.
ghost use Rattle.std.specs.Prelude.{◌≡◌, ◌<◌, ◌++◌, [], Some, IfOk, IsErr, is_ok, length, min, take, if◌then◌else◌};
ghost use Rattle.sf_base.specs.Faults.{Cause, one_more};
ghost use Rattle.sf_fakes.specs.Calls.{IsListed, next_call};

use crate::calls::Calls;
use sf_base::{Failed, Sink, count_fault};
use std::alloc::Global;

/// A sink that keeps its bytes in memory, where they are known. One write accepts at most a set number of
/// bytes, and the writes that are listed fail.
#[derive(Drop)]
pub struct MemSink {
    bytes: Vec<u8>,
    most: usize,
    calls: Calls,
    faults: u64,
    ghost some: { 0 < most },
}

impl MemSink {
    /// Creates an empty sink. A write accepts at most `most` bytes. The writes with a number in `fails` are
    /// to fail; the first write is number 1.
    pub fn new(alloc: Global, most: usize, fails: Vec<u64>) -> MemSink
        requires { 0 < most }
        ensures written { (⟦<MemSink as Sink>⟧.seen result).written ≡ Some [] }
        ensures faults { (⟦<MemSink as Sink>⟧.seen result).faults ≡ 0 }
        ensures most { result.most ≡ most }
        ensures made { result.calls.made ≡ 0 }
        ensures fails { result.calls.fails.items ≡ fails.items }
    {
        MemSink {
            bytes: Vec::new(alloc),
            most,
            calls: Calls::new(fails),
            faults: 0,
        }
    }

    /// Returns all the bytes that were written.
    pub fn bytes(&self) -> &[u8]
        ensures { (⟦<MemSink as Sink>⟧.seen self.now).written ≡ Some result.now }
    {
        &self.bytes
    }
}

impl Sink for MemSink {
    ghost seen = { λ sink. record { written = Some sink.bytes.items; faults = sink.faults } };

    fn write(&mut self, piece: &[u8]) -> Result<usize, Failed>
        ensures listed { IsListed self.old.calls.fails.items self.old.calls.made → IsErr result }
        ensures count { IfOk result (λ n. n ≡ min (length piece.now) self.old.most) }
        ensures bytes { self.new.bytes.items ≡ (if is_ok result
            then self.old.bytes.items ++ take (min (length piece.now) self.old.most) piece.now
            else self.old.bytes.items) }
        ensures faults { self.new.faults ≡
            (if is_ok result then self.old.faults else one_more self.old.faults) }
        ensures cause { Cause self.old.faults self.new.faults result }
        ensures made { self.new.calls.made ≡ next_call self.old.calls.made }
        ensures fails { self.new.calls.fails.items ≡ self.old.calls.fails.items }
        ensures most { self.new.most ≡ self.old.most }
    {
        let n = piece.len().min(self.most);
        if self.calls.fails_next() || self.bytes.extend_from_slice(&piece[..n]).is_err() {
            count_fault(&mut self.faults);
            return Err(Failed);
        }
        Ok(n)
    }
}
