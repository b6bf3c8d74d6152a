// A stream of the machine, such as its standard output.
ghost use Rattle.std.specs.Prelude.{◌≡◌, None};

use crate::fault::count_fault;
use crate::{Failed, Sink};
use std::io::Write;

/// A stream of the machine. What was written to it is not known: what the machine does with the bytes is
/// outside what is proved.
#[derive(Drop)]
pub struct HostSink<W: Write + Drop> {
    writer: W,
    faults: u64,
}

impl<W: Write + Drop> HostSink<W> {
    /// Wraps this writer, with no fault counted.
    pub fn new(writer: W) -> HostSink<W>
        ensures writer { result.writer ≡ writer }
        ensures faults { (⟦<HostSink<W> as Sink>⟧.seen result).faults ≡ 0 }
    {
        HostSink { writer, faults: 0 }
    }
}

impl<W: Write + Drop> Sink for HostSink<W> {
    ghost seen = { λ sink. record { written = None; faults = sink.faults } };

    fn write(&mut self, piece: &[u8]) -> Result<usize, Failed> {
        match self.writer.write(piece) {
            // A stream that accepts no bytes would be retried for ever.
            Ok(n) if n > 0 => Ok(n),
            _ => {
                count_fault(&mut self.faults);
                Err(Failed)
            }
        }
    }
}
