//! The content of a section, as one text.

ghost use Rattle.std.specs.Prelude.{◌≡◌, IfOk};
ghost use Rattle.sf_decode.specs.View.{table_of};
ghost use Rattle.sf_text.specs.Dump.{dump_text};

use crate::section_dump::put_dump;
use sf_base::{Failed, NoMemory, Sink};
use sf_decode::View;
use std::alloc::Global;

// A sink that keeps what is written.
#[derive(Drop)]
struct Text {
    bytes: Vec<u8>,
    faults: u64,
}

impl Sink for Text {
    ghost use Rattle.std.specs.Prelude.{Some};

    ghost seen = { λ text. record { written = Some text.bytes.items; faults = text.faults } };

    fn write(&mut self, piece: &[u8]) -> Result<usize, Failed> {
        if self.bytes.extend_from_slice(piece).is_err() {
            self.faults = self.faults.saturating_add(1);
            return Err(Failed);
        }
        Ok(piece.len())
    }
}

/// Returns the content of a section as one text: the one that [`put_output`](crate::put_output)
/// writes in pieces.
///
/// `NoMemory` where memory ran out.
pub fn dump(alloc: Global, view: &View<'_>) -> Result<Vec<u8>, NoMemory>
    ensures { IfOk result (λ text. text.items ≡ dump_text (table_of view.now)) }
{
    let mut text = Text {
        bytes: Vec::new(alloc),
        faults: 0,
    };
    match put_dump(&mut text, view) {
        Ok(()) => Ok(text.bytes),
        Err(_) => Err(NoMemory),
    }
}
