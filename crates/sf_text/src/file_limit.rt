//! The line of an item that is too long.

ghost use Rattle.std.specs.Prelude.{◌≡◌, OnOk, OnErr};
ghost use Rattle.sf_base.specs.Written.{Appends, AppendsPrefix};
ghost use Rattle.sf_base.specs.Faults.{Cause};
ghost use Rattle.sf_text.specs.Merged.{file_limit_text};

use crate::buffer::{Buffer, push_decimal, push_text};
use sf_base::{Failed, Sink, put_all};

/// Appends the line `limit file ITEM` to the sink. Allocates nothing.
///
/// # Errors
///
/// `Failed` where a write of the sink failed. A prefix of the line was appended then.
pub fn file_limit_line<S: Sink>(sink: &mut S, item: u32) -> Result<(), Failed>
    ensures all { OnOk result (Appends ((S.seen sink.old).written) ((S.seen sink.new).written) (file_limit_text item)) }
    ensures prefix { OnErr result (AppendsPrefix ((S.seen sink.old).written) ((S.seen sink.new).written) (file_limit_text item)) }
    ensures cause { Cause ((S.seen sink.old).faults) ((S.seen sink.new).faults) result }
{
    put_all(sink, line_of(item).as_slice())
}

/// Returns the line.
#[tactic(auto, unfolding(crate::specs::Merged::file_limit_text))]
fn line_of(item: u32) -> Buffer
    ensures { result.items ≡ file_limit_text item }
{
    let mut line = Buffer::new();
    push_text(&mut line, b"limit file ");
    push_decimal(&mut line, u64::from(item));
    push_text(&mut line, b"\n");
    line
}
