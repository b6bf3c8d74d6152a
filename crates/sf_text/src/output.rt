//! What a run prints.

ghost use Rattle.std.specs.Prelude.{OnOk, OnErr};
ghost use Rattle.sf_base.specs.Faults.{Cause};
ghost use Rattle.sf_base.specs.Written.{Appends, AppendsPrefix};
ghost use Rattle.sf_text.specs.Output.{output_text};

use crate::section_dump::put_dump;
use sf_base::{Failed, Sink, put_all};
use sf_decode::View;

/// What a run prints.
#[derive(Drop)]
pub enum Output<'a> {
    /// A text that was made.
    Text(Vec<u8>),
    /// The whole content of a section. Its text is written in pieces, and never held whole.
    Section(View<'a>),
    /// A text, and lines about it for the errors.
    Noted { text: Vec<u8>, notes: Vec<u8> },
}

/// Appends what a run prints to the sink, without its notes. Allocates nothing.
///
/// # Errors
///
/// `Failed` where a write of the sink failed. A prefix of the text was appended then.
pub fn put_output<S: Sink>(sink: &mut S, output: &Output<'_>) -> Result<(), Failed>
    ensures all { OnOk result (Appends ((S.seen sink.old).written) ((S.seen sink.new).written) (output_text output.now)) }
    ensures prefix { OnErr result (AppendsPrefix ((S.seen sink.old).written) ((S.seen sink.new).written) (output_text output.now)) }
    ensures cause { Cause ((S.seen sink.old).faults) ((S.seen sink.new).faults) result }
{
    match output {
        Output::Text(text) => put_all(sink, text),
        Output::Section(view) => put_dump(sink, view),
        Output::Noted { text, .. } => put_all(sink, text),
    }
}
