//! Writing one line to a sink, part by part, so that nothing is allocated.

ghost use Rattle.std.specs.Prelude.{◌++◌, OnOk, OnErr};
ghost use Rattle.sf_base.specs.Written.{Appends, AppendsPrefix};
ghost use Rattle.sf_base.specs.Faults.{Cause};
ghost use Rattle.sf_text.specs.ShownName.{shown_name};
ghost use Rattle.sf_run.specs.Lines.{Says, line};

use sf_base::{Failed, Sink, put_all};
use sf_text::put_name;

fn put_line<S: Sink>(sink: &mut S, text: &str) -> Result<(), Failed>
    ensures all { OnOk result (Appends ((S.seen sink.old).written) ((S.seen sink.new).written) (line text.now)) }
    ensures prefix { OnErr result (AppendsPrefix ((S.seen sink.old).written) ((S.seen sink.new).written) (line text.now)) }
    ensures cause { Cause ((S.seen sink.old).faults) ((S.seen sink.new).faults) result }
{
    put_all(sink, text.as_bytes())?;
    put_all(sink, b"\n")
}

fn put_name_line<S: Sink>(sink: &mut S, front: &str, name: &str) -> Result<(), Failed>
    ensures all { OnOk result (Appends ((S.seen sink.old).written) ((S.seen sink.new).written) (line (front.now ++ shown_name name.now))) }
    ensures prefix { OnErr result (AppendsPrefix ((S.seen sink.old).written) ((S.seen sink.new).written) (line (front.now ++ shown_name name.now))) }
    ensures cause { Cause ((S.seen sink.old).faults) ((S.seen sink.new).faults) result }
{
    put_all(sink, front.as_bytes())?;
    put_name(sink, name)?;
    put_all(sink, b"\n")
}

/// Writes one line: the text and a line feed. If the sink fails, it got a prefix of the line.
pub fn print_line<S: Sink>(sink: &mut S, text: &str)
    ensures { Says (S.seen sink.old) (S.seen sink.new) (line text.now) }
{
    let _ = put_line(sink, text);
}

/// Writes lines. If the sink fails, it got a prefix of them.
pub fn print_lines<S: Sink>(sink: &mut S, lines: &[u8])
    ensures { Says (S.seen sink.old) (S.seen sink.new) lines.now }
{
    let _ = put_all(sink, lines);
}

/// Writes one line that ends with a name, in which control characters are shown as `\xNN`, byte by byte.
pub fn print_name<S: Sink>(sink: &mut S, front: &str, name: &str)
    ensures { Says (S.seen sink.old) (S.seen sink.new) (line (front.now ++ shown_name name.now)) }
{
    let _ = put_name_line(sink, front, name);
}
