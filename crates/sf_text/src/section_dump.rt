//! The text of a section.

ghost use Rattle.std.specs.Prelude.{◌≡◌, ◌<◌, ◌≤◌, ◌+◌, ◌++◌, codes, length, OnOk, OnErr};
ghost use Rattle.std.specs.Fmt.{decimal};
ghost use Rattle.std.specs.List.{flat_map};
ghost use Rattle.arrayvec.specs.ArrayVec.{array_vec_len};
ghost use Rattle.sf_base.specs.Faults.{Cause};
ghost use Rattle.sf_base.specs.Written.{Appends, AppendsPrefix};
ghost use Rattle.sf_decode.specs.View.{function_of, rows_left, table_of};
ghost use Rattle.sf_text.specs.Dump.{arch_text, kind_text, key_text, section_line, function_line, row_line, function_text, dump_text};
ghost use Rattle.sf_text.specs.Gathered.{Gathers};
ghost use Rattle.sf_text.specs.Number.{hexadecimal_text};

use crate::buffer::{Buffer, make_room, push_decimal, push_hexadecimal, push_text};
use crate::content::push_row;
use sf_base::{Failed, Sink, put_all};
use sf_decode::{RowIter, View, functions_are_numbered};
use sf_model::{Arch, FuncHead, Key, Row, Shape};

/// Appends the content of a section to the sink, in pieces: a line for the section, and for each function,
/// in the section's order, a line and the lines of its rows. Allocates nothing.
///
/// # Errors
///
/// `Failed` where a write of the sink failed. A prefix of the text was appended then.
pub fn put_dump<S: Sink>(sink: &mut S, view: &View<'_>) -> Result<(), Failed>
    ensures all { OnOk result (Appends ((S.seen sink.old).written) ((S.seen sink.new).written) (dump_text (table_of view.now))) }
    ensures prefix { OnErr result (AppendsPrefix ((S.seen sink.old).written) ((S.seen sink.new).written) (dump_text (table_of view.now))) }
    ensures cause { Cause ((S.seen sink.old).faults) ((S.seen sink.new).faults) result }
{
    let mut buffer = Buffer::new();
    push_section(
        &mut buffer,
        view.arch(),
        view.flags(),
        view.len(),
        view.row_count(),
    );
    put_functions(sink, &mut buffer, view)?;
    put_all(sink, buffer.as_slice())
}

/// Appends the section's line.
#[tactic(auto, unfolding(crate::specs::Dump::section_line))]
fn push_section(buffer: &mut Buffer, arch: Arch, flags: u8, functions: u32, rows: u32)
    requires { array_vec_len buffer.old + 160 ≤ 8192 }
    ensures { buffer.new.items ≡ buffer.old.items ++ section_line arch flags functions rows }
{
    push_machine(buffer, arch, flags);
    push_counts(buffer, functions, rows);
}

/// Appends the machine and the flags.
fn push_machine(buffer: &mut Buffer, arch: Arch, flags: u8)
    requires { array_vec_len buffer.old + 50 ≤ 8192 }
    ensures items { buffer.new.items ≡ buffer.old.items ++ (codes "sframe 2 " ++ arch_text arch ++ codes " flags " ++ hexadecimal_text flags) }
    ensures len { array_vec_len buffer.new ≤ array_vec_len buffer.old + 50 }
{
    push_text(buffer, b"sframe 2 ");
    push_text(buffer, name_of_arch(arch));
    push_text(buffer, b" flags ");
    push_hexadecimal(buffer, u64::from(flags));
}

/// Appends the numbers of functions and rows.
fn push_counts(buffer: &mut Buffer, functions: u32, rows: u32)
    requires { array_vec_len buffer.old + 58 ≤ 8192 }
    ensures items { buffer.new.items ≡ buffer.old.items ++ (codes " functions " ++ decimal functions ++ codes " rows " ++ decimal rows ++ codes "\n") }
    ensures len { array_vec_len buffer.new ≤ array_vec_len buffer.old + 58 }
{
    push_text(buffer, b" functions ");
    push_decimal(buffer, u64::from(functions));
    push_text(buffer, b" rows ");
    push_decimal(buffer, u64::from(rows));
    push_text(buffer, b"\n");
}

/// Appends the functions with their rows.
fn put_functions<S: Sink>(sink: &mut S, buffer: &mut Buffer, view: &View<'_>) -> Result<(), Failed>
    ensures all { OnOk result (Gathers ((S.seen sink.old).written) ((S.seen sink.new).written) buffer.old.items buffer.new.items (flat_map function_text (table_of view.now).functions)) }
    ensures prefix { OnErr result (AppendsPrefix ((S.seen sink.old).written) ((S.seen sink.new).written) (buffer.old.items ++ flat_map function_text (table_of view.now).functions)) }
    ensures cause { Cause ((S.seen sink.old).faults) ((S.seen sink.new).faults) result }
{
    functions_are_numbered(view);
    for i in 0..view.len() {
        put_function(sink, buffer, view, i)?;
    }
    Ok(())
}

/// Appends a function's line and its rows.
fn put_function<S: Sink>(
    sink: &mut S,
    buffer: &mut Buffer,
    view: &View<'_>,
    i: u32,
) -> Result<(), Failed>
    requires { i < length (table_of view.now).functions }
    ensures all { OnOk result (Gathers ((S.seen sink.old).written) ((S.seen sink.new).written) buffer.old.items buffer.new.items (function_text (function_of view.now i))) }
    ensures prefix { OnErr result (AppendsPrefix ((S.seen sink.old).written) ((S.seen sink.new).written) (buffer.old.items ++ function_text (function_of view.now i))) }
    ensures cause { Cause ((S.seen sink.old).faults) ((S.seen sink.new).faults) result }
{
    make_room(sink, buffer)?;
    push_head(buffer, &view.func(i));
    put_rows(sink, buffer, view.rows(i))
}

/// Appends a function's line.
#[tactic(auto, unfolding(crate::specs::Dump::function_line))]
fn push_head(buffer: &mut Buffer, head: &FuncHead)
    requires { array_vec_len buffer.old + 160 ≤ 8192 }
    ensures { buffer.new.items ≡ buffer.old.items ++ function_line head.now }
{
    push_span(buffer, head.start, head.size);
    push_kind(buffer, head.shape);
    push_text(buffer, b" key ");
    push_text(buffer, name_of_key(head.key));
    push_text(buffer, b" rows ");
    push_decimal(buffer, u64::from(head.rows));
    push_text(buffer, b"\n");
}

/// Appends a function's start and size.
fn push_span(buffer: &mut Buffer, start: u64, size: u32)
    requires { array_vec_len buffer.old + 54 ≤ 8192 }
    ensures items { buffer.new.items ≡ buffer.old.items ++ (codes "func " ++ hexadecimal_text start ++ codes " size " ++ decimal size ++ codes " ") }
    ensures len { array_vec_len buffer.new ≤ array_vec_len buffer.old + 54 }
{
    push_text(buffer, b"func ");
    push_hexadecimal(buffer, start);
    push_text(buffer, b" size ");
    push_decimal(buffer, u64::from(size));
    push_text(buffer, b" ");
}

/// Appends how a function's rows are looked up.
fn push_kind(buffer: &mut Buffer, shape: Shape)
    requires { array_vec_len buffer.old + 27 ≤ 8192 }
    ensures items { buffer.new.items ≡ buffer.old.items ++ kind_text shape }
    ensures len { array_vec_len buffer.new ≤ array_vec_len buffer.old + 27 }
{
    match shape {
        Shape::Plain => push_text(buffer, b"plain"),
        Shape::Repeat(size) => {
            push_text(buffer, b"repeat ");
            push_decimal(buffer, u64::from(size));
        }
    }
}

/// Appends a function's rows.
fn put_rows<S: Sink>(sink: &mut S, buffer: &mut Buffer, rows: RowIter<'_>) -> Result<(), Failed>
    ensures all { OnOk result (Gathers ((S.seen sink.old).written) ((S.seen sink.new).written) buffer.old.items buffer.new.items (flat_map row_line (rows_left rows.entry))) }
    ensures prefix { OnErr result (AppendsPrefix ((S.seen sink.old).written) ((S.seen sink.new).written) (buffer.old.items ++ flat_map row_line (rows_left rows.entry))) }
    ensures cause { Cause ((S.seen sink.old).faults) ((S.seen sink.new).faults) result }
{
    for row in rows {
        make_room(sink, buffer)?;
        push_line(buffer, &row);
    }
    Ok(())
}

/// Appends a row's line.
#[tactic(auto, unfolding(crate::specs::Dump::row_line, crate::specs::Content::row_text))]
fn push_line(buffer: &mut Buffer, row: &Row)
    requires { array_vec_len buffer.old + 160 ≤ 8192 }
    ensures { buffer.new.items ≡ buffer.old.items ++ row_line row.now }
{
    push_row(buffer, b"  +", row);
    push_text(buffer, b"\n");
}

/// Returns the name of a machine.
fn name_of_arch(arch: Arch) -> &'static [u8]
    ensures value { result.now ≡ arch_text arch }
    ensures len { length result.now ≤ 7 }
{
    match arch {
        Arch::Amd64 => b"amd64",
        Arch::Aarch64 => b"aarch64",
    }
}

/// Returns the name of a key of signed return addresses.
fn name_of_key(key: Key) -> &'static [u8]
    ensures value { result.now ≡ key_text key }
    ensures len { length result.now ≡ 1 }
{
    match key {
        Key::A => b"a",
        Key::B => b"b",
    }
}
