//! The line of a fault.

ghost use Rattle.std.specs.Prelude.{◌≡◌, ◌≤◌, ◌+◌, ◌*◌, ◌++◌, [], length, OnOk, OnErr, if◌then◌else◌};
ghost use Rattle.std.specs.List.{flat_map};
ghost use Rattle.arrayvec.specs.ArrayVec.{array_vec_len};
ghost use Rattle.sf_base.specs.Written.{Appends, AppendsPrefix};
ghost use Rattle.sf_base.specs.Faults.{Cause};
ghost use Rattle.sf_model.specs.Notice.{HasLine, shows_item};
ghost use Rattle.sf_text.specs.FaultLine.{item_text, value_text, fault_text};

use crate::buffer::{Buffer, push_decimal, push_hexadecimal, push_text};
use crate::names::name_of_group;
use sf_base::{Failed, Sink, put_all};
use sf_model::{Group, Notice};

/// Appends the fault's line to the sink. Allocates nothing.
///
/// # Errors
///
/// `Failed` where a write of the sink failed. A prefix of the line was appended then.
pub fn fault_line<S: Sink>(sink: &mut S, notice: &Notice) -> Result<(), Failed>
    requires { HasLine notice.now }
    ensures all { OnOk result (Appends ((S.seen sink.old).written) ((S.seen sink.new).written) (fault_text notice.now)) }
    ensures prefix { OnErr result (AppendsPrefix ((S.seen sink.old).written) ((S.seen sink.new).written) (fault_text notice.now)) }
    ensures cause { Cause ((S.seen sink.old).faults) ((S.seen sink.new).faults) result }
{
    put_all(sink, line_of(notice).as_slice())
}

/// Returns the fault's line.
#[tactic(auto, unfolding(crate::specs::FaultLine::fault_text))]
fn line_of(notice: &Notice) -> Buffer
    requires { HasLine notice.now }
    ensures { result.items ≡ fault_text notice.now }
{
    let mut line = Buffer::new();
    push_text(&mut line, b"refused ");
    push_item(&mut line, notice.fault.group, notice.item);
    push_text(&mut line, name_of_group(notice.fault.group).as_bytes());
    push_text(&mut line, b" ");
    push_text(&mut line, notice.fault.name.as_bytes());
    push_values(&mut line, notice.values.as_slice());
    push_text(&mut line, b"\n");
    line
}

/// Appends the item and a blank, where a line of the group prints an item.
fn push_item(line: &mut Buffer, group: Group, item: Option<u32>)
    requires { array_vec_len line.old + 21 ≤ 8192 }
    ensures items { line.new.items ≡ line.old.items ++ (if shows_item group then item_text item else []) }
    ensures len { array_vec_len line.new ≤ array_vec_len line.old + 21 }
{
    if let (true, Some(item)) = (group != Group::Link, item) {
        push_decimal(line, u64::from(item));
        push_text(line, b" ");
    }
}

/// Appends the values, each after a blank.
#[tactic(auto, unfolding(crate::specs::FaultLine::value_text))]
fn push_values(line: &mut Buffer, values: &[u64])
    requires { array_vec_len line.old + 23 * length values.now ≤ 8192 }
    ensures items { line.new.items ≡ line.old.items ++ flat_map value_text values.now }
    ensures len { array_vec_len line.new ≤ array_vec_len line.old + 23 * length values.now }
{
    for value in values {
        push_text(line, b" ");
        push_hexadecimal(line, *value);
    }
}
