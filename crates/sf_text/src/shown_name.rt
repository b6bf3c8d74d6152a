//! A name as a line prints it.

ghost use Rattle.std.specs.Prelude.{◌≡◌, ◌≤◌, ◌+◌, ◌*◌, ◌++◌, length, OnOk, OnErr};
ghost use Rattle.std.specs.List.{flat_map};
ghost use Rattle.arrayvec.specs.ArrayVec.{array_vec_len};
ghost use Rattle.sf_base.specs.Written.{Appends, AppendsPrefix};
ghost use Rattle.sf_base.specs.Faults.{Cause};
ghost use Rattle.sf_text.specs.ShownName.{byte_text, shown_character, shown_name};

use crate::buffer::{Buffer, make_room, push_text};
use crate::digits::glyph;
use sf_base::{Failed, Sink, put_all};

/// Appends a name to the sink as a line prints it. Allocates nothing.
///
/// # Errors
///
/// `Failed` where a write of the sink failed. A prefix of the printed name was appended then.
pub fn put_name<S: Sink>(sink: &mut S, name: &str) -> Result<(), Failed>
    ensures all { OnOk result (Appends ((S.seen sink.old).written) ((S.seen sink.new).written) (shown_name name.now)) }
    ensures prefix { OnErr result (AppendsPrefix ((S.seen sink.old).written) ((S.seen sink.new).written) (shown_name name.now)) }
    ensures cause { Cause ((S.seen sink.old).faults) ((S.seen sink.new).faults) result }
{
    let mut buffer = Buffer::new();
    for character in name.chars() {
        make_room(sink, &mut buffer)?;
        push_character(&mut buffer, character);
    }
    put_all(sink, buffer.as_slice())
}

/// Appends a character as a line prints it.
#[tactic(auto, unfolding(crate::specs::ShownName::shown_character))]
fn push_character(buffer: &mut Buffer, character: char)
    requires { array_vec_len buffer.old + 160 ≤ 8192 }
    ensures { buffer.new.items ≡ buffer.old.items ++ shown_character character }
{
    let mut bytes = [0; 4];
    let text = character.encode_utf8(&mut bytes);
    if character.is_control() {
        push_digits(buffer, text.as_bytes());
    } else {
        push_text(buffer, text.as_bytes());
    }
}

/// Appends each byte as `\x` and two digits of base 16.
fn push_digits(buffer: &mut Buffer, bytes: &[u8])
    requires { array_vec_len buffer.old + 4 * length bytes.now ≤ 8192 }
    ensures items { buffer.new.items ≡ buffer.old.items ++ flat_map byte_text bytes.now }
    ensures len { array_vec_len buffer.new ≡ array_vec_len buffer.old + 4 * length bytes.now }
{
    for byte in bytes {
        push_text(buffer, b"\\x");
        push_text(
            buffer,
            &[glyph(u64::from(*byte) / 16), glyph(u64::from(*byte) % 16)],
        );
    }
}
