//! Text in a buffer of its own, without allocation, and in pieces to a sink.

ghost use Rattle.std.specs.Prelude.{◌≡◌, ◌≤◌, ◌+◌, ◌++◌, [], length, OnOk, OnErr};
ghost use Rattle.std.specs.Fmt.{decimal};
ghost use Rattle.arrayvec.specs.ArrayVec.{array_vec_len};
ghost use Rattle.sf_base.specs.Written.{AppendsPrefix};
ghost use Rattle.sf_base.specs.Faults.{Cause};
ghost use Rattle.sf_text.specs.Gathered.{Gathers};
ghost use Rattle.sf_text.specs.Number.{hexadecimal_text};

use crate::digits::{MOST, digits_in, glyph, write_decimal};
use arrayvec::ArrayVec;
use sf_base::{Failed, Sink, put_all};

/// The bytes of a buffer.
const SIZE: usize = 8192;

/// The longest line is shorter.
const LINE: usize = 160;

/// A line, or lines that wait to be written.
pub(crate) type Buffer = ArrayVec<u8, SIZE>;

/// Writes what the buffer holds, and empties it, where there is no room for a line.
///
/// # Errors
///
/// `Failed` where a write of the sink failed. A prefix of what the buffer held was appended then.
#[inline(always)]
pub(crate) fn make_room<S: Sink>(sink: &mut S, buffer: &mut Buffer) -> Result<(), Failed>
    ensures room { OnOk result (array_vec_len buffer.new + 160 ≤ 8192) }
    ensures all { OnOk result (Gathers ((S.seen sink.old).written) ((S.seen sink.new).written) buffer.old.items buffer.new.items []) }
    ensures prefix { OnErr result (AppendsPrefix ((S.seen sink.old).written) ((S.seen sink.new).written) buffer.old.items) }
    ensures cause { Cause ((S.seen sink.old).faults) ((S.seen sink.new).faults) result }
{
    if buffer.len() > SIZE - LINE {
        put_all(sink, buffer.as_slice())?;
        buffer.clear();
    }
    Ok(())
}

/// Appends a text.
#[inline(always)]
pub(crate) fn push_text(buffer: &mut Buffer, text: &[u8])
    requires { array_vec_len buffer.old + length text.now ≤ 8192 }
    ensures items { buffer.new.items ≡ buffer.old.items ++ text.now }
    ensures len { array_vec_len buffer.new ≡ array_vec_len buffer.old + length text.now }
{
    buffer.try_extend_from_slice(text).unwrap();
}

/// Appends a number in decimal digits. Most numbers have one to three: those are appended at once.
#[inline(always)]
pub(crate) fn push_decimal(buffer: &mut Buffer, number: u64)
    requires { array_vec_len buffer.old + 20 ≤ 8192 }
    ensures items { buffer.new.items ≡ buffer.old.items ++ decimal number }
    ensures len { array_vec_len buffer.new ≤ array_vec_len buffer.old + 20 }
{
    if number < 10 {
        return push_text(buffer, &[glyph(number)]);
    }
    let (tens, unit) = (number / 10, glyph(number % 10));
    if tens < 10 {
        return push_text(buffer, &[glyph(tens), unit]);
    }
    let (hundreds, ten) = (tens / 10, glyph(tens % 10));
    if hundreds < 10 {
        return push_text(buffer, &[glyph(hundreds), ten, unit]);
    }
    push_long_decimal(buffer, number)
}

/// Appends a number in decimal digits, whatever their count.
#[inline(never)]
fn push_long_decimal(buffer: &mut Buffer, number: u64)
    requires { array_vec_len buffer.old + 20 ≤ 8192 }
    ensures items { buffer.new.items ≡ buffer.old.items ++ decimal number }
    ensures len { array_vec_len buffer.new ≤ array_vec_len buffer.old + 20 }
{
    let mut bytes = [0; MOST];
    let start = write_decimal(&mut bytes, number);
    push_text(buffer, &bytes[start..]);
}

/// Appends a number as `0x` and lower-case digits of base 16.
#[tactic(auto, unfolding(crate::specs::Number::hexadecimal_text))]
pub(crate) fn push_hexadecimal(buffer: &mut Buffer, number: u64)
    requires { array_vec_len buffer.old + 22 ≤ 8192 }
    ensures items { buffer.new.items ≡ buffer.old.items ++ hexadecimal_text number }
    ensures len { array_vec_len buffer.new ≤ array_vec_len buffer.old + 22 }
{
    push_text(buffer, b"0x");
    push_text(buffer, digits_in(16, number).as_bytes());
}
