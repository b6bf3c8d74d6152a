//! The digits of a number, without allocation.

ghost use Rattle.std.specs.Prelude.{◌≡◌, ◌≤◌, ◌<◌, ◌^◌, false, length, drop};
ghost use Rattle.std.specs.Fmt.{decimal, digits, digit_glyph};

/// The most digits that are asked for.
pub(crate) const MOST: usize = 20;

/// The digits of a number, at the end of a buffer.
#[derive(Drop)]
pub(crate) struct Digits {
    pub(crate) bytes: [u8; MOST],
    pub(crate) start: usize,
    ghost in_range: { start ≤ 20 },
}

impl Digits {
    /// Returns the digits, the highest first.
    #[inline(always)]
    pub(crate) fn as_bytes(&self) -> &[u8]
        ensures value { result.now ≡ drop self.now.start self.now.bytes }
        ensures short { length result.now ≤ 20 }
    {
        &self.bytes[self.start..]
    }
}

/// Returns the digits of a number in a base, without leading zeros. It is inlined, so that a base that
/// is known divides by a multiplication.
#[inline(always)]
pub(crate) fn digits_in(base: u64, number: u64) -> Digits
    requires base { (2 ≤ base) × (base ≤ 16) }
    requires fits { number < base ^ 20 }
    ensures { drop result.start result.bytes ≡ digits base false number }
{
    let mut bytes = [0; MOST];
    let mut start = MOST;
    let mut left = number;
    while left >= base {
        start -= 1;
        bytes[start] = glyph(left % base);
        left /= base;
    }
    start -= 1;
    bytes[start] = glyph(left);
    Digits { bytes, start }
}

/// Writes the decimal digits of a number, without leading zeros, at the end of `bytes`, and returns where they start. Two
/// digits are taken at a time, so that half as many divisions wait for one another.
#[inline(always)]
pub(crate) fn write_decimal(bytes: &mut [u8; MOST], number: u64) -> usize
    ensures digits { drop result bytes.new ≡ decimal number }
    ensures within { result ≤ 20 }
{
    let mut start = MOST;
    let mut left = number;
    while left >= 100 {
        start -= 2;
        bytes[start + 1] = glyph(left % 10);
        bytes[start] = glyph(left / 10 % 10);
        left /= 100;
    }
    if left < 10 {
        start -= 1;
        bytes[start] = glyph(left);
        return start;
    }
    start -= 2;
    bytes[start + 1] = glyph(left % 10);
    bytes[start] = glyph(left / 10);
    start
}

/// Returns the character of a digit below 16.
#[inline(always)]
pub(crate) fn glyph(digit: u64) -> u8
    requires { digit < 16 }
    ensures { result ≡ digit_glyph false digit }
{
    if digit < 10 {
        b'0' + digit as u8
    } else {
        b'a' + (digit - 10) as u8
    }
}
