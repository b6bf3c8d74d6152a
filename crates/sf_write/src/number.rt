//! Numbers as little-endian bytes.

ghost use Rattle.std.specs.Prelude.{◌≡◌, ◌≤◌, ◌++◌, OnOk};
ghost use Rattle.sf_model.specs.Width.{signed_bytes, unsigned_bytes};
ghost use Rattle.sf_write.specs.Number.{signed_word_bytes, word_bytes};
ghost use Rattle.sf_write.specs.Row.{BeginWith};

use std::alloc::AllocError;

/// Appends a number's four bytes.
#[tactic(auto, unfolding(crate::specs::Number::word_bytes))]
#[inline(always)]
pub fn push_word(bytes: &mut Vec<u8>, number: u32) -> Result<(), AllocError>
    ensures { OnOk result (bytes.new.items ≡ bytes.old.items ++ word_bytes number) }
{
    bytes.extend_from_slice(&number.to_le_bytes())
}

/// Appends a number's four bytes in two's complement.
#[tactic(auto, unfolding(crate::specs::Number::signed_word_bytes))]
#[inline(always)]
pub(crate) fn push_signed_word(bytes: &mut Vec<u8>, number: i32) -> Result<(), AllocError>
    ensures { OnOk result (bytes.new.items ≡ bytes.old.items ++ signed_word_bytes number) }
{
    bytes.extend_from_slice(&number.cast_unsigned().to_le_bytes())
}

/// Appends the low bytes of a number, as many as the width has.
#[tactic(auto, unfolding(crate::specs::Row::BeginWith))]
#[inline(always)]
pub(crate) fn push_narrow(bytes: &mut Vec<u8>, number: u32, width: u8) -> Result<(), AllocError>
    requires { width ≤ 2 }
    ensures ok { OnOk result (bytes.new.items ≡ bytes.old.items ++ unsigned_bytes width number) }
    ensures keeps { BeginWith bytes.new.items bytes.old.items }
{
    let [first, second, third, fourth] = number.to_le_bytes();
    match width {
        0 => bytes.extend_from_slice(&[first]),
        1 => bytes.extend_from_slice(&[first, second]),
        _ => bytes.extend_from_slice(&[first, second, third, fourth]),
    }
}

/// Appends the low bytes of a number in two's complement, as many as the width has.
#[inline(always)]
pub(crate) fn push_narrow_signed(
    bytes: &mut Vec<u8>,
    number: i32,
    width: u8,
) -> Result<(), AllocError>
    requires { width ≤ 2 }
    ensures ok { OnOk result (bytes.new.items ≡ bytes.old.items ++ signed_bytes width number) }
    ensures keeps { BeginWith bytes.new.items bytes.old.items }
{
    push_narrow(bytes, number.cast_unsigned(), width)
}
