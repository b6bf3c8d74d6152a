//! Numbers as they are printed in a growing text.

ghost use Rattle.std.specs.Prelude.{◌≡◌, ◌++◌, OnOk};
ghost use Rattle.std.specs.Fmt.{decimal};
ghost use Rattle.sf_text.specs.Number.{hexadecimal_text};

use crate::digits::{MOST, digits_in, write_decimal};
use std::alloc::AllocError;

/// Appends a number in decimal digits.
pub(crate) fn push_decimal(text: &mut Vec<u8>, number: u64) -> Result<(), AllocError>
    ensures { OnOk result (text.new.items ≡ text.old.items ++ decimal number) }
{
    let mut bytes = [0; MOST];
    let start = write_decimal(&mut bytes, number);
    text.extend_from_slice(&bytes[start..])
}

/// Appends a number as `0x` and lower-case digits of base 16.
#[tactic(auto, unfolding(crate::specs::Number::hexadecimal_text))]
pub(crate) fn push_hexadecimal(text: &mut Vec<u8>, number: u64) -> Result<(), AllocError>
    ensures { OnOk result (text.new.items ≡ text.old.items ++ hexadecimal_text number) }
{
    text.extend_from_slice(b"0x")?;
    text.extend_from_slice(digits_in(16, number).as_bytes())
}
