//! A name as a line prints it, in a growing text.

ghost use Rattle.std.specs.Prelude.{◌≡◌, ◌++◌, string_bytes, OnOk};
ghost use Rattle.std.specs.List.{flat_map};
ghost use Rattle.sf_text.specs.ShownName.{byte_text, shown_character, shown_name};

use std::alloc::AllocError;
use std::fmt::Write;

/// Appends a name as [`put_name`](crate::put_name) does.
pub(crate) fn push_name(text: &mut String, name: &str) -> Result<(), AllocError>
    ensures { OnOk result (string_bytes text.new ≡ string_bytes text.old ++ shown_name name.now) }
{
    for character in name.chars() {
        push_character(text, character)?;
    }
    Ok(())
}

/// Appends a character as a line prints it.
#[tactic(auto, unfolding(crate::specs::ShownName::shown_character))]
fn push_character(text: &mut String, character: char) -> Result<(), AllocError>
    ensures { OnOk result (string_bytes text.new ≡ string_bytes text.old ++ shown_character character) }
{
    if !character.is_control() {
        return text.push(character);
    }
    let mut bytes = [0; 4];
    let encoded = character.encode_utf8(&mut bytes);
    push_digits(text, encoded.as_bytes())
}

/// Appends each byte as `\x` and two digits of base 16.
fn push_digits(text: &mut String, bytes: &[u8]) -> Result<(), AllocError>
    ensures { OnOk result (string_bytes text.new ≡ string_bytes text.old ++ flat_map byte_text bytes.now) }
{
    for byte in bytes {
        push_byte(text, *byte)?;
    }
    Ok(())
}

/// Appends a byte as `\x` and two digits of base 16.
#[tactic(auto, using(std::proofs::lemmas::Fmt::hex_byte))]
fn push_byte(text: &mut String, byte: u8) -> Result<(), AllocError>
    ensures { OnOk result (string_bytes text.new ≡ string_bytes text.old ++ byte_text byte) }
{
    write!(text, "\\x{:02x}", byte)
}
