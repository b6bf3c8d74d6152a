//! The width of a pointer, and what it points to.

ghost use Rattle.std.specs.Prelude.{◌≡◌, ◌<◌, ◌^◌, ◌%◌, IsSome, IfSome, IsTrue};
ghost use Rattle.sf_bytes.specs.Field.{is_field_width};
ghost use Rattle.std.specs.Option.{ForSome};
ghost use Rattle.eh_pointer.specs.Pointer.{pointer_width, usable_width, pointer_bits, pointer_value, sign_extended};

use crate::layout::{ABSPTR, FORMATS, PCREL, SDATA2, SDATA4, SDATA8, UDATA2, UDATA4, UDATA8};

/// Returns how many bytes a pointer of this encoding has, if its format fixes it: 2, 4 or 8.
#[tactic(auto, unfolding(crate::specs::Pointer::pointer_width))]
pub fn width(encoding: u8) -> Option<u8>
    ensures exact { result ≡ pointer_width encoding }
    ensures wide { IfSome result (λ width. IsTrue (is_field_width width)) }
{
    match encoding % FORMATS {
        ABSPTR => Some(8),
        UDATA2 | SDATA2 => Some(2),
        UDATA4 | SDATA4 => Some(4),
        UDATA8 | SDATA8 => Some(8),
        _ => None,
    }
}

/// Returns the width in bytes of an encoding that a function's pointer may have: a format of fixed width,
/// absolute or from the field's own address, and not indirect.
#[tactic(auto, unfolding(crate::specs::Pointer::usable_width))]
pub fn usable(encoding: u8) -> Option<u8>
    ensures exact { result ≡ usable_width encoding }
    ensures wide { IfSome result (λ width. IsTrue (is_field_width width)) }
{
    if encoding / FORMATS <= PCREL {
        width(encoding)
    } else {
        None
    }
}

// Returns the lowest 16 bits of a number, extended with their sign.
fn extended_16(bits: u64) -> u64
    requires { bits < 2 ^ 16 }
    ensures { result ≡ sign_extended 2 bits }
{
    i64::from((bits as u16).cast_signed()).cast_unsigned()
}

// Returns the lowest 32 bits of a number, extended with their sign.
fn extended_32(bits: u64) -> u64
    requires { bits < 2 ^ 32 }
    ensures { result ≡ sign_extended 4 bits }
{
    i64::from((bits as u32).cast_signed()).cast_unsigned()
}

// Returns the bits, with their sign extended if the format is signed.
#[tactic(auto, unfolding(crate::specs::Pointer::pointer_bits, crate::specs::Pointer::pointer_width))]
fn extended(encoding: u8, bits: u64) -> u64
    requires fits { ForSome (pointer_width encoding) (λ width. bits < 256 ^ width) }
    ensures { result ≡ pointer_bits encoding bits }
{
    match encoding % FORMATS {
        SDATA2 => extended_16(bits),
        SDATA4 => extended_32(bits),
        _ => bits,
    }
}

/// Returns the size in a pointer's format, with its sign extended if the format is signed, modulo 2^64. The
/// application of the encoding doesn't matter.
pub fn size(encoding: u8, bits: u64) -> u64
    requires fits { ForSome (pointer_width encoding) (λ width. bits < 256 ^ width) }
    ensures { result ≡ pointer_bits encoding bits }
{
    extended(encoding, bits)
}

/// Returns what a pointer of this encoding points to, modulo 2^64, if its field is at `address` and holds
/// `bits`.
#[tactic(auto, unfolding(crate::specs::Pointer::pointer_value, crate::specs::Pointer::usable_width))]
pub fn value(encoding: u8, bits: u64, address: u64) -> u64
    requires usable { IsSome (usable_width encoding) }
    requires fits { ForSome (usable_width encoding) (λ width. bits < 256 ^ width) }
    ensures { result ≡ pointer_value encoding bits address }
{
    let number = extended(encoding, bits);
    if encoding / FORMATS == PCREL {
        number.wrapping_add(address)
    } else {
        number
    }
}
