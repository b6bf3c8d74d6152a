//! The relocation types of both machines.

ghost use Rattle.std.specs.Prelude.{◌≡◌, ◌<◌, ◌+◌, ◌-◌, ◌%◌, ◌^◌};
ghost use Rattle.elf_reloc.specs.Table as spec;

use crate::layout::{
    R_AARCH64_ABS32, R_AARCH64_ABS64, R_AARCH64_NONE, R_AARCH64_PREL32, R_AARCH64_PREL64,
    R_X86_64_32, R_X86_64_32S, R_X86_64_64, R_X86_64_NONE, R_X86_64_PC32, R_X86_64_PC64,
};
use sf_model::Arch;

/// 2^64, by which sums of addresses wrap.
const MODULUS: u128 = 1 << 64;

/// In which range the value of a field must lie.
#[derive(Clone, Copy, PartialEq, Eq)]
pub enum Range {
    /// Eight bytes hold every value.
    Any,
    /// Four bytes, a number without sign.
    Unsigned,
    /// Four bytes, a signed number.
    Signed,
    /// Four bytes, a number with or without sign.
    Either,
}

/// What a relocation writes.
#[derive(Clone, Copy, PartialEq, Eq)]
pub enum Effect {
    /// Nothing.
    Nothing,
    /// S + A: the symbol's value and the addend.
    Absolute(Range),
    /// S + A - P: relative to the field's address.
    Relative(Range),
}

/// Returns what a type of relocation does, or none if the type isn't known.
#[tactic(auto, unfolding(crate::specs::Table::effect_of))]
pub fn effect_of(arch: Arch, kind: u32) -> Option<Effect>
    ensures { result ≡ spec.effect_of arch kind }
{
    match arch {
        Arch::Amd64 => match kind {
            R_X86_64_NONE => Some(Effect::Nothing),
            R_X86_64_64 => Some(Effect::Absolute(Range::Any)),
            R_X86_64_PC32 => Some(Effect::Relative(Range::Signed)),
            R_X86_64_32 => Some(Effect::Absolute(Range::Unsigned)),
            R_X86_64_32S => Some(Effect::Absolute(Range::Signed)),
            R_X86_64_PC64 => Some(Effect::Relative(Range::Any)),
            _ => None,
        },
        Arch::Aarch64 => match kind {
            R_AARCH64_NONE => Some(Effect::Nothing),
            R_AARCH64_ABS64 => Some(Effect::Absolute(Range::Any)),
            R_AARCH64_ABS32 => Some(Effect::Absolute(Range::Either)),
            R_AARCH64_PREL64 => Some(Effect::Relative(Range::Any)),
            R_AARCH64_PREL32 => Some(Effect::Relative(Range::Signed)),
            _ => None,
        },
    }
}

/// Returns how many bytes the field has.
pub fn width_of(range: Range) -> u8
    ensures { result ≡ spec.width_of range }
{
    match range {
        Range::Any => 8,
        Range::Unsigned | Range::Signed | Range::Either => 4,
    }
}

/// Returns the symbol's value and the addend, modulo 2^64.
pub fn absolute(symbol: u64, addend: u64) -> u64
    ensures { result ≡ (symbol + addend) % 2 ^ 64 }
{
    ((u128::from(symbol) + u128::from(addend)) % MODULUS) as u64
}

/// Returns the symbol's value and the addend minus the field's address, modulo 2^64.
pub fn relative(symbol: u64, addend: u64, place: u64) -> u64
    ensures { result ≡ (symbol + addend + (2 ^ 64 - place)) % 2 ^ 64 }
{
    let sum = u128::from(symbol) + u128::from(addend) + (MODULUS - u128::from(place));
    (sum % MODULUS) as u64
}

/// Returns whether a value lies in the range.
#[tactic(auto, unfolding(crate::specs::Table::fits))]
pub fn fits(range: Range, value: u64) -> bool
    ensures { result ≡ spec.fits range value }
{
    // Signed numbers of 32 bits that are below 0, as 64 bits.
    const LEAST_NEGATIVE: u64 = 0xffff_ffff_8000_0000;
    match range {
        Range::Any => true,
        Range::Unsigned => value < 1 << 32,
        Range::Signed => value < 1 << 31 || value >= LEAST_NEGATIVE,
        Range::Either => value < 1 << 32 || value >= LEAST_NEGATIVE,
    }
}

/// Returns the low bits that the field holds.
#[tactic(auto, unfolding(crate::specs::Table::low_bits))]
pub fn low_bits(range: Range, value: u64) -> u64
    ensures value { result ≡ spec.low_bits range value }
    ensures fits { result < 256 ^ spec.width_of range }
{
    match range {
        Range::Any => value,
        Range::Unsigned | Range::Signed | Range::Either => value % (1 << 32),
    }
}
