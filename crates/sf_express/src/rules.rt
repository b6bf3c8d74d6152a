//! The form of each rule of a row in SFrame, or why SFrame has no form for it.

ghost use Rattle.std.specs.Prelude.{◌≡◌};
ghost use Rattle.sf_express.specs.Rules.{narrowed, base_of, cfa_content, stack_pointer_check, return_address_content, frame_pointer_content, frame_pointer_needs_return_address, sign_state_check};

use cfa_machine::{CfaRule, Rule, frame_pointer_of, stack_pointer_of};
use sf_model::{Arch, Base, Ra, Reason};

/// The offset of a return address on AMD64, from the canonical frame address.
const FIXED_RA: i128 = -8;

// Returns the number, if it fits 32 signed bits.
#[inline(always)]
fn as_i32(number: i128) -> Option<i32>
    ensures { result ≡ narrowed number }
{
    if number < i128::from(i32::MIN) || number > i128::from(i32::MAX) {
        None
    } else {
        Some(number as i32)
    }
}

// Returns SFrame's base register for a DWARF register.
#[inline(always)]
fn base(arch: Arch, register: u64) -> Option<Base>
    ensures { result ≡ base_of arch register }
{
    if register == stack_pointer_of(arch) {
        Some(Base::Sp)
    } else if register == frame_pointer_of(arch) {
        Some(Base::Fp)
    } else {
        None
    }
}

/// Returns the canonical frame address: its base and its offset in bytes.
#[inline(always)]
pub fn cfa(arch: Arch, rule: CfaRule) -> Result<(Base, i32), Reason>
    ensures { result ≡ cfa_content arch rule }
{
    match rule {
        CfaRule::Missing => Err(Reason::NoCfa),
        CfaRule::Expression => Err(Reason::CfaExpression),
        CfaRule::Reg { register, offset } => match base(arch, register) {
            None => Err(Reason::CfaRegister),
            Some(base) => match as_i32(offset) {
                None => Err(Reason::CfaOffset),
                Some(offset) => Ok((base, offset)),
            },
        },
    }
}

/// Checks the stack pointer, which SFrame takes to be the canonical frame address.
#[inline(always)]
pub fn check_stack_pointer(rule: Rule) -> Result<(), Reason>
    ensures { result ≡ stack_pointer_check rule }
{
    match rule {
        Rule::Missing => Ok(()),
        Rule::ValOffset(offset) => {
            if offset == 0 {
                Ok(())
            } else {
                Err(Reason::SpRule)
            }
        }
        _ => Err(Reason::SpRule),
    }
}

// Returns the return address of AMD64.
#[inline(always)]
fn return_address_amd64(rule: Rule) -> Result<Ra, Reason>
    ensures { result ≡ return_address_content Arch.Amd64 rule }
{
    match rule {
        Rule::Offset(offset) => {
            if offset == FIXED_RA {
                Ok(Ra::Fixed)
            } else {
                Err(Reason::RaOffset)
            }
        }
        _ => Err(Reason::RaRule),
    }
}

// Returns the return address of AArch64.
#[inline(always)]
fn return_address_aarch64(rule: Rule) -> Result<Ra, Reason>
    ensures { result ≡ return_address_content Arch.Aarch64 rule }
{
    match rule {
        Rule::Missing => Ok(Ra::Link),
        Rule::Same => Ok(Ra::Link),
        Rule::Offset(offset) => match as_i32(offset) {
            None => Err(Reason::RaOffset),
            Some(offset) => Ok(Ra::At(offset)),
        },
        _ => Err(Reason::RaRule),
    }
}

/// Returns the return address.
#[inline(always)]
pub fn return_address(arch: Arch, rule: Rule) -> Result<Ra, Reason>
    ensures { result ≡ return_address_content arch rule }
{
    match arch {
        Arch::Amd64 => return_address_amd64(rule),
        Arch::Aarch64 => return_address_aarch64(rule),
    }
}

/// Returns the frame pointer: the offset that it is saved at, or none if it keeps its value.
#[inline(always)]
pub fn frame_pointer(rule: Rule) -> Result<Option<i32>, Reason>
    ensures { result ≡ frame_pointer_content rule }
{
    match rule {
        Rule::Missing => Ok(None),
        Rule::Same => Ok(None),
        Rule::Offset(offset) => match as_i32(offset) {
            None => Err(Reason::FpOffset),
            Some(offset) => Ok(Some(offset)),
        },
        _ => Err(Reason::FpRule),
    }
}

/// Checks that a saved frame pointer has a saved return address.
#[inline(always)]
pub fn check_return_address_saved(ra: Ra, fp: Option<i32>) -> Result<(), Reason>
    ensures { result ≡ frame_pointer_needs_return_address ra fp }
{
    match (ra, fp) {
        (Ra::Link, Some(_)) => Err(Reason::FpWithoutRa),
        (Ra::Link, None) => Ok(()),
        (Ra::Fixed, _) => Ok(()),
        (Ra::At(_), _) => Ok(()),
    }
}

/// Checks that on AArch64 the register of the sign state has no rule of its own.
#[inline(always)]
pub fn check_sign_state(arch: Arch, rule: Rule) -> Result<(), Reason>
    ensures { result ≡ sign_state_check arch rule }
{
    match (arch, rule) {
        (Arch::Amd64, _) => Ok(()),
        (Arch::Aarch64, Rule::Missing) => Ok(()),
        (Arch::Aarch64, _) => Err(Reason::SignState),
    }
}
