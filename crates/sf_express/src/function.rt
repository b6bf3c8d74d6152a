//! When a function is omitted as a whole, and when two contents are the same.

ghost use Rattle.std.specs.Prelude.{◌≡◌};
ghost use Rattle.sf_express.specs.Expressed.{repeats, same_content, reason_of};

use cfa_machine::return_address_of;
use sf_model::{Arch, Content, FdeFacts, Reason};

/// The first size that doesn't fit a function descriptor entry, in bytes.
const SIZE_LIMIT: u64 = 0x1_0000_0000;

/// Returns whether two contents are the same.
#[inline(always)]
pub fn is_same(last: Content, content: Content) -> bool
    ensures { result ≡ same_content last content }
{
    last.base == content.base
        && last.cfa == content.cfa
        && last.ra == content.ra
        && last.fp == content.fp
        && last.signed == content.signed
}

/// Returns whether a content is that of the row before, if there is one.
#[inline(always)]
pub fn is_repeated(last: Option<Content>, content: Content) -> bool
    ensures { result ≡ repeats last content }
{
    match last {
        None => false,
        Some(last) => is_same(last, content),
    }
}

/// Returns the first reason of the function as a whole.
pub fn function_reason(arch: Arch, facts: &FdeFacts) -> Option<Reason>
    ensures { result ≡ reason_of arch facts.now }
{
    if facts.size == 0 {
        return Some(Reason::EmptyRange);
    }
    if facts.size >= SIZE_LIMIT {
        return Some(Reason::SizeTooLarge);
    }
    if facts.column != return_address_of(arch) {
        return Some(Reason::ReturnColumn);
    }
    if facts.signal {
        return Some(Reason::SignalFrame);
    }
    None
}
