//! The content of a row, as C has it (SFrame Version 2, frame row entries).

ghost use Rattle.std.specs.Prelude.{◌≡◌};
ghost use Rattle.sf_model.specs.RowBytes.{base_number};
ghost use Rattle.sf_link_c.specs.Contents as spec;

use crate::omissions::flag;
use sf_model::{Base, Content, Ra};

/// A content, or none: how the caller's frame is recovered.
#[repr(C)]
#[derive(Clone, Copy)]
pub struct KiblawenContent {
    /// 1 if there is a content; else 0, and the other fields are 0.
    pub is_known: u32,
    /// The register that the canonical frame address counts from: 0 the frame pointer, 1 the stack pointer.
    pub base: u32,
    /// The canonical frame address's offset from that register, in bytes.
    pub cfa_offset: i32,
    /// 1 if the return address is saved, 0 if it is in the link register.
    pub ra_saved: u32,
    /// The return address's offset from the canonical frame address if it is saved, else 0.
    pub ra_offset: i32,
    /// 1 if the frame pointer is saved, 0 if it still has its value.
    pub fp_saved: u32,
    /// The frame pointer's offset from the canonical frame address if it is saved, else 0.
    pub fp_offset: i32,
    /// 1 if the return address is signed, else 0.
    pub is_signed: u32,
}

// Returns the header's number of the base of the canonical frame address.
fn base_number(base: Base) -> u32
    ensures { result ≡ base_number base }
{
    match base {
        Base::Fp => 0,
        Base::Sp => 1,
    }
}

// Returns the offset at which the return address is saved, or `None` if it is in the link register.
fn return_offset(ra: Ra) -> Option<i32>
    ensures { result ≡ spec.saved_return ra }
{
    match ra {
        Ra::Fixed => Some(-8),
        Ra::Link => None,
        Ra::At(offset) => Some(offset),
    }
}

/// Returns a content, as C has it.
pub fn content_shown(content: &Content) -> KiblawenContent
    ensures { result ≡ spec.content_shown content.now }
{
    let ra = return_offset(content.ra);
    KiblawenContent {
        is_known: 1,
        base: base_number(content.base),
        cfa_offset: content.cfa,
        ra_saved: flag(ra.is_some()),
        ra_offset: ra.unwrap_or(0),
        fp_saved: flag(content.fp.is_some()),
        fp_offset: content.fp.unwrap_or(0),
        is_signed: flag(content.signed),
    }
}

/// Returns that there is no content.
pub fn no_content() -> KiblawenContent
    ensures { result ≡ spec.no_content }
{
    KiblawenContent {
        is_known: 0,
        base: 0,
        cfa_offset: 0,
        ra_saved: 0,
        ra_offset: 0,
        fp_saved: 0,
        fp_offset: 0,
        is_signed: 0,
    }
}

/// Returns a content or none, as C has it.
pub fn content_or_none(content: Option<Content>) -> KiblawenContent
    ensures { result ≡ spec.content_or_none content }
{
    match content {
        Some(content) => content_shown(&content),
        None => no_content(),
    }
}
