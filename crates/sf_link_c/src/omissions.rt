//! The functions that are omitted, and procedure linkage tables, as C has them.

ghost use Rattle.std.specs.Prelude.{◌≡◌};
ghost use Rattle.sf_link_c.specs.Omissions as spec;

use sf_model::{Omitted, Reason, Span};

/// A function that is omitted: the fields of the report's line.
#[repr(C)]
#[derive(Clone, Copy)]
pub struct KiblawenOmission {
    /// Its first address.
    pub start: u64,
    /// Its size in bytes.
    pub size: u64,
    /// The number of its input, from 0 on.
    pub input: u32,
    /// The number of its `.eh_frame` section, 0 for a bare one.
    pub section: u32,
    /// The place of its record in that section.
    pub place: u32,
    /// The number of the reason, from 1 on.
    pub reason: u32,
    /// 1 if the reason is a row's, 0 if it is the whole function's.
    pub has_offset: u32,
    /// The first offset at which the reason holds, or 0.
    pub offset: u32,
}

/// A procedure linkage table: the fields of the report's line.
#[repr(C)]
#[derive(Clone, Copy)]
pub struct KiblawenPlt {
    /// Its first address.
    pub start: u64,
    /// Its size in bytes.
    pub size: u64,
    /// The number of its input, from 0 on.
    pub input: u32,
    /// The number of its `.eh_frame` section.
    pub section: u32,
    /// The place of its record in that section.
    pub place: u32,
}

// Returns the header's number of a reason.
fn reason_number(reason: Reason) -> u32
    ensures { result ≡ spec.reason_number reason }
{
    match reason {
        Reason::EmptyRange => 1,
        Reason::SizeTooLarge => 2,
        Reason::ReturnColumn => 3,
        Reason::SignalFrame => 4,
        Reason::NoCfa => 5,
        Reason::CfaExpression => 6,
        Reason::CfaRegister => 7,
        Reason::CfaOffset => 8,
        Reason::SpRule => 9,
        Reason::RaRule => 10,
        Reason::RaOffset => 11,
        Reason::FpRule => 12,
        Reason::FpOffset => 13,
        Reason::FpWithoutRa => 14,
        Reason::SignState => 15,
    }
}

/// Returns a test as a number.
pub fn flag(is: bool) -> u32
    ensures { result ≡ spec.flag is }
{
    if is { 1 } else { 0 }
}

// Returns an omitted function, as C has it.
fn omission_shown(omitted: &Omitted) -> KiblawenOmission
    ensures { result ≡ spec.omission_shown omitted.now }
{
    let omission = omitted.omission;
    KiblawenOmission {
        start: omitted.start,
        size: omitted.size,
        input: omitted.origin.item,
        section: omitted.origin.section,
        place: omitted.origin.place,
        reason: reason_number(omission.reason),
        has_offset: flag(omission.offset.is_some()),
        offset: omission.offset.unwrap_or(0),
    }
}

// Returns a procedure linkage table, as C has it.
fn plt_shown(plt: &Span) -> KiblawenPlt
    ensures { result ≡ spec.plt_shown plt.now }
{
    KiblawenPlt {
        start: plt.start,
        size: plt.size,
        input: plt.origin.item,
        section: plt.origin.section,
        place: plt.origin.place,
    }
}

/// Writes omitted functions into a room, as many as there is room for.
pub fn write_omissions(omitted: &[Omitted], room: &mut [KiblawenOmission])
    ensures { room.new ≡ spec.listed spec.omission_shown omitted.now room.old }
{
    let count = omitted.len().min(room.len());
    for i in 0..count {
        room[i] = omission_shown(&omitted[i]);
    }
}

/// Writes procedure linkage tables into a room, as many as there is room for.
pub fn write_plts(plts: &[Span], room: &mut [KiblawenPlt])
    ensures { room.new ≡ spec.listed spec.plt_shown plts.now room.old }
{
    let count = plts.len().min(room.len());
    for i in 0..count {
        room[i] = plt_shown(&plts[i]);
    }
}
