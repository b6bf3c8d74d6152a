//! A function's rows (SFrame Version 2, frame row entries).

ghost use Rattle.std.specs.Prelude.{◌≡◌, ◌≤◌, ◌+◌, ◌*◌, ◌++◌, [], ◌∷◌, is_some, option_to_list, IfOk, IfSome, IsTrue, OnOk, OnSome};
ghost use Rattle.std.specs.List.{flat_map, list_all};
ghost use Rattle.sf_model.specs.RowBytes.{base_number, holds_row_offsets, row_info_byte, row_offsets, signed_number};
ghost use Rattle.sf_model.specs.Tight.{last_start};
ghost use Rattle.sf_model.specs.Width.{holds_signed, holds_unsigned, signed_bytes, IsWidth};
ghost use Rattle.sf_sizes.specs.RowLength.{offset_width};
ghost use Rattle.sf_write.specs.Room.{offsets_fit};
ghost use Rattle.sf_write.specs.Row.{narrow_row, start_width, rows_bytes, BeginWith};

use crate::number::{push_narrow, push_narrow_signed};
use sf_decode::layout::{OFFSET_COUNT, OFFSET_WIDTH, SIGNED};
use sf_model::{Base, Content, Row};
use sf_sizes::{offset_count, offset_size, row_type, saved_offset};
use std::alloc::AllocError;

/// Returns the width of a function's row starts: the least that holds the last one.
#[inline(always)]
pub(crate) fn start_width_of(rows: &[Row]) -> u8
    ensures value { result ≡ start_width rows.now }
    ensures width { IsWidth (holds_unsigned (last_start rows.now)) result }
    ensures most { result ≤ 2 }
{
    row_type(last_start_of(rows))
}

/// Returns the start of the last row.
#[tactic(auto, using(crate::proofs::LastStart::last_start_by))]
#[inline(always)]
fn last_start_of(rows: &[Row]) -> u32
    ensures { result ≡ last_start rows.now }
{
    rows.last().map_or(0, |row| row.start)
}

/// Appends a function's rows, and returns the width of their starts. Where memory runs out, what was there stays
/// in front.
#[tactic(auto, unfolding(crate::specs::Row::rows_bytes))]
pub(crate) fn push_rows(bytes: &mut Vec<u8>, rows: &[Row]) -> Result<u8, AllocError>
    ensures ok { OnOk result (bytes.new.items ≡ bytes.old.items ++ rows_bytes rows.now) }
    ensures fits { OnOk result (IsTrue (list_all offsets_fit rows.now)) }
    ensures width { IfOk result (λ width. width ≡ start_width rows.now) }
    ensures starts { OnOk result (IsTrue (holds_unsigned (last_start rows.now) (start_width rows.now))) }
    ensures keeps { BeginWith bytes.new.items bytes.old.items }
{
    let width = start_width_of(rows);
    for row in rows {
        push_row(bytes, width, row)?;
    }
    Ok(width)
}

/// Appends a row: its start in bytes of the width `kind`, its info byte and its offsets. Most rows have a start of
/// one or two bytes and a byte for each offset, and none for the return address: they are appended at once.
#[tactic(auto, using(crate::proofs::Kept::begin_front), unfolding(sf_model::specs::RowBytes::spelled_row, crate::specs::Room::offsets_fit))]
#[inline(always)]
pub(crate) fn push_row(bytes: &mut Vec<u8>, kind: u8, row: &Row) -> Result<(), AllocError>
    requires { kind ≤ 2 }
    ensures ok { OnOk result (bytes.new.items ≡ bytes.old.items ++ narrow_row kind row.now) }
    ensures fits { OnOk result (IsTrue (offsets_fit row.now)) }
    ensures keeps { BeginWith bytes.new.items bytes.old.items }
{
    let [low, high, _, _] = row.start.to_le_bytes();
    match (short_content(&row.content), kind) {
        (Some((info, cfa, None)), 0) => bytes.extend_from_slice(&[low, info, cfa]),
        (Some((info, cfa, None)), 1) => bytes.extend_from_slice(&[low, high, info, cfa]),
        (Some((info, cfa, Some(fp))), 0) => bytes.extend_from_slice(&[low, info, cfa, fp]),
        (Some((info, cfa, Some(fp))), 1) => bytes.extend_from_slice(&[low, high, info, cfa, fp]),
        _ => push_any_row(bytes, kind, row),
    }
}

/// Returns the info byte of a content, the canonical frame address's offset and the frame pointer's. None unless
/// each offset has room in a byte and none is the return address's.
#[inline(always)]
fn short_content(content: &Content) -> Option<(u8, u8, Option<u8>)>
    ensures bytes { IfSome result (λ parts. parts.0 ∷ parts.1 ∷ option_to_list parts.2 ≡ row_info_byte (offset_width content.now) content.now ∷ flat_map (signed_bytes (offset_width content.now)) (row_offsets content.now)) }
    ensures fits { OnSome result (IsTrue (holds_row_offsets content.now (offset_width content.now))) }
{
    if saved_offset(content.ra).is_some() {
        return None;
    }
    let cfa = byte_of(content.cfa)?;
    let flags = flags_of(content);
    match content.fp {
        None => Some((flags + OFFSET_COUNT, cfa, None)),
        Some(fp) => Some((flags + 2 * OFFSET_COUNT, cfa, Some(byte_of(fp)?))),
    }
}

/// Returns an offset in a signed byte, or None where it has no room there.
#[inline(always)]
fn byte_of(offset: i32) -> Option<u8>
    ensures value { IfSome result (λ byte. byte ∷ [] ≡ signed_bytes 0 offset) }
    ensures fits { is_some result ≡ holds_signed offset 0 }
{
    if -0x80 <= offset && offset <= 0x7f {
        let [low, _, _, _] = offset.cast_unsigned().to_le_bytes();
        Some(low)
    } else {
        None
    }
}

/// Appends a row by its start, its info byte and its offsets, of any width and number.
#[tactic(auto, using(crate::proofs::Kept::begin_on, crate::proofs::Kept::begin_front), unfolding(sf_model::specs::RowBytes::spelled_row, crate::specs::Room::offsets_fit))]
#[inline(never)]
fn push_any_row(bytes: &mut Vec<u8>, kind: u8, row: &Row) -> Result<(), AllocError>
    requires { kind ≤ 2 }
    ensures ok { OnOk result (bytes.new.items ≡ bytes.old.items ++ narrow_row kind row.now) }
    ensures fits { OnOk result (IsTrue (offsets_fit row.now)) }
    ensures keeps { BeginWith bytes.new.items bytes.old.items }
{
    let content = &row.content;
    push_narrow(bytes, row.start, kind)?;
    bytes.push(info_of(content))?;
    push_offsets(bytes, content)
}

/// Returns the info byte of a row.
#[inline(always)]
fn info_of(content: &Content) -> u8
    ensures value { result ≡ row_info_byte (offset_width content.now) content.now }
    ensures fits { IsTrue (holds_row_offsets content.now (offset_width content.now)) }
{
    flags_of(content) + OFFSET_COUNT * offset_count(content) + OFFSET_WIDTH * offset_size(content)
}

/// Returns the bits of the info byte for the base and for a signed return address.
#[inline(always)]
fn flags_of(content: &Content) -> u8
    ensures { result ≡ base_number content.now.base + 128 * signed_number content.now.signed }
{
    let base = match content.base {
        Base::Fp => 0,
        Base::Sp => 1,
    };
    base + SIGNED * u8::from(content.signed)
}

/// Appends a row's offsets in their order: of the canonical frame address, the return address and the
/// frame pointer.
#[inline(always)]
fn push_offsets(bytes: &mut Vec<u8>, content: &Content) -> Result<(), AllocError>
    ensures ok { OnOk result (bytes.new.items ≡ bytes.old.items ++ flat_map (signed_bytes (offset_width content.now)) (row_offsets content.now)) }
    ensures keeps { BeginWith bytes.new.items bytes.old.items }
{
    let width = offset_size(content);
    push_narrow_signed(bytes, content.cfa, width)?;
    push_if_any(bytes, saved_offset(content.ra), width)?;
    push_if_any(bytes, content.fp, width)
}

/// Appends an offset that may be absent.
#[tactic(auto, unfolding(crate::specs::Row::BeginWith))]
#[inline(always)]
fn push_if_any(bytes: &mut Vec<u8>, offset: Option<i32>, width: u8) -> Result<(), AllocError>
    requires { width ≤ 2 }
    ensures ok { OnOk result (bytes.new.items ≡ bytes.old.items ++ flat_map (signed_bytes width) (option_to_list offset)) }
    ensures keeps { BeginWith bytes.new.items bytes.old.items }
{
    match offset {
        Some(offset) => push_narrow_signed(bytes, offset, width),
        None => Ok(()),
    }
}
