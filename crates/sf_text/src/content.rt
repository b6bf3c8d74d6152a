//! The content of one row.

ghost use Rattle.std.specs.Prelude.{◌≡◌, ◌≤◌, ◌+◌, ◌++◌, codes, length, OnOk};
ghost use Rattle.std.specs.Fmt.{decimal};
ghost use Rattle.arrayvec.specs.ArrayVec.{array_vec_len};
ghost use Rattle.sf_text.specs.Content.{base_text, sign_text, frame_text, return_text, pointer_text, signing_text, content_text, row_text};

use crate::buffer::{Buffer, push_decimal, push_text};
use sf_model::{Base, Content, Ra, Row};
use std::alloc::AllocError;

/// Appends a row to a growing text: its start and its content.
#[tactic(auto, unfolding(crate::specs::Content::row_text))]
pub(crate) fn append_row(text: &mut Vec<u8>, row: &Row) -> Result<(), AllocError>
    ensures { OnOk result (text.new.items ≡ text.old.items ++ row_text row.now) }
{
    let mut buffer = Buffer::new();
    push_row(&mut buffer, b"+", row);
    text.extend_from_slice(buffer.as_slice())
}

/// Appends a row's content to a growing text.
pub(crate) fn append_content(text: &mut Vec<u8>, content: &Content) -> Result<(), AllocError>
    ensures { OnOk result (text.new.items ≡ text.old.items ++ content_text content.now) }
{
    let mut buffer = Buffer::new();
    push_content(&mut buffer, content);
    text.extend_from_slice(buffer.as_slice())
}

/// Appends a mark, and a row: its start and its content.
#[inline(always)]
pub(crate) fn push_row(buffer: &mut Buffer, mark: &[u8], row: &Row)
    requires { array_vec_len buffer.old + length mark.now + 120 ≤ 8192 }
    ensures items { buffer.new.items ≡ buffer.old.items ++ (mark.now ++ decimal row.now.start ++ codes " " ++ content_text row.now.content) }
    ensures len { array_vec_len buffer.new ≤ array_vec_len buffer.old + length mark.now + 120 }
{
    push_text(buffer, mark);
    push_decimal(buffer, u64::from(row.start));
    push_text(buffer, b" ");
    push_content(buffer, &row.content);
}

/// Appends a row's content.
#[tactic(auto, unfolding(crate::specs::Content::content_text))]
fn push_content(buffer: &mut Buffer, content: &Content)
    requires { array_vec_len buffer.old + 90 ≤ 8192 }
    ensures items { buffer.new.items ≡ buffer.old.items ++ content_text content.now }
    ensures len { array_vec_len buffer.new ≤ array_vec_len buffer.old + 90 }
{
    push_frame(buffer, content.base, content.cfa);
    push_return(buffer, content.ra);
    push_pointer(buffer, content.fp);
    push_signing(buffer, content.signed);
}

/// Appends where the canonical frame address is.
#[tactic(auto, unfolding(crate::specs::Content::frame_text, crate::specs::Content::signed_text))]
fn push_frame(buffer: &mut Buffer, base: Base, offset: i32)
    requires { array_vec_len buffer.old + 27 ≤ 8192 }
    ensures items { buffer.new.items ≡ buffer.old.items ++ frame_text base offset }
    ensures len { array_vec_len buffer.new ≤ array_vec_len buffer.old + 27 }
{
    push_text(buffer, front_of_frame(base, offset));
    push_decimal(buffer, u64::from(offset.unsigned_abs()));
}

/// Appends where the return address is, if it is at an offset.
#[tactic(auto, unfolding(crate::specs::Content::signed_text))]
fn push_return(buffer: &mut Buffer, ra: Ra)
    requires { array_vec_len buffer.old + 26 ≤ 8192 }
    ensures items { buffer.new.items ≡ buffer.old.items ++ return_text ra }
    ensures len { array_vec_len buffer.new ≤ array_vec_len buffer.old + 26 }
{
    if let Ra::At(offset) = ra {
        push_text(buffer, front_of_return(offset));
        push_decimal(buffer, u64::from(offset.unsigned_abs()));
    }
}

/// Appends where the frame pointer is saved, if it is.
#[tactic(auto, unfolding(crate::specs::Content::signed_text))]
fn push_pointer(buffer: &mut Buffer, fp: Option<i32>)
    requires { array_vec_len buffer.old + 26 ≤ 8192 }
    ensures items { buffer.new.items ≡ buffer.old.items ++ pointer_text fp }
    ensures len { array_vec_len buffer.new ≤ array_vec_len buffer.old + 26 }
{
    if let Some(offset) = fp {
        push_text(buffer, front_of_pointer(offset));
        push_decimal(buffer, u64::from(offset.unsigned_abs()));
    }
}

/// Appends whether the return address is signed.
fn push_signing(buffer: &mut Buffer, signed: bool)
    requires { array_vec_len buffer.old + 7 ≤ 8192 }
    ensures items { buffer.new.items ≡ buffer.old.items ++ signing_text signed }
    ensures len { array_vec_len buffer.new ≤ array_vec_len buffer.old + 7 }
{
    if signed {
        push_text(buffer, b" signed");
    }
}

/// Returns the text before the size of a canonical frame address's offset, its sign included.
#[inline(always)]
fn front_of_frame(base: Base, offset: i32) -> &'static [u8]
    ensures value { result.now ≡ codes "cfa=" ++ base_text base ++ sign_text offset }
    ensures len { length result.now ≡ 7 }
{
    match base {
        Base::Fp if offset < 0 => b"cfa=fp-",
        Base::Fp => b"cfa=fp+",
        Base::Sp if offset < 0 => b"cfa=sp-",
        Base::Sp => b"cfa=sp+",
    }
}

/// Returns the text before the size of a return address's offset, its sign included.
#[inline(always)]
fn front_of_return(offset: i32) -> &'static [u8]
    ensures value { result.now ≡ codes " ra=c" ++ sign_text offset }
    ensures len { length result.now ≡ 6 }
{
    if offset < 0 { b" ra=c-" } else { b" ra=c+" }
}

/// Returns the text before the size of a frame pointer's offset, its sign included.
#[inline(always)]
fn front_of_pointer(offset: i32) -> &'static [u8]
    ensures value { result.now ≡ codes " fp=c" ++ sign_text offset }
    ensures len { length result.now ≡ 6 }
{
    if offset < 0 { b" fp=c-" } else { b" fp=c+" }
}
