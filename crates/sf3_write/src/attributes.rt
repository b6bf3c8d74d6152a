//! The attributes of a function, before its rows (SFrame Version 3).

ghost use Rattle.std.specs.Prelude.{◌≡◌, ◌<◌, ◌≤◌, ◌^◌, ◌++◌, OnOk};
ghost use Rattle.sf_write.specs.Entry.{entry_info, repeat_size};
ghost use Rattle.sf3_write.specs.Attributes.{attributes_bytes};

use crate::layout::DEFAULT_TYPE;
use sf_decode::layout::{FUNCTION_TYPE, KEY};
use sf_model::{FuncHead, Key, Shape};
use std::alloc::AllocError;

/// Appends a function's attributes, by the width of its row starts.
#[tactic(auto, unfolding(crate::specs::Attributes::attributes_bytes))]
#[inline(always)]
pub(crate) fn push_attributes(
    bytes: &mut Vec<u8>,
    width: u8,
    head: &FuncHead,
) -> Result<(), AllocError>
    requires width { width ≤ 2 }
    requires few { head.now.rows < 2 ^ 16 }
    ensures { OnOk result (bytes.new.items ≡ bytes.old.items ++ attributes_bytes width head.now) }
{
    let [low, high] = (head.rows as u16).to_le_bytes();
    bytes.extend_from_slice(&[
        low,
        high,
        info_of(head, width),
        DEFAULT_TYPE,
        repeat_size_of(head.shape),
    ])
}

/// Returns the info byte, by the width of the row starts.
#[tactic(auto, unfolding(sf_write::specs::Entry::entry_info))]
#[inline(always)]
fn info_of(head: &FuncHead, width: u8) -> u8
    requires { width ≤ 2 }
    ensures { result ≡ entry_info width head.now }
{
    let shape = match head.shape {
        Shape::Plain => 0,
        Shape::Repeat(_) => 1,
    };
    let key = match head.key {
        Key::A => 0,
        Key::B => 1,
    };
    width + FUNCTION_TYPE * shape + KEY * key
}

/// Returns the repeat size, 0 for a plain function.
#[inline(always)]
pub(crate) fn repeat_size_of(shape: Shape) -> u8
    ensures { result ≡ repeat_size shape }
{
    match shape {
        Shape::Plain => 0,
        Shape::Repeat(size) => size,
    }
}
