//! The function and the row that hold at an address (SFrame Version 2, function descriptor entries and frame
//! row entries).

ghost use Rattle.std.specs.Prelude.{◌≡◌, ◌-◌, ◌^◌, ◌<◌, IsTrue, IfSome, Some, length};
ghost use Rattle.std.specs.List.{find};
ghost use Rattle.std.specs.Option.{option_map};
ghost use Rattle.sf_model.specs.Content.{content_fits};
ghost use Rattle.sf_model.specs.Function.{shape_fits};
ghost use Rattle.sf_model.specs.Lookup.{contains, found_at, offset_in_block, row_at};
ghost use Rattle.sf_decode.specs.View.{function_of, head_of, table_of};
ghost use Rattle.sf_lookup.specs.Lookup.{shown};

use crate::function::first_containing;
use crate::row::row_at;
use crate::sound::{fits_in_four_bytes, function_is_sound};
use crate::steps::Steps;
use sf_decode::View;
use sf_model::{FuncHead, Row, Shape};
use std::marker::Brand;
use std::sync::ledger::{Blank, Ledger};

/// A function without its rows, and its row that holds at an address.
#[derive(Clone, Copy, PartialEq, Eq)]
pub struct Found {
    /// The function.
    pub func: FuncHead,
    /// The row.
    pub row: Row,
}

/// Returns the offset that a function's rows refer to: in a function of repeated blocks, the offset in its
/// block.
#[inline(always)]
fn offset_in_block(shape: Shape, offset: u64) -> u64
    requires { IsTrue (shape_fits shape) }
    ensures { result ≡ offset_in_block shape offset }
{
    match shape {
        Shape::Plain => offset,
        Shape::Repeat(size) => offset % u64::from(size),
    }
}

/// Returns the offset of an address among the rows of the first function that contains it.
#[inline(always)]
pub fn offset_at(view: &View<'_>, i: u32, func: &FuncHead, pc: u64) -> u64
    requires within { i < length (table_of view.now).functions }
    requires func { func.now ≡ head_of (function_of view.now i) }
    requires first { Some (function_of view.now i) ≡ find (contains pc) (table_of view.now).functions }
    ensures value { let f = function_of view.now i in result ≡ offset_in_block f.shape (pc - f.start) }
    ensures below { result < 2 ^ 32 }
{
    function_is_sound(view, i);
    fits_in_four_bytes(func.size);
    offset_in_block(func.shape, pc - func.start)
}

/// Joins the first function that contains an address and its row there, if it has one.
#[inline(always)]
pub fn found_of(view: &View<'_>, i: u32, pc: u64, func: FuncHead, row: Option<Row>) -> Option<Found>
    requires within { i < length (table_of view.now).functions }
    requires func { func ≡ head_of (function_of view.now i) }
    requires first { Some (function_of view.now i) ≡ find (contains pc) (table_of view.now).functions }
    requires row { let f = function_of view.now i in row ≡ row_at (offset_in_block f.shape (pc - f.start)) f.rows }
    ensures found { result ≡ option_map shown (found_at (table_of view.now).functions pc) }
    ensures fits { IfSome result (λ found. IsTrue (content_fits (table_of view.now).arch found.row.content)) }
{
    function_is_sound(view, i);
    Some(Found { func, row: row? })
}

// Finds what `find` does. It counts its steps and drops the count.
fn find_uncounted<L: Ledger>(view: &View<'_>, pc: u64, blank: Blank) -> Option<Found>
    requires name { blank.name ≡ L.name }
    requires parts { blank.parts ≡ L.parts }
    requires some { 0 < blank.parts }
    ensures found { result ≡ option_map shown (found_at (table_of view.now).functions pc) }
    ensures fits { IfSome result (λ found. IsTrue (content_fits (table_of view.now).arch found.row.content)) }
{
    let mut steps = Steps::<L>::new(blank);
    let i = first_containing(view, pc, &mut steps)?;
    function_is_sound(view, i);
    let func = view.func(i);
    let offset = offset_at(view, i, &func, pc);
    let row = row_at(view.rows(i), offset, &mut steps);
    found_of(view, i, pc, func, row)
}

/// Finds the function and the row that hold at an address: the first function that contains the address, and of
/// its rows the one with the greatest start that is not above the offset. None where no function contains the
/// address, or no row of the function begins by the offset.
pub fn find(view: &View<'_>, pc: u64) -> Option<Found>
    // The result is the look-up's, and None exactly where the look-up has none.
    ensures found { result ≡ option_map shown (found_at (table_of view.now).functions pc) }
    // The row is one that the machine can have.
    ensures fits { IfSome result (λ found. IsTrue (content_fits (table_of view.now).arch found.row.content)) }
{
    find_uncounted::<Brand>(view, pc, Blank::new(1))
}
