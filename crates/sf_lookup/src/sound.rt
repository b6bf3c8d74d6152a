//! What was checked of the functions of a section.

ghost use Rattle.std.specs.Prelude.{◌^◌, ◌<◌, ◌≤◌, All, IsTrue, length};
ghost use Rattle.sf_model.specs.declared.rows.Row.{Row as row};
ghost use Rattle.sf_model.specs.Content.{content_fits};
ghost use Rattle.sf_model.specs.Function.{RowsRise, shape_fits};
ghost use Rattle.sf_model.specs.Section.{is_sorted};
ghost use Rattle.sf_model.specs.Table.{row_count};
ghost use Rattle.sf_decode.specs.View.{table_of, function_of};
ghost use Rattle.sf_lookup.specs.Starts.{Apart, NeverFall, starts_of};

use sf_decode::{View, functions_are_numbered, view_is_a_section};

/// A function's rows rise, its repeat size isn't 0, and its contents are those of the machine.
pub fn function_is_sound(view: &View<'_>, i: u32)
    requires { i < length (table_of view.now).functions }
    ensures rise { RowsRise (function_of view.now i).rows }
    ensures shape { IsTrue (shape_fits (function_of view.now i).shape) }
    ensures fits { All (λ (r : row). IsTrue (content_fits (table_of view.now).arch r.content)) (function_of view.now i).rows }
{
    view_is_a_section(view);
    functions_are_numbered(view);
}

/// A number of four bytes is below 2^32.
#[inline(always)]
pub fn fits_in_four_bytes(number: u32)
    ensures { number < 2 ^ 32 }
{}

/// All functions together have at most 2^24 rows.
pub fn rows_are_limited(view: &View<'_>)
    ensures { row_count (table_of view.now).functions ≤ 2 ^ 24 }
{
    view_is_a_section(view);
}

/// Where the functions are sorted, each ends where the next one starts, or before.
pub fn functions_stand_apart(view: &View<'_>)
    requires { IsTrue (is_sorted (table_of view.now).flags) }
    ensures { Apart (table_of view.now).functions }
{
    view_is_a_section(view);
}

/// Where the functions are sorted, no start is below the one before it: what `last_start` asks of a view.
#[tactic(auto, using(crate::proofs::Searched::never_fall))]
pub fn starts_never_fall(view: &View<'_>)
    requires { IsTrue (is_sorted (table_of view.now).flags) }
    ensures { NeverFall (starts_of (table_of view.now).functions) }
{
    functions_stand_apart(view);
}
