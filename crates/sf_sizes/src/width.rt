//! Widths of numbers (SFrame Version 2, the info words of function and frame row entries).

ghost use Rattle.std.specs.Prelude.{◌≡◌, ◌≤◌, IsTrue, option_to_list};
ghost use Rattle.std.specs.List.{list_all};
ghost use Rattle.sf_model.specs.Width.{width_len, holds_unsigned, holds_signed, IsWidth, NoneLess};
ghost use Rattle.sf_sizes.specs.Width.{least_width};

/// Returns the width of a function's row starts if `last` is the greatest: 0, 1 or 2 for 1, 2 or 4 unsigned
/// bytes, the least that holds `last`.
#[tactic(auto, using(crate::proofs::Least::none_below_two))]
#[inline(always)]
pub fn row_type(last: u32) -> u8
    ensures value { result ≡ least_width (holds_unsigned last) }
    ensures width { IsWidth (holds_unsigned last) result }
    ensures least { NoneLess (holds_unsigned last) result }
{
    if last <= 0xff {
        0
    } else if last <= 0xffff {
        1
    } else {
        2
    }
}

/// Returns how many bytes a width has.
#[inline(always)]
pub(crate) fn bytes_of(width: u8) -> u32
    requires { width ≤ 2 }
    ensures value { result ≡ width_len width }
    ensures most { result ≤ 4 }
{
    match width {
        0 => 1,
        1 => 2,
        _ => 4,
    }
}

/// Returns whether one signed byte holds an offset.
#[inline(always)]
pub(crate) fn fits_byte(offset: i32) -> bool
    ensures { result ≡ holds_signed offset 0 }
{
    -0x80 <= offset && offset <= 0x7f
}

/// Returns whether two signed bytes hold an offset; four always do.
#[inline(always)]
pub(crate) fn fits_half(offset: i32) -> bool
    ensures value { result ≡ holds_signed offset 1 }
    ensures four { IsTrue (holds_signed offset 2) }
{
    -0x8000 <= offset && offset <= 0x7fff
}

/// Returns whether one signed byte holds an offset that may be absent.
#[inline(always)]
pub(crate) fn fits_byte_if_any(offset: Option<i32>) -> bool
    ensures { result ≡ list_all (λ z. holds_signed z 0) (option_to_list offset) }
{
    offset.is_none_or(fits_byte)
}

/// Returns whether two signed bytes hold an offset that may be absent; four always do.
#[inline(always)]
pub(crate) fn fits_half_if_any(offset: Option<i32>) -> bool
    ensures value { result ≡ list_all (λ z. holds_signed z 1) (option_to_list offset) }
    ensures four { IsTrue (list_all (λ z. holds_signed z 2) (option_to_list offset)) }
{
    match offset {
        Some(offset) => fits_half(offset),
        None => true,
    }
}
