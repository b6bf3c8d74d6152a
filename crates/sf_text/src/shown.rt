//! Numbers as they are printed where memory may be allocated.

ghost use Rattle.std.specs.Prelude.{Some};
ghost use Rattle.sf_text.specs.Number.{hexadecimal_text};

use std::fmt;

/// A number that is printed as `0x` and lower-case digits of base 16.
#[derive(Clone, Copy)]
pub(crate) struct Hexadecimal(pub(crate) u64);

#[tactic(auto, unfolding(crate::specs::Number::hexadecimal_text))]
impl fmt::Display for Hexadecimal {
    ghost output = { λ n. Some (hexadecimal_text n.0) };

    fn fmt<W: fmt::Write>(&self, f: &mut fmt::Formatter<W>) -> fmt::Result {
        write!(f, "0x{:x}", self.0)
    }
}
