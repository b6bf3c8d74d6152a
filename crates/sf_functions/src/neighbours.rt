//! Neighbours that share an address.

ghost use Rattle.std.specs.Prelude.{◌≡◌};
ghost use Rattle.std.specs.Option.{option_map};
ghost use Rattle.sf_functions.specs.Neighbours as spec;
ghost use Rattle.sf_functions.specs.Neighbours.{overlap_by};

use crate::order::HasStart;
use sf_model::Span;

/// Something that takes up addresses.
pub trait HasSize {
    ghost use Rattle.std.specs.Prelude.{ℕ};

    ghost size_of: { Self → ℕ };

    /// Returns the size in bytes.
    fn size(&self) -> u64
        ensures { result ≡ size_of self.now };
}

impl HasSize for Span {
    ghost size_of = { λ s. s.size };

    #[inline(always)]
    fn size(&self) -> u64 {
        self.size
    }
}

/// Returns whether the second function begins before the end of the first.
#[inline(always)]
pub fn shares_address<F: HasStart + HasSize>(before: &F, function: &F) -> bool
    ensures { result ≡ overlap_by F.first_address F.size_of (before.now, function.now) }
{
    u128::from(function.start()) < u128::from(before.start()) + u128::from(before.size())
}

/// Finds the first two neighbours that share an address, of functions by rising start.
pub fn first_overlap<F: HasStart + HasSize>(ordered: &[F]) -> Option<(&F, &F)>
    ensures { option_map (λ pair. (pair.0.now, pair.1.now)) result ≡ spec.first_overlap F.first_address F.size_of ordered.now }
{
    let (first, later) = ordered.split_first()?;
    let mut before = first;
    for function in later {
        if shares_address(before, function) {
            return Some((before, function));
        }
        before = function;
    }
    None
}
