//! Functions in the order of their starts.

ghost use Rattle.std.specs.Prelude.{◌≡◌, OnOk};
ghost use Rattle.std.specs.List.Sorted.{IsPermutation};
ghost use Rattle.sf_functions.specs.Order.{IsInOrder};

use sf_model::{Func, Span};
use sf_write::StoredFunction;
use std::alloc::AllocError;

/// Something that begins at an address.
pub trait HasStart {
    ghost use Rattle.std.specs.Prelude.{ℕ};

    ghost first_address: { Self → ℕ };

    /// Returns the first address.
    fn start(&self) -> u64
        ensures { result ≡ first_address self.now };
}

impl HasStart for Func {
    ghost first_address = { λ f. f.start };

    #[inline(always)]
    fn start(&self) -> u64 {
        self.start
    }
}

impl HasStart for StoredFunction {
    ghost first_address = { λ f. f.head.start };

    #[inline(always)]
    fn start(&self) -> u64 {
        self.head.start
    }
}

impl HasStart for Span {
    ghost first_address = { λ s. s.start };

    #[inline(always)]
    fn start(&self) -> u64 {
        self.start
    }
}

/// Sorts functions by rising start. Those of one start stay in their order. If they are in order already, this
/// takes one pass.
///
/// # Errors
///
/// Out of memory; the functions are then in any order.
pub fn sort_by_start<F: HasStart>(functions: &mut Vec<F>) -> Result<(), AllocError>
    ensures moved { IsPermutation functions.old.items functions.new.items }
    ensures order { OnOk result (IsInOrder F.first_address functions.old.items functions.new.items) }
{
    functions.sort_by_key(|function| function.start())?;
    Ok(())
}
