//! Start addresses that are read one at a time, each read a step.

ghost use Rattle.std.specs.Prelude.{◌≡◌, ◌+◌, ◌<◌, ℕ, List, length, slice_index};
ghost use Rattle.sf_decode.specs.View.{table_of};
ghost use Rattle.sf_lookup.specs.Starts.{starts_of};

use crate::steps::Steps;
use sf_decode::{View, functions_are_numbered};
use std::sync::ledger::Ledger;

/// A list of addresses that is read by number.
pub trait Starts<L: Ledger> {
    /// The addresses.
    ghost starts: { Self → List ℕ };

    /// Returns how many addresses there are.
    fn count(&self) -> u32
        ensures { result ≡ length (starts self.now) };

    /// Reads the address with a number. That is one step.
    fn start_at(&self, i: u32, steps: &mut Steps<L>) -> u64
        requires { i < length (starts self.now) }
        ensures value { result ≡ slice_index (starts self.now) i }
        ensures step { steps.new ≡ steps.old + 1 };
}

/// Where the functions of a section start.
impl<'a, L: Ledger> Starts<L> for View<'a> {
    ghost starts = { λ view. starts_of (table_of view).functions };

    #[inline(always)]
    fn count(&self) -> u32 {
        self.len()
    }

    #[inline(always)]
    fn start_at(&self, i: u32, steps: &mut Steps<L>) -> u64 {
        functions_are_numbered(self);
        steps.tick();
        self.start(i)
    }
}
