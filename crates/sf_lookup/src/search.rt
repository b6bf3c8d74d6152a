//! The last start that an address has reached.

ghost use Rattle.std.specs.Prelude.{◌+◌, ◌-◌, ◌*◌, ◌^◌, ◌≤◌, length};
ghost use Rattle.sf_lookup.specs.Starts.{NeverFall, IsLastStart};

use crate::starts::Starts;
use crate::steps::Steps;
use std::sync::ledger::Ledger;

/// Finds the greatest number whose address is not above `pc`. The addresses never fall. Of n addresses it reads
/// at most k, where 2^k <= 2n + 1.
pub fn last_start<L: Ledger, S: Starts<L>>(starts: &S, pc: u64, steps: &mut Steps<L>) -> Option<u32>
    requires { NeverFall (S.starts starts.now) }
    ensures last { IsLastStart (S.starts starts.now) pc result }
    ensures counted { steps.old ≤ steps.new }
    ensures cost { 2 ^ (steps.new - steps.old) ≤ 2 * length (S.starts starts.now) + 1 }
{
    // Each address before `low` is reached, and none from `high` on.
    let mut low = 0;
    let mut high = starts.count();
    while low < high {
        let middle = low + (high - low) / 2;
        if starts.start_at(middle, steps) <= pc {
            low = middle + 1;
        } else {
            high = middle;
        }
    }
    low.checked_sub(1)
}
