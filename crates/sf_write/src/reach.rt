//! How far a start lies from its field.

ghost use Rattle.std.specs.Prelude.{◌≡◌, ◌≤◌, ◌^◌, Some, None, if◌then◌else◌};
ghost use Rattle.sf_write.specs.Reach.{start_distance, is_in_reach};

use crate::layout::{FUNCTION_ENTRY_LEN, HEADER_LEN};

/// Returns a start as it is written in the entry with this number, of a section at `at`: counted
/// from the field's own address. None where four signed bytes don't hold it.
#[tactic(auto, unfolding(crate::specs::Reach::start_distance, crate::specs::Reach::is_in_reach))]
#[inline(always)]
pub(crate) fn start_field(at: u64, number: u32, start: u64) -> Option<i32>
    requires { number ≤ 2 ^ 21 }
    ensures { result ≡ (if is_in_reach at number start then Some (start_distance at number start) else None) }
{
    let field = i128::from(at) + i128::from(HEADER_LEN + FUNCTION_ENTRY_LEN * number);
    let distance = i128::from(start) - field;
    if -0x8000_0000 <= distance && distance <= 0x7fff_ffff {
        Some(distance as i32)
    } else {
        None
    }
}
