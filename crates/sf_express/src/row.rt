//! The content of a row in SFrame's form.

ghost use Rattle.std.specs.Prelude.{◌≡◌, ℕ};
ghost use Rattle.cfa_machine.specs.Columns.{row_from};
ghost use Rattle.sf_express.specs.Rules.{content_of};

use crate::rules;
use cfa_machine::Columns;
use sf_model::{Arch, Content, Reason};

/// Returns the content of a row with these columns, whatever its start, or the first reason why SFrame Version 2
/// can't express it: of the canonical frame address, the stack pointer, the return address, the frame pointer, a frame
/// pointer that is saved alone, and the sign state.
#[tactic(auto, unfolding(crate::specs::Rules::content_of))]
#[inline(always)]
pub fn content_at(arch: Arch, columns: &Columns) -> Result<Content, Reason>
    ensures exact { (start : ℕ) → result ≡ content_of arch (row_from start columns.now) }
{
    let (base, cfa) = rules::cfa(arch, columns.cfa)?;
    rules::check_stack_pointer(columns.sp)?;
    let ra = rules::return_address(arch, columns.ra)?;
    let fp = rules::frame_pointer(columns.fp)?;
    rules::check_return_address_saved(ra, fp)?;
    rules::check_sign_state(arch, columns.sign)?;
    Ok(Content {
        base,
        cfa,
        ra,
        fp,
        signed: columns.signed,
    })
}
