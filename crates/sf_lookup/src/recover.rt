//! What the row that holds at an address recovers of the caller's frame.

ghost use Rattle.std.specs.Prelude.{◌≡◌};
ghost use Rattle.std.specs.Option.{option_map};
ghost use Rattle.sf_model.specs.Recovery.{recovered};
ghost use Rattle.sf_model.specs.Walk.{recover_by_rows};
ghost use Rattle.sf_decode.specs.View.{table_of};

use crate::lookup::find;
use sf_decode::View;
use sf_model::{Memory, Recovered, Regs, recover};

/// Recovers the caller's frame by the row that holds at an address, the present registers and the memory.
/// None where no row holds.
pub fn recover_at<M: Memory>(view: &View<'_>, pc: u64, regs: &Regs, mem: &M) -> Option<Recovered>
    ensures { result ≡ option_map recovered (recover_by_rows (table_of view.now).functions (M.regions mem.now) pc regs.now) }
{
    let found = find(view, pc)?;
    Some(recover(view.arch(), &found.row.content, found.func.key, regs, mem))
}
