//! The row that a common information entry gives.

ghost use Rattle.std.specs.Prelude.{◌≡◌};
ghost use Rattle.sf_bytes.specs.Cursor.{cursor};
ghost use Rattle.cfa_insn.specs.Listing.{listing};
ghost use Rattle.cfa_machine.specs.Columns.{no_columns};
ghost use Rattle.cfa_machine.specs.Pass.{initial_columns};

use crate::columns::{Columns, empty_columns};
use crate::fault::MachineFault;
use crate::machine::define_row;
use cfa_insn::Insns;
use sf_bytes::Part;
use sf_model::Arch;

/// Returns the initial row, by the instructions of the common information entry.
///
/// # Errors
///
/// The first fault of the instructions.
pub fn initial_row(
    arch: Arch,
    data_alignment_factor: i64,
    cie: Part<'_>,
) -> Result<Columns, MachineFault>
    ensures { result ≡ initial_columns arch data_alignment_factor no_columns (listing (cursor cie.entry)) }
{
    let mut columns = empty_columns();
    for item in Insns::new(cie) {
        define_row(arch, data_alignment_factor, item, &mut columns)?;
    }
    Ok(columns)
}
