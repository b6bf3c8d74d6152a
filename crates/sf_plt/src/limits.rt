//! The limits of functions and rows with procedure linkage tables.

ghost use Rattle.std.specs.Prelude.{◌≡◌, ◌≤◌, ◌^◌};
ghost use Rattle.sf_asm.specs.Functions.{unless};
ghost use Rattle.sf_asm.specs.Linking.{fault_of_limit};
ghost use Rattle.sf_plt.specs.Linking.{further_fault};

use sf_asm::GatherFault;
use sf_functions::{Limit, exceeded};

/// The numbers of functions, of rows of those that are kept, and of procedure linkage tables.
#[derive(Clone, Copy)]
pub struct Counts {
    pub functions: usize,
    pub rows: usize,
    pub tables: usize,
}

/// The number of rows that a procedure linkage table adds.
const TABLE_ROWS: usize = 4;

/// Returns the fault of a limit.
fn fault_of_limit(limit: Limit) -> GatherFault
    ensures { result ≡ fault_of_limit limit }
{
    match limit {
        Limit::Functions => GatherFault::TooManyFunctions,
        Limit::Rows => GatherFault::TooManyRows,
    }
}

/// Checks the limits: functions first, then rows. Each table counts as one more function and as 4 rows.
pub fn check_tables(counts: Counts) -> Result<(), GatherFault>
    requires { (counts.functions ≤ 2 ^ 32) × (counts.rows ≤ 2 ^ 32) × (counts.tables ≤ 2 ^ 32) }
    ensures { result ≡ unless (further_fault counts.functions counts.rows counts.tables) }
{
    let functions = counts.functions + counts.tables;
    let rows = counts.rows + TABLE_ROWS * counts.tables;
    match exceeded(functions, rows) {
        Some(limit) => Err(fault_of_limit(limit)),
        None => Ok(()),
    }
}
