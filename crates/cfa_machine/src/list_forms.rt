//! List forms: the rows of a [`Runner`](crate::Runner) as one list, and a row as a value. No program calls them.

ghost use Rattle.std.specs.Prelude.{◌≡◌, IfOk};
ghost use Rattle.sf_bytes.specs.Cursor.{cursor};
ghost use Rattle.cfa_insn.specs.Listing.{listing};
ghost use Rattle.cfa_machine.specs.Columns.{row_from};
ghost use Rattle.cfa_machine.specs.RowAtOffset.{MatchInstructions, StartWhereReached};
ghost use Rattle.cfa_machine.specs.FirstFault.{FailsBy, first_fault};
ghost use Rattle.cfa_machine.specs.RowList.{AreRows};
ghost use Rattle.cfa_machine.specs.Pass.{Gives, rows_by};

use crate::columns::Columns;
use crate::fault::MachineFault;
use crate::initial::initial_row;
use crate::row::DwRow;
use crate::runner::Runner;
use sf_bytes::Part;
use sf_model::Arch;
use std::alloc::Global;

impl Columns {
    /// Returns the columns of a row.
    #[inline(always)]
    pub fn of_row(row: &DwRow) -> Columns
        ensures { row_from row.now.start result ≡ row.now }
    {
        Columns {
            cfa: row.cfa,
            sp: row.sp,
            fp: row.fp,
            ra: row.ra,
            sign: row.sign,
            signed: row.signed,
        }
    }
}

// Returns the row from an offset on.
fn row_at(start: u64, columns: &Columns) -> DwRow
    ensures { result ≡ row_from start columns.now }
{
    DwRow {
        start,
        cfa: columns.cfa,
        sp: columns.sp,
        fp: columns.fp,
        ra: columns.ra,
        sign: columns.sign,
        signed: columns.signed,
    }
}

// Returns the rows of a function, as one pass over the instructions gives them.
fn pass(
    alloc: Global,
    arch: Arch,
    code_alignment_factor: u64,
    data_alignment_factor: i64,
    cie: Part<'_>,
    fde: Part<'_>,
    size: u64,
) -> Result<Vec<DwRow>, MachineFault>
    ensures { Gives (λ v. v.items) result (rows_by arch code_alignment_factor data_alignment_factor size (listing (cursor cie.entry)) (listing (cursor fde.entry))) }
{
    let initial = initial_row(arch, data_alignment_factor, cie)?;
    let mut rows = Vec::new(alloc);
    let mut run = Runner::new();
    run.start_from(
        &initial,
        arch,
        code_alignment_factor,
        data_alignment_factor,
        fde,
        size,
    );
    while let Some(start) = run.next_row()? {
        rows.push(row_at(start, run.columns()))?;
    }
    Ok(rows)
}

/// Returns the rows of a function, by rising start: for each offset below `size` that is 0 or that an advance
/// arrives at, the state from there on. For size 0 there are none.
///
/// The alignment factors are those of the common information entry, `cie` and `fde` the instructions of both entries. Every
/// instruction is read and run, also after the function's end, and the first one that can't be is the fault, the common
/// information entry's before the frame description entry's.
pub fn rows(
    alloc: Global,
    arch: Arch,
    code_alignment_factor: u64,
    data_alignment_factor: i64,
    cie: Part<'_>,
    fde: Part<'_>,
    size: u64,
) -> Result<Vec<DwRow>, MachineFault>
    // The rows rise from 0 on, below the size.
    ensures rows { IfOk result (λ v. AreRows arch size v.items) }
    // At each offset below the size the rows are what the instructions give there.
    ensures at { IfOk result (λ v. MatchInstructions arch code_alignment_factor data_alignment_factor size (listing (cursor cie.entry)) (listing (cursor fde.entry)) v.items) }
    // A row starts at each offset below the size that is 0 or that an advance arrives at, and at no other.
    ensures starts { IfOk result (λ v. StartWhereReached code_alignment_factor data_alignment_factor size (listing (cursor fde.entry)) v.items) }
    // It names the first instruction that can't be read or run.
    ensures fault { FailsBy result (first_fault arch data_alignment_factor (listing (cursor cie.entry)) (listing (cursor fde.entry))) }
    // The same by one pass.
    ensures exact { Gives (λ v. v.items) result (rows_by arch code_alignment_factor data_alignment_factor size (listing (cursor cie.entry)) (listing (cursor fde.entry))) }
{
    pass(
        alloc,
        arch,
        code_alignment_factor,
        data_alignment_factor,
        cie,
        fde,
        size,
    )
}
