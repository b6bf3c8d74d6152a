//! A function in SFrame's form, from rows that a runner makes one by one.

ghost use Rattle.std.specs.Prelude.{◌≡◌, ◌≤◌, ◌<◌, ◌+◌, ◌^◌, ◌++◌, [], ℕ, List, None, OnOk};
ghost use Rattle.sf_model.specs.declared.function.Shape.TheVariants.{Plain};
ghost use Rattle.sf_model.specs.declared.rows.Row.{Row as row_fact};
ghost use Rattle.cfa_machine.specs.Left.{limit, rows_left};
ghost use Rattle.sf_write.specs.Packed.{ArePacked, HasRoom};
ghost use Rattle.sf_express.specs.Expressed.{expressed_rows, function_by, unless_repeated};
ghost use Rattle.sf_express.specs.Run.{PacksFunction, PacksRows, RunsAll, on_rows};

use crate::function::{function_reason, is_repeated};
use crate::row::content_at;
use cfa_machine::{MachineFault, Runner};
use sf_model::{Arch, Content, FdeFacts, FuncHead, Omission, Row, Shape};
use sf_write::PackedRows;
use std::alloc::AllocError;

// Runs the rest of the instructions.
#[inline(never)]
fn run_all(run: &mut Runner<'_>) -> Result<(), MachineFault>
    ensures { RunsAll result (rows_left run.old) }
{
    while let Some(_start) = run.next_row()? {}
    Ok(())
}

// Appends the row, unless its content is that of the row before it.
#[inline(always)]
fn append(kept: &mut PackedRows, last: Option<Content>, row: Row) -> Result<(), AllocError>
    requires { HasRoom kept.old row.start }
    ensures packed { OnOk result ((rows : List row_fact) → ArePacked kept.old rows → ArePacked kept.new (rows ++ unless_repeated last row [])) }
    ensures room { OnOk result ((start : ℕ) → HasRoom kept.old start → HasRoom kept.new start) }
{
    if !is_repeated(last, row.content) {
        kept.push(row)?;
    }
    Ok(())
}

// Makes `kept` the rows in SFrame's form of a function with this last offset, or returns the omission of the first row that
// has none. The function is not inlined, so that its loop has the machine's registers to itself.
#[inline(never)]
fn run_rows(
    arch: Arch,
    run: &mut Runner<'_>,
    last_offset: u32,
    kept: &mut PackedRows,
) -> Result<Result<(), Omission>, MachineFault>
    requires { limit run.old ≡ last_offset + 1 }
    ensures { PacksRows kept.new result (on_rows (expressed_rows arch None) (rows_left run.old)) }
{
    kept.restart(last_offset);
    let mut last = None;
    while let Some(start) = run.next_row()? {
        let start = start as u32;
        match content_at(arch, run.columns()) {
            Ok(content) => {
                append(kept, last, Row { start, content })?;
                last = Some(content);
            }
            Err(reason) => {
                run_all(run)?;
                return Ok(Err(Omission {
                    reason,
                    offset: Some(start),
                }));
            }
        }
    }
    Ok(Ok(()))
}

// Returns the head of the function with these facts and this number of rows.
#[inline(always)]
fn head_with(facts: &FdeFacts, rows: u32) -> FuncHead
    requires { facts.now.size < 2 ^ 32 }
    ensures { result ≡ record { start = facts.now.start; size = facts.now.size; shape = Plain; key = facts.now.key; rows = rows } }
{
    FuncHead {
        start: facts.start,
        size: facts.size as u32,
        shape: Shape::Plain,
        key: facts.key,
        rows,
    }
}

/// Returns the head of the function that a runner was started on, as SFrame Version 2 expresses it, and makes `rows`
/// its rows, whatever they were: a row where the content changes, from offset 0 on. Or returns its first omission: the
/// first reason of the function as a whole, or else the first reason of a row at the least offset where one holds.
///
/// # Errors
///
/// The first fault of the instructions: they are all run, after an omission too. `NoMemory` if memory runs out.
#[inline(always)]
pub fn express_run(
    arch: Arch,
    facts: &FdeFacts,
    run: &mut Runner<'_>,
    rows: &mut PackedRows,
) -> Result<Result<FuncHead, Omission>, MachineFault>
    requires { limit run.old ≡ facts.now.size }
    ensures exact { PacksFunction rows.new result (on_rows (function_by arch facts.now) (rows_left run.old)) }
{
    if let Some(reason) = function_reason(arch, facts) {
        run_all(run)?;
        return Ok(Err(Omission {
            reason,
            offset: None,
        }));
    }
    match run_rows(arch, run, (facts.size - 1) as u32, rows)? {
        Ok(()) => Ok(Ok(head_with(facts, rows.len()))),
        Err(omission) => Ok(Err(omission)),
    }
}
