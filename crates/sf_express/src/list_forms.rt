//! List forms: a function from a list of its rows, as `express_run` makes it from a runner. No program calls them.

ghost use Rattle.std.specs.Prelude.{◌≡◌, ◌^◌, ◌<◌, ◌+◌, ◌≤◌, ◌++◌, [], All, IfOk, OnOk, IsTrue, None};
ghost use Rattle.sf_model.specs.declared.function.Shape.TheVariants.{Plain};
ghost use Rattle.sf_model.specs.Function.{IsWritable, key_fits};
ghost use Rattle.cfa_machine.specs.RowList.{AreRows};
ghost use Rattle.sf_express.specs.declared.list_forms.ExpressFault.TheVariants.{NoMemory};
ghost use Rattle.sf_express.specs.Rules.{content_of};
ghost use Rattle.sf_express.specs.Offsets.{Omits, HaveSameContents, StandAtChanges};
ghost use Rattle.sf_express.specs.Runs.{AreContentsOf, ContentsByOffset, function_of};
ghost use Rattle.sf_express.specs.Expressed.{row_by, unless_repeated, Makes, Gives, expressed_rows, function_by};

use crate::function::{function_reason, is_repeated};
use crate::row::content_at;
use cfa_machine::{Columns, DwRow};
use sf_model::{Arch, Content, FdeFacts, Func, Omission, Reason, Row, Rows, Shape};
use std::alloc::{AllocError, AllocFailed, Global};

/// Why a function isn't written.
#[derive(Clone, Copy, Debug, PartialEq, Eq)]
pub enum ExpressFault {
    /// SFrame can't express it.
    Omit(Omission),
    /// Memory ran out.
    NoMemory,
}

impl From<AllocError> for ExpressFault {
    ghost from_gives = { λ _ e. e ≡ NoMemory };

    fn from(_e: AllocError) -> ExpressFault {
        ExpressFault::NoMemory
    }
}

impl<T: Drop> From<AllocFailed<T>> for ExpressFault {
    ghost from_gives = { λ _ e. e ≡ NoMemory };

    fn from(_e: AllocFailed<T>) -> ExpressFault {
        ExpressFault::NoMemory
    }
}

/// Returns the content of the row, or the first reason why SFrame Version 2 can't express it, as
/// [`content_at`](crate::content_at) does.
#[tactic(auto, unfolding(crate::specs::Rules::content_of))]
pub fn content(arch: Arch, row: &DwRow) -> Result<Content, Reason>
    ensures exact { result ≡ content_of arch row.now }
{
    content_at(arch, &Columns::of_row(row))
}

// Returns the row in SFrame's form, or the omission at its start.
#[inline(always)]
fn row_of(arch: Arch, row: &DwRow) -> Result<Row, ExpressFault>
    requires { row.now.start < 2 ^ 32 }
    ensures { Makes result (row_by arch row.now) }
{
    let start = row.start as u32;
    match content(arch, row) {
        Ok(content) => Ok(Row { start, content }),
        Err(reason) => Err(ExpressFault::Omit(Omission {
            reason,
            offset: Some(start),
        })),
    }
}

// Appends the row, unless its content is that of the row before it.
#[inline(always)]
fn append(kept: &mut Rows, last: Option<Content>, row: Row) -> Result<(), AllocError>
    ensures { OnOk result (kept.new ≡ kept.old ++ unless_repeated last row []) }
{
    if !is_repeated(last, row.content) {
        kept.push(row)?;
    }
    Ok(())
}

// Returns the rows in SFrame's form.
fn express_rows(alloc: Global, arch: Arch, rows: &[DwRow]) -> Result<Rows, ExpressFault>
    requires { All (λ r. r.start < 2 ^ 32) rows.now }
    ensures { Gives (λ kept. kept) result (expressed_rows arch None rows.now) }
{
    let mut kept = Rows::new(alloc);
    let mut last = None;
    for row in rows {
        let row = row_of(arch, row)?;
        append(&mut kept, last, row)?;
        last = Some(row.content);
    }
    Ok(kept)
}

// Creates the function with these facts and rows.
fn function_with(facts: &FdeFacts, rows: Rows) -> Func
    requires { facts.now.size < 2 ^ 32 }
    ensures { result ≡ record { start = facts.now.start; size = facts.now.size; shape = Plain; key = facts.now.key; rows = rows } }
{
    Func {
        start: facts.start,
        size: facts.size as u32,
        shape: Shape::Plain,
        key: facts.key,
        rows,
    }
}

// Returns the function, or its first omission.
fn whole(alloc: Global, arch: Arch, facts: &FdeFacts, rows: &[DwRow]) -> Result<Func, ExpressFault>
    requires { AreRows arch facts.now.size rows.now }
    ensures writable { IfOk result (λ f. facts.now.start + facts.now.size ≤ 2 ^ 64 → IsTrue (key_fits arch facts.now.key) → IsWritable arch f) }
    ensures same { IfOk result (λ f. HaveSameContents arch rows.now f.rows) }
    ensures changes { IfOk result (λ f. StandAtChanges f.rows) }
    ensures exact { Gives (λ f. f) result (function_by arch facts.now rows.now) }
{
    if let Some(reason) = function_reason(arch, facts) {
        return Err(ExpressFault::Omit(Omission {
            reason,
            offset: None,
        }));
    }
    let kept = express_rows(alloc, arch, rows)?;
    Ok(function_with(facts, kept))
}

/// Returns the function as SFrame Version 2 expresses it: a row where the content changes, from offset 0
/// on.
///
/// `Omit` has the first reason of the function as a whole, or else the first reason of a row at the least
/// offset where one holds.
pub fn express(
    alloc: Global,
    arch: Arch,
    facts: &FdeFacts,
    rows: &[DwRow],
) -> Result<Func, ExpressFault>
    requires { AreRows arch facts.now.size rows.now }
    // A section can hold what is kept.
    ensures writable { IfOk result (λ f. facts.now.start + facts.now.size ≤ 2 ^ 64 → IsTrue (key_fits arch facts.now.key) → IsWritable arch f) }
    // The function has at every offset the content of the rows.
    ensures same { IfOk result (λ f. HaveSameContents arch rows.now f.rows) }
    // The function has a row at 0 and where the content changes, and no other.
    ensures changes { IfOk result (λ f. StandAtChanges f.rows) }
    // An omission is the first reason.
    ensures omits { Omits arch facts.now rows.now result }
    // The result is the definition's function by the content at each offset, or its first omission.
    ensures means { (says : ContentsByOffset) → AreContentsOf arch facts.now.size rows.now says → Gives (λ f. f) result (function_of arch facts.now says) }
    // Start, size, key and rows, as one pass gives them.
    ensures exact { Gives (λ f. f) result (function_by arch facts.now rows.now) }
{
    whole(alloc, arch, facts, rows)
}
