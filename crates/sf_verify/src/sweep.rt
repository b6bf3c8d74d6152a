//! A section's functions and call frame information, compared by rising address.

ghost use Rattle.std.specs.Prelude.{◌≡◌, ◌≤◌, ◌+◌, IfOk, OnOk, IsTrue, Some};
ghost use Rattle.sf_model.specs.Content.{content_fits};
ghost use Rattle.sf_verify.specs.Agreement as spec;
ghost use Rattle.sf_verify.specs.Asking.{IsReady, IsSame, contents_of};
ghost use Rattle.sf_merge.specs.Located.{located_functions};
ghost use Rattle.sf_verify.specs.Comparing.{AreComparable, Compares, ComparesAll, IsComparable, edge_of, func_read, function_content};
ghost use Rattle.sf_verify.specs.SectionContent.{section_at};

use crate::agreement::recover_alike;
use crate::dwarf_cursor::DwarfCursor;
use frame_functions::KeyedContent;
use sf_base::NoMemory;
use sf_decode::RowIter;
use sf_merge::SectionFunctions;
use sf_model::{Content, FuncHead, Row, Shape};
use std::alloc::Global;

/// The least address at which a section and call frame information differ, and both contents there.
#[derive(Clone, Copy, PartialEq, Eq)]
pub struct Difference {
    pub pc: u64,
    pub section: Content,
    pub dwarf: Option<Content>,
}

/// Compares the addresses from one to another, both included, at which the section has one content. Call frame
/// information is asked for only where its content can change.
fn compare_run(
    alloc: Global,
    said: KeyedContent,
    from: u64,
    last: u64,
    dwarf: &mut DwarfCursor<'_>,
) -> Result<Option<Difference>, NoMemory>
    requires ready { IsReady dwarf.old from }
    requires order { from ≤ last }
    requires fits { IsTrue (content_fits dwarf.old.arch said.content) }
    ensures same { OnOk result (IsSame dwarf.old dwarf.new) }
    ensures ready { OnOk result (IsReady dwarf.new last) }
    ensures compared { IfOk result (Compares (λ pc. Some said) (contents_of dwarf.old) from (last + 1)) }
{
    let mut pc = from;
    loop {
        let Some(known) = dwarf.ask(alloc, pc)? else {
            return Ok(Some(Difference {
                pc,
                section: said.content,
                dwarf: None,
            }));
        };
        if !recover_alike(dwarf.arch(), said, known.said) {
            return Ok(Some(Difference {
                pc,
                section: said.content,
                dwarf: Some(known.said.content),
            }));
        }
        if known.last >= last {
            return Ok(None);
        }
        pc = known.last + 1;
    }
}

/// Returns the offset at which a row begins, or the size if there is no row or it begins after that.
#[inline(always)]
fn edge(row: Option<Row>, size: u32) -> u32
    ensures { result ≡ edge_of row size }
{
    match row {
        Some(row) if row.start < size => row.start,
        _ => size,
    }
}

/// Compares a plain function of the section by its rows. They are read once, and only the next one is kept.
fn compare_rows(
    alloc: Global,
    head: &FuncHead,
    rows: RowIter<'_>,
    dwarf: &mut DwarfCursor<'_>,
) -> Result<Option<Difference>, NoMemory>
    requires ready { IsReady dwarf.old head.now.start }
    requires plain { IsTrue (spec.is_plain_shape head.now.shape) }
    requires comparable { IsComparable dwarf.old.arch (func_read head.now rows) }
    ensures same { OnOk result (IsSame dwarf.old dwarf.new) }
    ensures ready { OnOk result (IsReady dwarf.new (head.now.start + head.now.size)) }
    ensures compared { IfOk result (Compares (function_content (func_read head.now rows.entry)) (contents_of dwarf.old) head.now.start (head.now.start + head.now.size)) }
{
    let mut left = rows;
    let mut next = left.next();
    let mut from = edge(next, head.size);
    while let Some(row) = next {
        next = left.next();
        let end = edge(next, head.size);
        if from < end {
            let said = KeyedContent {
                content: row.content,
                key: head.key,
            };
            let first = head.start + u64::from(from);
            let last = head.start + u64::from(end - 1);
            let compared = compare_run(alloc, said, first, last, dwarf)?;
            if compared.is_some() {
                return Ok(compared);
            }
        }
        from = end;
    }
    Ok(None)
}

/// Compares a plain function of the section: its rows' bytes with those of the kept function, and its rows one by one only if
/// these differ.
fn compare_function(
    alloc: Global,
    head: &FuncHead,
    rows: RowIter<'_>,
    dwarf: &mut DwarfCursor<'_>,
) -> Result<Option<Difference>, NoMemory>
    requires ready { IsReady dwarf.old head.now.start }
    requires plain { IsTrue (spec.is_plain_shape head.now.shape) }
    requires comparable { IsComparable dwarf.old.arch (func_read head.now rows) }
    ensures same { OnOk result (IsSame dwarf.old dwarf.new) }
    ensures ready { OnOk result (IsReady dwarf.new (head.now.start + head.now.size)) }
    ensures compared { IfOk result (Compares (function_content (func_read head.now rows.entry)) (contents_of dwarf.old) head.now.start (head.now.start + head.now.size)) }
{
    if dwarf.keeps(head, &rows) {
        return Ok(None);
    }
    compare_rows(alloc, head, rows, dwarf)
}

/// Returns whether rows are looked up by the offset.
#[inline(always)]
pub fn is_plain_shape(shape: Shape) -> bool
    ensures { result ≡ spec.is_plain_shape shape }
{
    match shape {
        Shape::Plain => true,
        Shape::Repeat(_) => false,
    }
}

/// Compares the plain functions of a section, which are by rising start and share no address. Returns the least
/// address at which they differ, if there is one.
pub fn compare(
    alloc: Global,
    functions: &SectionFunctions<'_>,
    dwarf: &mut DwarfCursor<'_>,
) -> Result<Option<Difference>, NoMemory>
    requires ready { IsReady dwarf.old 0 }
    requires comparable { AreComparable dwarf.old.arch functions.now }
    ensures { IfOk result (ComparesAll (section_at (located_functions functions.now)) (contents_of dwarf.old)) }
{
    for place in 0..functions.len() {
        let head = functions.head(place);
        if is_plain_shape(head.shape) {
            let compared = compare_function(alloc, &head, functions.rows(place), dwarf)?;
            if compared.is_some() {
                return Ok(compared);
            }
        }
    }
    Ok(None)
}
