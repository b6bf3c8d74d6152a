//! The functions of sections, read and in order.

ghost use Rattle.std.specs.Prelude.{◌≡◌, ◌<◌, ◌≤◌, ◌++◌, length, map, IfOk, OnOk, All};
ghost use Rattle.std.specs.List.{filter};
ghost use Rattle.sf_decode.specs.View.{table_of, function_of};
ghost use Rattle.sf_merge.specs.InSection.{IsEntry, all_at};
ghost use Rattle.sf_functions.specs.Order.{IsInOrder};
ghost use Rattle.sf_merge.specs.Located.{is_sized, located, located_start, sized_in_all};
ghost use Rattle.sf_merge.specs.OneSection.{sized_in};
ghost use Rattle.sf_merge.specs.Views.{IsViewOfSection};

use crate::functions::LocatedFunctions;
use crate::in_section::{SectionEntry, SectionFunctions};
use sf_base::NoMemory;
use sf_decode::{View, functions_are_numbered, view_is_a_section};
use sf_functions::sort_by_start;
use sf_model::{Func, Key, Rows, Shape};
use std::alloc::Global;

/// Makes a function to read into, with memory for rows.
fn empty_function(alloc: Global, rows: u32) -> Result<Func, NoMemory> {
    Ok(Func {
        start: 0,
        size: 0,
        shape: Shape::Plain,
        key: Key::A,
        rows: Rows::with_capacity(alloc, rows as usize)?,
    })
}

/// Reads the rows of an entry. The rows that were in the list are dropped.
#[inline(always)]
fn read_rows(view: &View<'_>, number: u32, rows: &mut Rows) -> Result<(), NoMemory>
    requires { number < length (table_of view.now).functions }
    ensures { OnOk result (rows.new ≡ (function_of view.now number).rows) }
{
    rows.clear();
    for row in view.rows(number) {
        rows.push(row)?;
    }
    Ok(())
}

/// Reads the function of an entry, with its rows, over the one that is there.
#[inline(always)]
fn read_function(view: &View<'_>, number: u32, func: &mut Func) -> Result<(), NoMemory>
    requires { number < length (table_of view.now).functions }
    ensures { OnOk result (func.new ≡ function_of view.now number) }
{
    let head = view.func(number);
    func.start = head.start;
    func.size = head.size;
    func.shape = head.shape;
    func.key = head.key;
    read_rows(view, number, &mut func.rows)
}

/// Lists the entries of a section whose functions have bytes, by number.
fn entries_of(alloc: Global, view: &View<'_>) -> Result<Vec<SectionEntry>, NoMemory>
    ensures all { IfOk result (λ entries. all_at view.now entries.items ≡ sized_in (table_of view.now)) }
    ensures each { IfOk result (λ entries. All (IsEntry view.now) entries.items) }
{
    functions_are_numbered(view);
    let mut entries = Vec::new(alloc);
    for number in 0..view.len() {
        let head = view.func(number);
        if head.size != 0 {
            entries.push(SectionEntry {
                start: head.start,
                size: head.size,
                number,
            })?;
        }
    }
    Ok(entries)
}

/// Lists the functions of a section that hold an address, by start and then by entry. If the section has
/// them in order, sorting takes one pass.
///
/// # Errors
///
/// `NoMemory` alone.
pub fn in_order<'a>(alloc: Global, view: &View<'a>) -> Result<SectionFunctions<'a>, NoMemory>
    ensures order { IfOk result (λ functions. IsInOrder located_start (sized_in (table_of view.now)) functions) }
    ensures read { IsViewOfSection view.now }
{
    view_is_a_section(view);
    let mut entries = entries_of(alloc, view)?;
    sort_by_start(&mut entries)?;
    Ok(SectionFunctions {
        view: *view,
        entries,
    })
}

/// Stores the functions of a section that have bytes, by entry. Each is read over `spare`.
fn store_functions(
    all: &mut LocatedFunctions,
    item: u32,
    view: &View<'_>,
    spare: &mut Func,
) -> Result<(), NoMemory>
    ensures all { OnOk result (all.new ≡ all.old ++ filter is_sized (located item (table_of view.now))) }
    ensures read { IsViewOfSection view.now }
{
    view_is_a_section(view);
    functions_are_numbered(view);
    for number in 0..view.len() {
        read_function(view, number, spare)?;
        if spare.size != 0 {
            all.push(view.arch(), item, number, spare)?;
        }
    }
    Ok(())
}

/// Counts the functions of all sections.
fn count_functions(views: &[View<'_>]) -> usize
    requires { length views.now ≤ 512 }
{
    let mut functions = 0;
    for view in views {
        functions += view.len() as usize;
    }
    functions
}

/// Reads those functions of all sections that have bytes, and sorts them once. If they are in order already,
/// sorting takes one pass.
pub fn all_in_order(alloc: Global, views: &[View<'_>]) -> Result<LocatedFunctions, NoMemory>
    requires { length views.now ≤ 512 }
    ensures order { IfOk result (λ all. IsInOrder located_start (sized_in_all (map table_of views.now)) all) }
    ensures read { OnOk result (All IsViewOfSection views.now) }
{
    let mut all = LocatedFunctions::with_capacity(alloc, count_functions(views))?;
    let mut spare = empty_function(alloc, 0)?;
    let mut item = 0;
    for view in views {
        store_functions(&mut all, item, view, &mut spare)?;
        item += 1;
    }
    all.order()?;
    Ok(all)
}
