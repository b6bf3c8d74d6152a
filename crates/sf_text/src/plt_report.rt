//! The report of a link with procedure linkage tables.

ghost use Rattle.std.specs.Prelude.{◌≡◌, ◌++◌, string_bytes, IfOk, OnOk};
ghost use Rattle.std.specs.List.{flat_map};
ghost use Rattle.sf_text.specs.PltReport.{comes_before as is_before, is_earlier as is_earlier_origin, omitted_and_tables, plt_report_text, table_line, table_text, tables_after, tables_before, three_counts_line};

use crate::link_report::{push_line, push_origin};
use crate::shown::Hexadecimal;
use sf_base::NoMemory;
use sf_model::{Omitted, Origin, Span};
use std::alloc::{AllocError, Global};
use std::fmt::Write;

/// Returns the report of a link that kept `kept` functions and wrote these procedure linkage tables: a line
/// for each omitted function and each table, in the order of both by start and then origin, and a line with
/// the three counts. Both lists are in that order.
#[tactic(auto, unfolding(crate::specs::PltReport::plt_report_text))]
pub fn report_plt(
    alloc: Global,
    kept: u32,
    omitted: &[Omitted],
    plts: &[Span],
) -> Result<Vec<u8>, NoMemory>
    ensures { IfOk result (λ text. text.items ≡ plt_report_text kept omitted.now plts.now) }
{
    let mut text = String::new(alloc);
    push_both(&mut text, omitted, plts)?;
    push_three_counts(&mut text, kept, omitted.len(), plts.len())?;
    Ok(text.into_bytes())
}

/// Appends the lines of the omitted functions and of the tables.
fn push_both(text: &mut String, omitted: &[Omitted], plts: &[Span]) -> Result<(), AllocError>
    ensures { OnOk result (string_bytes text.new ≡ string_bytes text.old ++ omitted_and_tables omitted.now plts.now) }
{
    let mut left = plts;
    for function in omitted {
        left = push_tables_before(text, function, left)?;
        push_line(text, function)?;
    }
    push_tables(text, left)
}

/// Appends the lines of the tables at the front that come before an omitted function, and returns the others.
fn push_tables_before<'a>(
    text: &mut String,
    function: &Omitted,
    plts: &'a [Span],
) -> Result<&'a [Span], AllocError>
    ensures text { OnOk result (string_bytes text.new ≡ string_bytes text.old ++ flat_map table_line (tables_before function.now plts.now)) }
    ensures left { IfOk result (λ left. left.now ≡ tables_after function.now plts.now) }
{
    for (index, table) in plts.iter().enumerate() {
        if !comes_before(function, table) {
            let (_, left) = plts.split_at(index);
            return Ok(left);
        }
        push_table(text, table)?;
    }
    Ok(&[])
}

/// Appends the lines of tables.
fn push_tables(text: &mut String, plts: &[Span]) -> Result<(), AllocError>
    ensures { OnOk result (string_bytes text.new ≡ string_bytes text.old ++ flat_map table_line plts.now) }
{
    for table in plts {
        push_table(text, table)?;
    }
    Ok(())
}

/// Returns whether a table comes before an omitted function, by start and then origin.
fn comes_before(function: &Omitted, table: &Span) -> bool
    ensures { result ≡ is_before function.now table.now }
{
    table.start < function.start
        || table.start == function.start && is_earlier(table.origin, function.origin)
}

/// Returns whether a record comes before another one, by input, section and place.
fn is_earlier(a: Origin, b: Origin) -> bool
    ensures { result ≡ is_earlier_origin a b }
{
    a.item < b.item
        || a.item == b.item
            && (a.section < b.section || a.section == b.section && a.place < b.place)
}

/// Appends the line of a table.
#[tactic(auto, unfolding(crate::specs::PltReport::table_line))]
fn push_table(text: &mut String, table: &Span) -> Result<(), AllocError>
    ensures { OnOk result (string_bytes text.new ≡ string_bytes text.old ++ table_line table.now) }
{
    push_addresses(text, table.start, table.size)?;
    push_origin(text, table.origin)?;
    text.push_str("\n")
}

/// Appends the table's addresses.
#[tactic(auto, unfolding(crate::specs::PltReport::table_text))]
fn push_addresses(text: &mut String, start: u64, size: u64) -> Result<(), AllocError>
    ensures { OnOk result (string_bytes text.new ≡ string_bytes text.old ++ table_text start size) }
{
    write!(text, "plt {} size {}", Hexadecimal(start), size)
}

/// Appends the line with the counts.
#[tactic(auto, unfolding(crate::specs::PltReport::three_counts_line))]
fn push_three_counts(
    text: &mut String,
    kept: u32,
    omitted: usize,
    tables: usize,
) -> Result<(), AllocError>
    ensures { OnOk result (string_bytes text.new ≡ string_bytes text.old ++ three_counts_line kept omitted tables) }
{
    write!(text, "kept {} omitted {} plt {}\n", kept, omitted, tables)
}
