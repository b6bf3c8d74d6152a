//! One section of several sections.

ghost use Rattle.std.specs.Prelude.{◌≡◌, ◌≤◌, ◌↔◌, ◌++◌, [], IfOk, IfErr, IsTrue, OnOk, length, map, filter_map};
ghost use Rattle.std.specs.List.{cons_option};
ghost use Rattle.sf_decode.specs.Kept.{table_lent};
ghost use Rattle.sf_decode.specs.View.{table_of};
ghost use Rattle.sf_merge.specs.Answers.{IsFirstMergeFault, IsMerged};
ghost use Rattle.sf_link_c.specs.Merging as spec;

use crate::answer::{FUNCTIONS, MEMORY, REFUSED, ROWS, UNFIT};
use crate::made::{KiblawenMade, nothing_made};
use crate::refusals::{KiblawenRefusal, no_refusal, refusal_shown};
use crate::room::write_section;
use sf_base::NoMemory;
use sf_decode::{LentSection, View};
use sf_merge::{MergeFault, MergedSection, merge};
use std::alloc::Global;

/// The greatest number of sections.
const MOST_SECTIONS: usize = 512;

// Returns 1 for an open section, and 0 for a closed one.
fn open_number(section: &LentSection<'_>) -> usize
    ensures number { result ≡ length (cons_option (table_lent section.now) []) }
    ensures one { result ≤ 1 }
{
    match section.view() {
        Some(_) => 1,
        None => 0,
    }
}

// Returns the number of open sections.
fn count_open(sections: &[LentSection<'_>]) -> usize
    ensures { result ≡ length (filter_map table_lent sections.now) }
{
    let mut count = 0;
    for section in sections {
        count += open_number(section);
    }
    count
}

// Returns whether sections can be merged at all.
fn are_open(sections: &[LentSection<'_>]) -> bool
    ensures { IsTrue result ↔ spec.AreOpen sections.now }
{
    !sections.is_empty()
        && sections.len() <= MOST_SECTIONS
        && count_open(sections) == sections.len()
}

// Adds the view of a section, if it is open.
fn push_view<'a>(views: &mut Vec<View<'a>>, section: &LentSection<'a>) -> Result<(), NoMemory>
    ensures { OnOk result (map table_of views.new.items ≡ map table_of views.old.items ++ cons_option (table_lent section.now) []) }
{
    if let Some(view) = section.view() {
        views.push(view)?;
    }
    Ok(())
}

// Returns the views of the open sections.
fn views_of<'a>(alloc: Global, sections: &[LentSection<'a>]) -> Result<Vec<View<'a>>, NoMemory>
    ensures { IfOk result (λ views. map table_of views.items ≡ filter_map table_lent sections.now) }
{
    let mut views = Vec::new(alloc);
    for section in sections {
        push_view(&mut views, section)?;
    }
    Ok(views)
}

// Returns a fault, as C has it. A limit and out of memory have no line.
fn refusal_of(fault: MergeFault) -> KiblawenRefusal
    ensures { result ≡ spec.refusal_of fault }
{
    match fault {
        MergeFault::NoMemory => no_refusal(),
        MergeFault::TooManyFunctions => no_refusal(),
        MergeFault::TooManyRows => no_refusal(),
        MergeFault::MixedArch(_, _) => refusal_shown(&fault.notice(None)),
        MergeFault::Overlap(_, _, _, _) => refusal_shown(&fault.notice(None)),
        MergeFault::OutOfReach(_) => refusal_shown(&fault.notice(None)),
    }
}

// Returns the answer to a fault.
fn fault_answer(fault: MergeFault) -> u32
    ensures { result ≡ spec.fault_answer fault }
{
    match fault {
        MergeFault::NoMemory => MEMORY,
        MergeFault::TooManyFunctions => FUNCTIONS,
        MergeFault::TooManyRows => ROWS,
        MergeFault::MixedArch(_, _) => REFUSED,
        MergeFault::Overlap(_, _, _, _) => REFUSED,
        MergeFault::OutOfReach(_) => REFUSED,
    }
}

// Merges open sections.
fn merge_open(
    alloc: Global,
    sections: &[LentSection<'_>],
    at: u64,
) -> Result<MergedSection, MergeFault>
    requires { spec.AreOpen sections.now }
    ensures merged { IfOk result (λ merged. IsMerged (filter_map table_lent sections.now) at merged.section.items merged.functions merged.rows) }
    ensures fault { IfErr result (IsFirstMergeFault (filter_map table_lent sections.now) at) }
{
    match views_of(alloc, sections) {
        Ok(views) => merge(alloc, &views, at),
        Err(NoMemory) => Err(MergeFault::NoMemory),
    }
}

/// Makes one section of 1 to 512 open sections, for the address `at`, as `sf_merge::merge` does, and writes it to `out` if
/// there is room for it. Returns the answers of `kiblawen_link`; 6 if there are none or more, or one is closed.
#[unsafe(no_mangle)]
pub extern "C" fn kiblawen_merge(
    alloc: Global,
    sections: &[LentSection<'_>],
    at: u64,
    out: &mut [u8],
    merged: &mut KiblawenMade,
) -> u32
    ensures { spec.Answers sections.now at result out.old out.new merged.new }
{
    if !are_open(sections) {
        *merged = nothing_made(no_refusal());
        return UNFIT;
    }
    match merge_open(alloc, sections, at) {
        Ok(made) => {
            *merged = KiblawenMade {
                len: made.section.len(),
                functions: made.functions,
                rows: made.rows,
                why: no_refusal(),
            };
            write_section(&made.section, out)
        }
        Err(fault) => {
            *merged = nothing_made(refusal_of(fault));
            fault_answer(fault)
        }
    }
}
