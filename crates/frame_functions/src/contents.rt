//! The content of an omitted function's rows from offset to offset.

ghost use Rattle.std.specs.Prelude.{◌≡◌, ◌<◌, ◌^◌, [], ◌∷◌, None, IfOk};
ghost use Rattle.sf_bytes.specs.Cursor.{cursor};
ghost use Rattle.cfa_insn.specs.Listing.{listing};
ghost use Rattle.cfa_machine.specs.Left.{rows_left};
ghost use Rattle.cfa_machine.specs.Pass.{rows_by};
ghost use Rattle.sf_express.specs.ContentRanges.{AreRangesOf, content_in};
ghost use Rattle.frame_functions.specs.Kept.{row_contents};
ghost use Rattle.frame_functions.specs.ContentAt.{AllFit, form_content, has_form};
ghost use Rattle.frame_functions.specs.Descriptions.{described_function};

use crate::description::Description;
use cfa_machine::{MachineFault, Runner, return_address_of};
use sf_base::NoMemory;
use sf_express::{ContentRange, ranges_run};
use sf_model::Arch;
use std::alloc::Global;

/// Returns whether SFrame has a form for the frames of a function.
fn has_sframe_form(description: &Description<'_>) -> bool
    ensures { result ≡ has_form (described_function description.now) }
{
    description.facts.column == return_address_of(description.arch) && !description.facts.signal
}

/// Starts the runner on an omitted function's own instructions, after those of its common information entry.
fn begin<'a>(description: &Description<'a>, run: &mut Runner<'a>)
    ensures small { description.now.facts.size < 2 ^ 64 }
    ensures begun { rows_left run.new ≡ rows_by description.now.arch description.now.code description.now.factor description.now.facts.size (listing (cursor description.now.initial)) (listing (cursor description.now.own)) }
{
    run.start_from(
        &description.row,
        description.arch,
        description.code,
        description.factor,
        description.own,
        description.facts.size,
    );
}

/// Returns the ranges of an omitted function whose frames SFrame has a form for. Its instructions were run when it was
/// read.
fn ranges_of<'a>(
    alloc: Global,
    description: &Description<'a>,
    run: &mut Runner<'a>,
) -> Result<Vec<ContentRange>, NoMemory>
    requires { 0 < description.now.facts.size }
    ensures said { IfOk result (λ ranges. AreRangesOf description.now.facts.size (λ offset. content_in (row_contents (described_function description.now) offset)) ranges.items) }
    ensures fits { IfOk result (λ ranges. AllFit description.now.arch ranges.items) }
{
    begin(description, run);
    match ranges_run(alloc, description.arch, run) {
        Ok(ranges) => Ok(ranges),
        Err(MachineFault::NoMemory) => Err(NoMemory),
        Err(_) => unreachable!(),
    }
}

/// Returns one range without a content.
fn no_content(alloc: Global) -> Result<Vec<ContentRange>, NoMemory>
    ensures { IfOk result (λ ranges. ranges.items ≡ record { start = 0; content = None } ∷ []) }
{
    let mut ranges = Vec::new(alloc);
    ranges.push(ContentRange {
        start: 0,
        content: None,
    })?;
    Ok(ranges)
}

/// Returns a function's ranges: its content from offset to offset, if SFrame has a form for it, with a range where it
/// changes. The caller owes a function that is not empty.
pub fn content_ranges<'a>(
    alloc: Global,
    description: &Description<'a>,
    run: &mut Runner<'a>,
) -> Result<Vec<ContentRange>, NoMemory>
    requires { 0 < description.now.facts.size }
    ensures said { IfOk result (λ ranges. AreRangesOf description.now.facts.size (form_content (described_function description.now)) ranges.items) }
    ensures fits { IfOk result (λ ranges. AllFit description.now.arch ranges.items) }
{
    if has_sframe_form(description) {
        ranges_of(alloc, description, run)
    } else {
        no_content(alloc)
    }
}
