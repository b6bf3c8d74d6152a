//! `link OUT@AT IN@BASE ..` makes the section of its inputs; `linkplt`, which has the same form, makes it with their
//! procedure linkage tables.

ghost use Rattle.std.specs.Prelude.{◌≡◌, List, ℕ, None};
ghost use Rattle.sf_words.specs.Files.{files_of, items_of};
ghost use Rattle.sf_words.specs.Forms.{section_and_inputs_of};
ghost use Rattle.sf_words.specs.Loading.{files_limit, loaded_bytes, loaded_items};
ghost use Rattle.section_commands.specs.Making.{ComesTo};
ghost use Rattle.sf_run.specs.Link.{IsLink, LinkComes, link_files};
ghost use Rattle.sf_run.specs.LinkPlt.{IsLinkPlt, LinkPltComes};

use crate::linked::{inputs_in, unlinked};
use section_commands::{Made, Outcome};
use sf_link::link;
use sf_plt::link_plt;
use sf_text::{Output, report, report_plt};
use sf_words::{CommandFiles, FileList, Loaded, Refusal, SectionAndInputs};
use std::alloc::Global;

/// Returns the section's file and the inputs' files.
pub fn files<'a>(named: &SectionAndInputs<'a>) -> CommandFiles<'a>
    ensures { files_of result ≡ link_files (section_and_inputs_of named.now) }
{
    CommandFiles {
        out: Some(named.section.name),
        first: None,
        second: None,
        list: FileList::Inputs(named.inputs),
    }
}

/// Makes the section of the inputs that were loaded, and the report on it.
///
/// # Errors
///
/// The first fault of linking, as a refusal; memory may run out at any time.
pub fn make<'a, 'm>(
    alloc: Global,
    named: &SectionAndInputs<'a>,
    loaded: &'m [Loaded<'a>],
) -> Result<Made<'m>, Refusal<'a>>
    requires asked { (words : List (List ℕ)) × IsLink words (section_and_inputs_of named.now) }
    requires items { loaded_items loaded.now ≡ items_of (link_files (section_and_inputs_of named.now)) }
    requires within { files_limit (link_files (section_and_inputs_of named.now)) (loaded_bytes loaded.now) ≡ None }
    ensures { ComesTo (LinkComes (section_and_inputs_of named.now) (loaded_bytes loaded.now)) result }
{
    let inputs = inputs_in(alloc, loaded)?;
    match link(alloc, &inputs, named.section.at, None) {
        Ok(linked) => {
            let text = report(alloc, linked.kept, &linked.omitted)?;
            Ok(Made {
                outcome: Outcome::Done,
                section: Some(linked.section),
                output: Output::Text(text),
            })
        }
        Err(fault) => Err(unlinked(&fault, None)),
    }
}

/// Makes the section of the inputs that were loaded, with their procedure linkage tables, and the report on it.
///
/// # Errors
///
/// The first fault of linking, as a refusal; memory may run out at any time.
pub fn make_with_plts<'a, 'm>(
    alloc: Global,
    named: &SectionAndInputs<'a>,
    loaded: &'m [Loaded<'a>],
) -> Result<Made<'m>, Refusal<'a>>
    requires asked { (words : List (List ℕ)) × IsLinkPlt words (section_and_inputs_of named.now) }
    requires items { loaded_items loaded.now ≡ items_of (link_files (section_and_inputs_of named.now)) }
    requires within { files_limit (link_files (section_and_inputs_of named.now)) (loaded_bytes loaded.now) ≡ None }
    ensures { ComesTo (LinkPltComes (section_and_inputs_of named.now) (loaded_bytes loaded.now)) result }
{
    let inputs = inputs_in(alloc, loaded)?;
    match link_plt(alloc, &inputs, named.section.at, None) {
        Ok(linked) => {
            let text = report_plt(alloc, linked.kept, &linked.omitted, &linked.plts)?;
            Ok(Made {
                outcome: Outcome::Done,
                section: Some(linked.section),
                output: Output::Text(text),
            })
        }
        Err(fault) => Err(unlinked(&fault, None)),
    }
}
