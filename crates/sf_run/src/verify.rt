//! `verify FILE@AT IN@BASE ..` compares a section with the call frame information of its inputs.

ghost use Rattle.std.specs.Prelude.{◌≡◌, List, ℕ, None, IsTrue};
ghost use Rattle.sf_verify.specs.FaultShown.{is_returned};
ghost use Rattle.sf_words.specs.Files.{files_of, items_of};
ghost use Rattle.sf_words.specs.Forms.{section_and_inputs_of};
ghost use Rattle.sf_words.specs.Loading.{files_limit, loaded_bytes, loaded_items};
ghost use Rattle.section_commands.specs.Coming.{Coming};
ghost use Rattle.section_commands.specs.Making.{ComesAs, ComesTo};
ghost use Rattle.sf_run.specs.Verify as spec;
ghost use Rattle.sf_run.specs.Verify.{IsVerify, VerifyComes, coming_of_verifying, verify_files};

use crate::linked::inputs_in;
use section_commands::{Made, Outcome, undecoded};
use sf_asm::GatherFault;
use sf_decode::View;
use sf_model::Verdict;
use sf_text::{Output, verdict};
use sf_verify::{VerifyFault, verify};
use sf_words::{CommandFiles, FileList, Item, Limit, Loaded, Refusal, SectionAndInputs};
use std::alloc::Global;

/// Returns why a section was not verified, as a refusal of the run. The section is item 0.
fn unverified<'a>(fault: &VerifyFault) -> Refusal<'a>
    requires { IsTrue (is_returned fault.now) }
    ensures memory { (fault.now ≡ VerifyFault.NoMemory) → (result ≡ Refusal.Memory) }
    ensures is { ComesAs (λ (coming : Coming). coming ≡ coming_of_verifying fault.now) result }
{
    match fault {
        VerifyFault::NoMemory | VerifyFault::Gather(GatherFault::NoMemory) => Refusal::Memory,
        VerifyFault::Gather(GatherFault::TooManyFunctions) => Refusal::Limit(Limit::Functions),
        VerifyFault::Gather(GatherFault::TooManyRows) => Refusal::Limit(Limit::Rows),
        VerifyFault::Gather(GatherFault::Input(_, _)) => Refusal::Input(fault.notice(Some(0))),
        VerifyFault::Gather(GatherFault::MixedArch(_, _)) => Refusal::Input(fault.notice(Some(0))),
        VerifyFault::Gather(GatherFault::Overlap(_, _, _, _)) => {
            Refusal::Input(fault.notice(Some(0)))
        }
        VerifyFault::Overlap(_) => Refusal::Input(fault.notice(Some(0))),
    }
}

/// Returns the outcome: no if the section differs.
fn outcome_of(verdict: &Verdict) -> Outcome
    ensures { result ≡ spec.verdict_outcome verdict.now }
{
    match verdict {
        Verdict::Agrees { .. } => Outcome::Done,
        Verdict::Differs { .. } => Outcome::Negative,
    }
}

/// Returns the section's file and the inputs' files.
pub fn files<'a>(named: &SectionAndInputs<'a>) -> CommandFiles<'a>
    ensures { files_of result ≡ verify_files (section_and_inputs_of named.now) }
{
    CommandFiles {
        out: None,
        first: Some(Item::Section(named.section)),
        second: None,
        list: FileList::Inputs(named.inputs),
    }
}

/// Makes the verdict on the section that was loaded first, by the inputs that were loaded after it.
///
/// # Errors
///
/// The first fault of the section or of the inputs, as a refusal; memory may run out at any time.
pub fn make<'a, 'm>(
    alloc: Global,
    named: &SectionAndInputs<'a>,
    loaded: &'m [Loaded<'a>],
) -> Result<Made<'m>, Refusal<'a>>
    requires asked { (words : List (List ℕ)) × IsVerify words (section_and_inputs_of named.now) }
    requires items { loaded_items loaded.now ≡ items_of (verify_files (section_and_inputs_of named.now)) }
    requires within { files_limit (verify_files (section_and_inputs_of named.now)) (loaded_bytes loaded.now) ≡ None }
    ensures { ComesTo (VerifyComes (section_and_inputs_of named.now) (loaded_bytes loaded.now)) result }
{
    let [section, inputs @ ..] = loaded else {
        unreachable!()
    };
    let view = match View::parse(section.bytes(), named.section.at) {
        Ok(view) => view,
        Err(fault) => return Err(undecoded(fault, 0)),
    };
    let inputs = inputs_in(alloc, inputs)?;
    match verify(alloc, &view, &inputs) {
        Ok(found) => {
            let text = verdict(alloc, &found)?;
            Ok(Made {
                outcome: outcome_of(&found),
                section: None,
                output: Output::Text(text),
            })
        }
        Err(fault) => Err(unverified(&fault)),
    }
}
