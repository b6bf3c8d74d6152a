//! A section against the call frame information that it was made from.

ghost use Rattle.std.specs.Prelude.{◌≡◌, IsTrue};
ghost use Rattle.sf_verify.specs.FaultShown.{is_returned};
ghost use Rattle.sf_link_c.specs.Verifying as spec;

use crate::answer::{DIFFERS, FUNCTIONS, MADE, MEMORY, REFUSED, ROWS, UNFIT};
use crate::contents::{KiblawenContent, content_or_none, content_shown, no_content};
use crate::inputs::{KiblawenInput, are_fit, inputs_of};
use crate::refusals::{KiblawenRefusal, no_refusal, refusal_shown};
use sf_asm::GatherFault;
use sf_decode::LentSection;
use sf_model::Verdict;
use sf_verify::{VerifyFault, verify};
use std::alloc::Global;

/// A verdict, or why there is none.
#[repr(C)]
#[derive(Clone, Copy)]
pub struct KiblawenVerdict {
    /// The number of plain functions of the section, which agree.
    pub checked: u32,
    /// The number of expressible functions that the section doesn't have.
    pub missing: u32,
    /// The number of functions of repeated blocks, which are not compared.
    pub repeats: u32,
    /// The first address at which they differ.
    pub pc: u64,
    /// The section's content there.
    pub section: KiblawenContent,
    /// The content of the call frame information there, if it can be expressed.
    pub dwarf: KiblawenContent,
    /// The first fault.
    pub why: KiblawenRefusal,
}

// Returns a fault, as C has it. A limit and out of memory have no line.
fn refusal_of(fault: &VerifyFault) -> KiblawenRefusal
    requires { IsTrue (is_returned fault.now) }
    ensures { result ≡ spec.refusal_of fault.now }
{
    match fault {
        VerifyFault::NoMemory => no_refusal(),
        VerifyFault::Overlap(_) => refusal_shown(&fault.notice(Some(0))),
        VerifyFault::Gather(GatherFault::NoMemory) => no_refusal(),
        VerifyFault::Gather(GatherFault::TooManyFunctions) => no_refusal(),
        VerifyFault::Gather(GatherFault::TooManyRows) => no_refusal(),
        VerifyFault::Gather(GatherFault::Input(_, _)) => refusal_shown(&fault.notice(Some(0))),
        VerifyFault::Gather(GatherFault::MixedArch(_, _)) => refusal_shown(&fault.notice(Some(0))),
        VerifyFault::Gather(GatherFault::Overlap(_, _, _, _)) => {
            refusal_shown(&fault.notice(Some(0)))
        }
    }
}

// Returns the answer to a fault.
fn fault_answer(fault: &VerifyFault) -> u32
    ensures { result ≡ spec.fault_answer fault.now }
{
    match fault {
        VerifyFault::NoMemory => MEMORY,
        VerifyFault::Overlap(_) => REFUSED,
        VerifyFault::Gather(GatherFault::NoMemory) => MEMORY,
        VerifyFault::Gather(GatherFault::TooManyFunctions) => FUNCTIONS,
        VerifyFault::Gather(GatherFault::TooManyRows) => ROWS,
        VerifyFault::Gather(GatherFault::Input(_, _)) => REFUSED,
        VerifyFault::Gather(GatherFault::MixedArch(_, _)) => REFUSED,
        VerifyFault::Gather(GatherFault::Overlap(_, _, _, _)) => REFUSED,
    }
}

// Returns that there is no verdict, for a reason.
fn no_verdict(why: KiblawenRefusal) -> KiblawenVerdict
    ensures { result ≡ spec.no_verdict why }
{
    KiblawenVerdict {
        checked: 0,
        missing: 0,
        repeats: 0,
        pc: 0,
        section: no_content(),
        dwarf: no_content(),
        why,
    }
}

// Returns the answer to a verdict, and the verdict as C has it.
fn verdict_shown(verdict: &Verdict) -> (u32, KiblawenVerdict)
    ensures { result ≡ spec.verdict_shown verdict.now }
{
    let mut shown = no_verdict(no_refusal());
    match *verdict {
        Verdict::Agrees {
            checked,
            missing,
            repeats,
        } => {
            shown.checked = checked;
            shown.missing = missing;
            shown.repeats = repeats;
            (MADE, shown)
        }
        Verdict::Differs { pc, section, dwarf } => {
            shown.pc = pc;
            shown.section = content_shown(&section);
            shown.dwarf = content_or_none(dwarf);
            (DIFFERS, shown)
        }
    }
}

/// Compares an open section with 1 to 512 inputs, as `sf_verify::verify` does. Returns 0 if they agree, and 1 if they
/// differ; else the answers of `kiblawen_link`; 6 if the inputs are not fit or the section is closed.
#[unsafe(no_mangle)]
pub extern "C" fn kiblawen_verify(
    alloc: Global,
    section: &LentSection<'_>,
    inputs: &[KiblawenInput<'_>],
    verdict: &mut KiblawenVerdict,
) -> u32
    ensures { spec.Answers section.now inputs.now result verdict.new }
{
    let Some(view) = section.view() else {
        *verdict = no_verdict(no_refusal());
        return UNFIT;
    };
    if !are_fit(inputs) {
        *verdict = no_verdict(no_refusal());
        return UNFIT;
    }
    let Ok(all) = inputs_of(alloc, inputs) else {
        *verdict = no_verdict(no_refusal());
        return MEMORY;
    };
    match verify(alloc, &view, &all) {
        Ok(given) => {
            let (answer, shown) = verdict_shown(&given);
            *verdict = shown;
            answer
        }
        Err(fault) => {
            *verdict = no_verdict(refusal_of(&fault));
            fault_answer(&fault)
        }
    }
}
