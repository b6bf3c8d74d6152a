//! The shortest section that recovers what a section recovers.

ghost use Rattle.std.specs.Prelude.{◌≡◌};
ghost use Rattle.sf_link_c.specs.Slimming as spec;

use crate::answer::{MEMORY, REFUSED, UNFIT};
use crate::made::{KiblawenMade, nothing_made};
use crate::refusals::{KiblawenRefusal, no_refusal, refusal_shown};
use crate::room::write_section;
use sf_decode::LentSection;
use sf_slim::{SlimFault, slim};
use std::alloc::Global;

// Returns a fault, as C has it. Out of memory has no line.
fn refusal_of(fault: &SlimFault) -> KiblawenRefusal
    ensures { result ≡ spec.refusal_of fault.now }
{
    match fault {
        SlimFault::NoMemory => no_refusal(),
        SlimFault::Overlap(_) => refusal_shown(&fault.notice(Some(0))),
        SlimFault::OutOfReach(_) => refusal_shown(&fault.notice(Some(0))),
    }
}

// Returns the answer to a fault.
fn fault_answer(fault: &SlimFault) -> u32
    ensures { result ≡ spec.fault_answer fault.now }
{
    match fault {
        SlimFault::NoMemory => MEMORY,
        SlimFault::Overlap(_) => REFUSED,
        SlimFault::OutOfReach(_) => REFUSED,
    }
}

/// Makes the shortest section for the address `at` that recovers what an open section recovers, as `sf_slim::slim` does,
/// and writes it to `out` if there is room for it. Returns the answers of `kiblawen_link`; 6 if the section is closed.
#[unsafe(no_mangle)]
pub extern "C" fn kiblawen_slim(
    alloc: Global,
    section: &LentSection<'_>,
    at: u64,
    out: &mut [u8],
    slimmed: &mut KiblawenMade,
) -> u32
    ensures { spec.Answers section.now at result out.old out.new slimmed.new }
{
    let Some(view) = section.view() else {
        *slimmed = nothing_made(no_refusal());
        return UNFIT;
    };
    match slim(alloc, &view, at) {
        Ok(made) => {
            *slimmed = KiblawenMade {
                len: made.section.len(),
                functions: made.functions,
                rows: made.rows,
                why: no_refusal(),
            };
            write_section(&made.section, out)
        }
        Err(fault) => {
            *slimmed = nothing_made(refusal_of(&fault));
            fault_answer(&fault)
        }
    }
}
