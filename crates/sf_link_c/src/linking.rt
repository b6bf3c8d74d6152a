//! The section of several inputs.

ghost use Rattle.std.specs.Prelude.{◌≡◌, IfOk, IfErr, IsTrue, None, map};
ghost use Rattle.sf_asm.specs.Answers.{IsFirstLinked, IsLinked};
ghost use Rattle.sf_asm.specs.Fault.{is_answered};
ghost use Rattle.sf_link_c.specs.Inputs.{AreFit, object_of_input};
ghost use Rattle.sf_link_c.specs.Linking as spec;

use crate::answer::UNFIT;
use crate::inputs::{KiblawenInput, are_fit, inputs_of};
use crate::linked::{KiblawenLinked, nothing_linked};
use crate::omissions::{KiblawenOmission, write_omissions};
use crate::refusals::{fault_answer, no_refusal, refusal_of};
use crate::room::write_section;
use sf_asm::{LinkFault, Linked};
use sf_base::NoMemory;
use sf_link::link;
use std::alloc::Global;

// Makes the section of inputs that are fit.
fn link_inputs(alloc: Global, inputs: &[KiblawenInput<'_>], at: u64) -> Result<Linked, LinkFault>
    requires { AreFit inputs.now }
    ensures linked { IfOk result (λ linked. IsLinked None (map object_of_input inputs.now) at linked.section.items linked.kept linked.omitted.items) }
    ensures fault { IfErr result (IsFirstLinked None (map object_of_input inputs.now) at) }
    ensures answered { IfErr result (λ fault. IsTrue (is_answered fault)) }
{
    match inputs_of(alloc, inputs) {
        Ok(all) => link(alloc, &all, at, None),
        Err(NoMemory) => Err(LinkFault::NoMemory),
    }
}

/// Makes the section of 1 to 512 inputs, for the address `at`, as `sf_link::link` does, and writes it to `out` if there is
/// room for it. Omitted functions are written to `omitted`, as many as there is room for, and the numbers of what was made
/// to `linked`. Returns 0; or 1 if `out` is too short; otherwise nothing is made: 2 if an input is refused, 3 and 4 if
/// there are too many functions or rows, 5 if memory runs out, 6 if the inputs are not fit.
#[unsafe(no_mangle)]
pub extern "C" fn kiblawen_link(
    alloc: Global,
    inputs: &[KiblawenInput<'_>],
    at: u64,
    out: &mut [u8],
    omitted: &mut [KiblawenOmission],
    linked: &mut KiblawenLinked,
) -> u32
    ensures { spec.Answers inputs.now at result out.old out.new omitted.old omitted.new linked.new }
{
    if !are_fit(inputs) {
        *linked = nothing_linked(no_refusal());
        return UNFIT;
    }
    match link_inputs(alloc, inputs, at) {
        Ok(made) => {
            *linked = KiblawenLinked {
                len: made.section.len(),
                functions: made.kept,
                omitted: made.omitted.len(),
                plts: 0,
                why: no_refusal(),
            };
            write_omissions(&made.omitted, omitted);
            write_section(&made.section, out)
        }
        Err(fault) => {
            *linked = nothing_linked(refusal_of(&fault));
            fault_answer(&fault)
        }
    }
}
