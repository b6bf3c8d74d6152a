//! The section of several inputs, with their procedure linkage tables.

ghost use Rattle.std.specs.Prelude.{◌≡◌, IfOk, IfErr, IsTrue, None, map};
ghost use Rattle.sf_asm.specs.Fault.{is_answered};
ghost use Rattle.sf_plt.specs.Answers.{IsFirstPltLinked, IsPltLinked};
ghost use Rattle.sf_link_c.specs.Inputs.{AreFit, object_of_input};
ghost use Rattle.sf_link_c.specs.LinkingPlt as spec;

use crate::answer::UNFIT;
use crate::inputs::{KiblawenInput, are_fit, inputs_of};
use crate::linked::{KiblawenLinked, nothing_linked};
use crate::omissions::{KiblawenOmission, KiblawenPlt, write_omissions, write_plts};
use crate::refusals::{fault_answer, no_refusal, refusal_of};
use crate::room::write_section;
use sf_asm::LinkFault;
use sf_base::NoMemory;
use sf_plt::{PltLinked, link_plt};
use std::alloc::Global;

// Makes the section of inputs that are fit, with their procedure linkage tables.
fn link_inputs(alloc: Global, inputs: &[KiblawenInput<'_>], at: u64) -> Result<PltLinked, LinkFault>
    requires { AreFit inputs.now }
    ensures linked { IfOk result (λ linked. IsPltLinked None (map object_of_input inputs.now) at linked.section.items linked.kept linked.omitted.items linked.plts.items) }
    ensures fault { IfErr result (IsFirstPltLinked None (map object_of_input inputs.now) at) }
    ensures answered { IfErr result (λ fault. IsTrue (is_answered fault)) }
{
    match inputs_of(alloc, inputs) {
        Ok(all) => link_plt(alloc, &all, at, None),
        Err(NoMemory) => Err(LinkFault::NoMemory),
    }
}

/// Makes the section of 1 to 512 inputs, as `kiblawen_link` does, with rows for each plain lazy procedure linkage table, as
/// `sf_plt::link_plt` does. These tables are written to `plts`, as many as there is room for. The answers are those of
/// `kiblawen_link`.
#[unsafe(no_mangle)]
pub extern "C" fn kiblawen_linkplt(
    alloc: Global,
    inputs: &[KiblawenInput<'_>],
    at: u64,
    out: &mut [u8],
    omitted: &mut [KiblawenOmission],
    plts: &mut [KiblawenPlt],
    linked: &mut KiblawenLinked,
) -> u32
    ensures { spec.Answers inputs.now at result out.old out.new omitted.old omitted.new plts.old plts.new linked.new }
{
    if !are_fit(inputs) {
        *linked = nothing_linked(no_refusal());
        return UNFIT;
    }
    match link_inputs(alloc, inputs, at) {
        Ok(made) => {
            *linked = KiblawenLinked {
                len: made.section.len(),
                functions: made.kept,
                omitted: made.omitted.len(),
                plts: made.plts.len(),
                why: no_refusal(),
            };
            write_omissions(&made.omitted, omitted);
            write_plts(&made.plts, plts);
            write_section(&made.section, out)
        }
        Err(fault) => {
            *linked = nothing_linked(refusal_of(&fault));
            fault_answer(&fault)
        }
    }
}
