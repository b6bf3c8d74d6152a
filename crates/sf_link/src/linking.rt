//! The section of several inputs.

ghost use Rattle.std.specs.Prelude.{◌≤◌, ◌<◌, ◌^◌, All, length, map, IfOk, IfErr, IsTrue};
ghost use Rattle.sf_model.specs.Section.{AreBytes};
ghost use Rattle.sf_asm.specs.Answers.{IsFirstLinked, IsLinked};
ghost use Rattle.sf_asm.specs.Fault.{is_answered};
ghost use Rattle.sf_asm.specs.Functions.{object_of};

use sf_asm::{Input, LinkFault, Linked, gather_together, link_gathered};
use sf_model::Arch;
use std::alloc::Global;

/// Makes the SFrame section of 1 to 512 inputs, for the address `at`. `before` is the machine of an item that
/// comes before the inputs, if there is one: the inputs are then numbered from 1, otherwise from 0. Of several
/// COMDAT groups with one signature, over all inputs, the first stays (ELF64 gABI, "Section Groups").
///
/// # Errors
///
/// The first fault of the first faulty input; then two machines, the limits of functions and rows, two
/// functions that share an address, and a function too far from the section, in this order; memory may run out
/// at any time.
pub fn link(
    alloc: Global,
    inputs: &[Input<'_>],
    at: u64,
    before: Option<Arch>,
) -> Result<Linked, LinkFault>
    requires some { (0 < length inputs.now) × (length inputs.now ≤ 512) }
    requires small { All (λ input. length (object_of input).bytes < 2 ^ 32) inputs.now }
    // The section is that of the inputs' kept functions, and these were omitted.
    ensures linked { IfOk result (λ linked. IsLinked before (map object_of inputs.now) at linked.section.items linked.kept linked.omitted.items) }
    ensures are_bytes { IfOk result (λ linked. AreBytes linked.section.items) }
    // A fault is the first one.
    ensures fault { IfErr result (IsFirstLinked before (map object_of inputs.now) at) }
    ensures answered { IfErr result (λ fault. IsTrue (is_answered fault)) }
{
    let functions = gather_together(alloc, inputs, before)?;
    link_gathered(alloc, functions, at)
}
