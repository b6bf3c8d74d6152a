//! The functions of all inputs, the kept ones parted from the omitted ones.

ghost use Rattle.std.specs.Prelude.{◌≡◌, ◌≤◌, ◌<◌, ◌^◌, All, length, map, Ok, None, IfOk, IfErr, IsTrue};
ghost use Rattle.std.specs.Option.{option_map};
ghost use Rattle.frame_functions.specs.ReadFunction.{IsSound, spans_of};
ghost use Rattle.frame_functions.specs.Answers.{LendsAll};
ghost use Rattle.sf_asm.specs.Answers.{AreTogether, IsFirstGathered};
ghost use Rattle.sf_asm.specs.Functions.{functions_of, object_of, unless};
ghost use Rattle.sf_asm.specs.Inputs.{HaveMachine, first_item as item_of_first};
ghost use Rattle.sf_asm.specs.Linking.{Gathers, functions_fault, overlap_fault, overlap_in};
ghost use Rattle.sf_asm.specs.Descriptions.{AreWithDescriptions};
ghost use Rattle.sf_asm.specs.Fault.{is_gather_answered};
ghost use Rattle.sf_write.specs.Stored.{IsStored, stored_in};

use crate::fault::GatherFault;
use crate::input::Input;
use crate::inputs::{AllFunctions, one_machine, read_all};
use crate::overlaps::Overlaps;
use frame_functions::{Descriptions, FunctionList, InputFunctions};
use sf_model::Arch;
use std::alloc::Global;

/// The functions of all inputs, in order.
#[derive(Drop)]
pub struct ReadInOrder<'a> {
    /// Their machine.
    pub arch: Arch,
    pub entries: FunctionList,
    /// The omitted ones as their records describe them, in the order of the inputs, or none.
    pub descriptions: Descriptions<'a>,
}

/// Checks that no function that has bytes begins before the end of the one before it.
fn check_overlaps(entries: &FunctionList) -> Result<(), GatherFault>
    ensures { result ≡ unless (option_map overlap_fault (overlap_in (spans_of entries.now))) }
{
    let mut overlaps = Overlaps::new();
    for number in 0..entries.len() {
        overlaps.see(entries.span(number));
    }
    overlaps.into_result()
}

/// Reads the functions of all inputs, checks their machines and the limits, brings them into order, and checks for
/// overlaps. If `lending`, the omitted ones are lent.
#[tactic(auto, using(crate::proofs::GatheredInputs::input_refused))]
pub fn ordered<'a>(
    alloc: Global,
    inputs: &[Input<'a>],
    before: Option<Arch>,
    lending: bool,
) -> Result<ReadInOrder<'a>, GatherFault>
    requires some { (0 < length inputs.now) × (length inputs.now ≤ 512) }
    requires small { All (λ input. length (object_of input).bytes < 2 ^ 32) inputs.now }
    ensures gathered { IfOk result (λ read. Gathers before (map object_of inputs.now) (Ok read.entries)) }
    ensures lent { IfOk result (λ read. IsTrue lending → LendsAll read.descriptions.functions (functions_of (item_of_first before) (map object_of inputs.now))) }
    ensures machine { IfOk result (λ read. HaveMachine before (map object_of inputs.now) read.arch) }
    ensures sound { IfOk result (λ read. All (IsSound read.arch) read.entries) }
    ensures checked { IfOk result (λ read. functions_fault read.entries ≡ None) }
    ensures fault { IfErr result (IsFirstGathered before (map object_of inputs.now)) }
{
    let AllFunctions { machines, read } = read_all(alloc, first_item(before), inputs, lending)?;
    let arch = one_machine(before, &machines)?;
    let held = read.within_limits()?;
    let entries = held.entries.in_order()?;
    check_overlaps(&entries)?;
    Ok(ReadInOrder {
        arch,
        entries,
        descriptions: held.descriptions,
    })
}

/// Returns the number of the first input.
pub fn first_item(before: Option<Arch>) -> u32
    ensures { result ≡ item_of_first before }
{
    match before {
        Some(_) => 1,
        None => 0,
    }
}

/// Gathers the functions of 1 to 512 inputs as [`gather`](crate::gather) does, into one list by rising start. The rows of all are in
/// one list, too.
///
/// # Errors
///
/// Those of [`gather`](crate::gather).
pub fn gather_together<'a>(
    alloc: Global,
    inputs: &[Input<'a>],
    before: Option<Arch>,
) -> Result<InputFunctions<'a>, GatherFault>
    requires some { (0 < length inputs.now) × (length inputs.now ≤ 512) }
    requires small { All (λ input. length (object_of input).bytes < 2 ^ 32) inputs.now }
    // The functions are those of the inputs by rising start, and one section can hold them.
    ensures gathered { IfOk result (λ g. AreTogether before (map object_of inputs.now) g.arch (map (stored_in g.rows) g.kept) g.omitted.items) }
    // Their rows are those of the list.
    ensures stored { IfOk result (λ g. All (IsStored g.rows) g.kept) }
    // All items have this machine.
    ensures machine { IfOk result (λ g. HaveMachine before (map object_of inputs.now) g.arch) }
    // A fault is the first one.
    ensures fault { IfErr result (IsFirstGathered before (map object_of inputs.now)) }
    ensures answered { IfErr result (λ fault. IsTrue (is_gather_answered fault)) }
{
    let read = ordered(alloc, inputs, before, false)?;
    Ok(read.entries.part(alloc, read.arch, read.descriptions)?)
}

/// Gathers the functions of 1 to 512 inputs as [`gather_together`] does, and lends the omitted ones as their
/// records describe them.
///
/// # Errors
///
/// Those of [`gather`](crate::gather).
pub fn gather_with_descriptions<'a>(
    alloc: Global,
    inputs: &[Input<'a>],
    before: Option<Arch>,
) -> Result<InputFunctions<'a>, GatherFault>
    requires some { (0 < length inputs.now) × (length inputs.now ≤ 512) }
    requires small { All (λ input. length (object_of input).bytes < 2 ^ 32) inputs.now }
    // The functions are those of the inputs by rising start, one section can hold the kept ones, and the
    // descriptions are the omitted ones, one for each in the same order.
    ensures gathered { IfOk result (λ g. AreWithDescriptions before (map object_of inputs.now) g.arch (map (stored_in g.rows) g.kept) g.omitted.items g.descriptions.functions) }
    // The rows of the kept functions are those of the list.
    ensures stored { IfOk result (λ g. All (IsStored g.rows) g.kept) }
    // All items have this machine.
    ensures machine { IfOk result (λ g. HaveMachine before (map object_of inputs.now) g.arch) }
    // A fault is the first one.
    ensures fault { IfErr result (IsFirstGathered before (map object_of inputs.now)) }
    ensures answered { IfErr result (λ fault. IsTrue (is_gather_answered fault)) }
{
    let mut read = ordered(alloc, inputs, before, true)?;
    read.descriptions.sort()?;
    Ok(read.entries.part(alloc, read.arch, read.descriptions)?)
}
