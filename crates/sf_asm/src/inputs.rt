//! All inputs in their order: their functions, and their one machine.

ghost use Rattle.std.specs.Prelude.{◌≡◌, ◌⊎◌, ◌≤◌, ◌<◌, ◌^◌, ℕ, List, All, length, map, not, Ok, Err, IfOk, IfErr, OnOk, position};
ghost use Rattle.sf_model.specs.declared.machine.Arch.{Arch as machine};
ghost use Rattle.frame_functions.specs.Answers.{seen_as};
ghost use Rattle.sf_asm.specs.declared.fault.GatherFault.TheVariants.{Input as RefusedInput, NoMemory};
ghost use Rattle.sf_asm.specs.Fault.{wraps_input};
ghost use Rattle.frame_functions.specs.Functions.{Function};
ghost use Rattle.sf_asm.specs.Functions.{functions_of, machine_of, named, object_functions, object_of, seen_behind, unless};
ghost use Rattle.sf_asm.specs.Inputs.{is_same, mixed_among, with_before};
ghost use Rattle.frame_functions.specs.ReadSoFar.{AreReadSoFar, AreSound, ReadsAll};
ghost use Rattle.elf_groups.specs.SeenSignatures.{HasSeen};

use crate::fault::GatherFault;
use crate::input::Input;
use crate::reading::read_input;
use elf_groups::SeenSignatures;
use frame_functions::{AsmFault, ReadFunctions};
use sf_model::Arch;
use std::alloc::Global;

/// The functions that were read of all inputs.
#[derive(Drop)]
pub struct AllFunctions<'a> {
    /// The machine of each input.
    pub machines: Vec<Arch>,
    /// The functions.
    pub read: ReadFunctions<'a>,
}

/// Wraps a fault of an input. `NoMemory` is passed on unwrapped.
fn input_fault(item: u32, fault: AsmFault) -> GatherFault
    ensures { result ≡ wraps_input item fault }
{
    match fault {
        AsmFault::NoMemory => GatherFault::NoMemory,
        _ => GatherFault::Input(item, fault),
    }
}

/// Reads the functions of one input, in their order, after those that were read before, and returns its machine.
fn read_item<'a>(
    alloc: Global,
    item: u32,
    input: &Input<'a>,
    lending: bool,
    seen: &mut SeenSignatures<'a>,
    read: &mut ReadFunctions<'a>,
) -> Result<Arch, GatherFault>
    requires { length (object_of input.now).bytes < 2 ^ 32 }
    ensures reads { OnOk result ((signatures : List (List ℕ)) → HasSeen seen.old signatures → ReadsAll lending read.old read.new (object_functions item signatures (object_of input.now))) }
    ensures seen { OnOk result ((signatures : List (List ℕ)) → HasSeen seen.old signatures → HasSeen seen.new (seen_behind signatures (object_of input.now))) }
    ensures arch { IfOk result (λ arch. arch ≡ machine_of (object_of input.now)) }
    ensures sound { IfOk result (λ arch. AreSound arch read.old → AreSound arch read.new) }
    ensures fault { IfErr result (λ fault. (signatures : List (List ℕ)) → HasSeen seen.old signatures → (fault ≡ NoMemory) ⊎ (named (RefusedInput item) (object_functions item signatures (object_of input.now)) ≡ Err fault)) }
{
    match read_input(alloc, item, input, lending, seen, read) {
        Ok(arch) => Ok(arch),
        Err(fault) => Err(input_fault(item, fault)),
    }
}

/// Reads the functions of all inputs, in their order, and the machine of each. The inputs are numbered from `first` on.
/// If `lending`, the omitted ones are lent. Past a limit functions are only counted.
pub fn read_all<'a>(
    alloc: Global,
    first: u32,
    inputs: &[Input<'a>],
    lending: bool,
) -> Result<AllFunctions<'a>, GatherFault>
    requires few { (first ≤ 1) × (length inputs.now ≤ 512) }
    requires small { All (λ input. length (object_of input).bytes < 2 ^ 32) inputs.now }
    ensures reads { IfOk result (λ all. (functions : List Function) × (functions_of first (map object_of inputs.now) ≡ Ok functions) × AreReadSoFar lending all.read functions) }
    ensures machines { IfOk result (λ all. all.machines.items ≡ map machine_of (map object_of inputs.now)) }
    ensures sound { IfOk result (λ all. (arch : machine) → All (λ machine. machine ≡ arch) all.machines.items → AreSound arch all.read) }
    ensures fault { IfErr result (λ fault. (fault ≡ NoMemory) ⊎ (functions_of first (map object_of inputs.now) ≡ Err fault)) }
{
    let mut seen = SeenSignatures::new(alloc);
    let mut all = AllFunctions {
        machines: Vec::new(alloc),
        read: ReadFunctions::new(alloc),
    };
    for (index, input) in inputs.iter().enumerate() {
        let item = first + index as u32;
        let arch = read_item(alloc, item, input, lending, &mut seen, &mut all.read)?;
        all.machines.push(arch)?;
    }
    Ok(all)
}

/// Returns whether two machines differ.
fn differ(one: Arch, other: Arch) -> bool
    ensures { result ≡ not (is_same one other) }
{
    match (one, other) {
        (Arch::Amd64, Arch::Amd64) | (Arch::Aarch64, Arch::Aarch64) => false,
        _ => true,
    }
}

/// Returns the place of the first machine that differs from this one.
fn first_differing(arch: Arch, machines: &[Arch]) -> Option<usize>
    ensures { result ≡ position (λ machine. not (is_same arch machine)) machines.now }
{
    machines.iter().position(|machine| differ(arch, *machine))
}

/// Returns the one machine of the inputs and of an item before them, if there is one.
pub fn one_machine(before: Option<Arch>, machines: &[Arch]) -> Result<Arch, GatherFault>
    requires { (0 < length machines.now) × (length machines.now ≤ 512) }
    ensures one { IfOk result (λ arch. All (λ machine. machine ≡ arch) (with_before before machines.now)) }
    ensures exact { seen_as (λ arch. tt) result ≡ unless (mixed_among (with_before before machines.now)) }
{
    let (first, arch) = match before {
        Some(arch) => (1, arch),
        None => (0, machines[0]),
    };
    match first_differing(arch, machines) {
        Some(index) => Err(GatherFault::MixedArch(0, first + index as u32)),
        None => Ok(arch),
    }
}
