//! The functions of one input, in the order of its sections and records.

ghost use Rattle.std.specs.Prelude.{◌≡◌, ◌<◌, ◌^◌, ℕ, List, [], ◌∷◌, length, IfOk, OnOk};
ghost use Rattle.frame_functions.specs.CallFrames.{bare_section};
ghost use Rattle.frame_functions.specs.Functions.{sections_functions};
ghost use Rattle.sf_asm.specs.Functions.{machine_of, object_functions, object_of, seen_behind};
ghost use Rattle.frame_functions.specs.ReadSoFar.{AreSound, ReadsMore};
ghost use Rattle.elf_groups.specs.SeenSignatures.{HasSeen};

use crate::elf::{read_file, read_linked};
use crate::input::{Input, InputBytes};
use elf_groups::SeenSignatures;
use frame_functions::{AsmFault, CallFrameSection, ReadFunctions, read_section};
use sf_model::Arch;
use std::alloc::Global;

/// The section number of a bare input.
const BARE_SECTION: u32 = 0;

/// Reads the functions of a bare section of this machine that is at `base`, after those that were read before.
fn read_bare<'a>(
    alloc: Global,
    arch: Arch,
    item: u32,
    bytes: &'a [u8],
    base: u64,
    lending: bool,
    read: &mut ReadFunctions<'a>,
) -> Result<(), AsmFault>
    requires { length bytes.now < 2 ^ 32 }
    ensures exact { ReadsMore lending result read.old read.new (sections_functions arch item (bare_section bytes.now base ∷ [])) }
    ensures sound { OnOk result (AreSound arch read.old → AreSound arch read.new) }
{
    let section = CallFrameSection {
        arch,
        item,
        number: BARE_SECTION,
        bytes,
        address: base,
        shift: 0,
    };
    read_section(alloc, &section, None, lending, read)
}

/// Reads the functions of an input, in the order of its sections and records, after those that were read
/// before, and returns its machine. A group of a later place with a signature of its groups is then dropped.
pub fn read_input<'a>(
    alloc: Global,
    item: u32,
    input: &Input<'a>,
    lending: bool,
    seen: &mut SeenSignatures<'a>,
    read: &mut ReadFunctions<'a>,
) -> Result<Arch, AsmFault>
    requires { length (object_of input.now).bytes < 2 ^ 32 }
    ensures exact { (signatures : List (List ℕ)) → HasSeen seen.old signatures → ReadsMore lending result read.old read.new (object_functions item signatures (object_of input.now)) }
    ensures seen { OnOk result ((signatures : List (List ℕ)) → HasSeen seen.old signatures → HasSeen seen.new (seen_behind signatures (object_of input.now))) }
    ensures arch { IfOk result (λ arch. arch ≡ machine_of (object_of input.now)) }
    ensures sound { IfOk result (λ arch. AreSound arch read.old → AreSound arch read.new) }
{
    let base = input.base;
    match input.bytes {
        InputBytes::Section(arch, bytes) => {
            read_bare(alloc, arch, item, bytes, base, lending, read)?;
            Ok(arch)
        }
        InputBytes::File(bytes) => read_file(alloc, item, bytes, base, lending, seen, read),
        InputBytes::Linked(elf) => read_linked(alloc, item, elf, base, lending, seen, read),
    }
}
