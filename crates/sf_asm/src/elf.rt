//! The functions of an ELF file, in the order of its sections and records.

ghost use Rattle.std.specs.Prelude.{◌≡◌, ◌<◌, ◌^◌, ◌+◌, ◌-◌, ◌%◌, ◌⊎◌, ℕ, List, Ok, Err, length, map, IfOk, IfErr, OnOk};
ghost use Rattle.elf_read.specs.Header as head;
ghost use Rattle.elf_read.specs.Sections.{section_bytes};
ghost use Rattle.elf_read.specs.Input.{file};
ghost use Rattle.elf_read.specs.Linked.{linked_file};
ghost use Rattle.elf_read.specs.Parsing.{file_check};
ghost use Rattle.elf_place.specs.Place.{IsEhFrame, place_check};
ghost use Rattle.elf_place.specs.Views as placed_views;
ghost use Rattle.elf_reloc.specs.Reading.{placed_address};
ghost use Rattle.frame_functions.specs.declared.fault.AsmFault.TheVariants as asm;
ghost use Rattle.sf_model.specs.declared.form.Form.TheVariants as Form;
ghost use Rattle.frame_functions.specs.Fault.{wraps_place};
ghost use Rattle.frame_functions.specs.Functions.{sections_functions};
ghost use Rattle.sf_asm.specs.Functions.{named, object_functions};
ghost use Rattle.elf_groups.specs.Groups.{seen_after};
ghost use Rattle.sf_asm.specs.Placing.{IsPlacing};
ghost use Rattle.sf_asm.specs.Sections.{dropped_after, linked_check, placed_section};
ghost use Rattle.frame_functions.specs.ReadSoFar.{AreSound, ReadsMore};
ghost use Rattle.elf_groups.specs.SeenSignatures.{HasSeen};

use elf_groups::SeenSignatures;
use elf_place::{PlaceFault, Placed};
use elf_read::{Elf, ElfFault, ElfInput, Kind, LinkedElf};
use frame_functions::{AsmFault, CallFrameSection, ReadFunctions, read_section};
use sf_model::Arch;
use std::alloc::Global;

/// The place of a file's type.
const TYPE_PLACE: u64 = 16;

/// Refuses a core file.
#[tactic(auto, unfolding(crate::specs::Sections::linked_check))]
fn no_core(elf: ElfInput<'_>) -> Result<ElfInput<'_>, AsmFault>
    requires { file_check (file elf) ≡ Ok tt }
    ensures file { IfOk result (λ linked. file linked ≡ file elf.entry) }
    ensures read { OnOk result (linked_check (file elf.entry) ≡ Ok tt) }
    ensures fault { IfErr result (λ fault. linked_check (file elf.entry) ≡ Err fault) }
{
    match elf.kind() {
        Kind::Core => Err(AsmFault::Elf(ElfFault::Kind(TYPE_PLACE))),
        Kind::Rel | Kind::Exec | Kind::Dyn => Ok(elf),
    }
}

/// Checks all the bytes of a file that is no core.
#[tactic(auto, unfolding(crate::specs::Sections::linked_check))]
fn parse(bytes: &[u8]) -> Result<ElfInput<'_>, AsmFault>
    requires { length bytes.now < 2 ^ 32 }
    ensures file { IfOk result (λ elf. file elf ≡ bytes.now) }
    ensures read { OnOk result (linked_check bytes.now ≡ Ok tt) }
    ensures fault { IfErr result (λ fault. linked_check bytes.now ≡ Err fault) }
{
    match Elf::parse(bytes) {
        Ok(elf) => no_core(ElfInput::Whole(elf)),
        Err(fault) => Err(AsmFault::Elf(fault)),
    }
}

/// Wraps a fault of placing. `NoMemory` is passed on unwrapped.
fn place_fault(fault: PlaceFault) -> AsmFault
    ensures { result ≡ wraps_place fault }
{
    match fault {
        PlaceFault::NoMemory => AsmFault::NoMemory,
        _ => AsmFault::Place(fault),
    }
}

/// Places the sections of a file. A group of a later place with a signature of its groups is then dropped.
fn place<'a>(
    alloc: Global,
    elf: &ElfInput<'a>,
    base: u64,
    seen: &mut SeenSignatures<'a>,
) -> Result<Placed<'a>, AsmFault>
    ensures placed { IfOk result (λ placed. (signatures : List (List ℕ)) → HasSeen seen.old signatures → IsPlacing signatures (file elf.now) base placed) }
    ensures read { OnOk result ((signatures : List (List ℕ)) → HasSeen seen.old signatures → place_check (file elf.now) (dropped_after signatures (file elf.now)) base ≡ Ok tt) }
    ensures seen { OnOk result ((signatures : List (List ℕ)) → HasSeen seen.old signatures → HasSeen seen.new (seen_after signatures (file elf.now))) }
    ensures fault { IfErr result (λ fault. (signatures : List (List ℕ)) → HasSeen seen.old signatures → (fault ≡ asm.NoMemory) ⊎ (named asm.Place (place_check (file elf.now) (dropped_after signatures (file elf.now)) base) ≡ Err fault)) }
{
    let dropped = seen.dropped_groups(alloc, elf)?;
    match Placed::new(alloc, elf, base, &dropped) {
        Ok(placed) => Ok(placed),
        Err(fault) => Err(place_fault(fault)),
    }
}

/// Returns a call frame section of a placed file.
#[tactic(auto, unfolding(elf_reloc::specs::Reading::placed_address))]
fn frames_at<'a>(arch: Arch, item: u32, placed: &Placed<'a>, number: u32) -> CallFrameSection<'a>
    requires { IsEhFrame (placed_views.placed_file placed.now) number }
    ensures arch { result.arch ≡ arch }
    ensures item { result.item ≡ item }
    ensures number { result.number ≡ number }
    ensures bytes { result.bytes.now ≡ section_bytes (placed_views.placed_file placed.now) number }
    ensures address { result.address ≡ (placed_address (placed_views.placing placed.now) number + (2 ^ 64 - placed_views.shift_in placed.now)) % 2 ^ 64 }
    ensures shift { result.shift ≡ placed_views.shift_in placed.now }
{
    let shift = placed.shift();
    let address = placed.address(number).unwrap_or(0);
    CallFrameSection {
        arch,
        item,
        number,
        bytes: placed.elf().bytes(number),
        address: address.wrapping_sub(shift),
        shift,
    }
}

/// Reads the functions of all call frame sections of a placed file, after those that were read before.
fn read_sections<'a>(
    alloc: Global,
    arch: Arch,
    item: u32,
    placed: &Placed<'a>,
    lending: bool,
    read: &mut ReadFunctions<'a>,
) -> Result<(), AsmFault>
    ensures exact { ReadsMore lending result read.old read.new (sections_functions arch item (map (placed_section (placed_views.placing placed.now) (placed_views.shift_in placed.now)) (placed_views.eh_frames placed.now))) }
    ensures sound { OnOk result (AreSound arch read.old → AreSound arch read.new) }
{
    let numbers = placed.eh_frames();
    for number in numbers {
        let section = frames_at(arch, item, placed, *number);
        read_section(alloc, &section, Some(placed), lending, read)?;
    }
    Ok(())
}

/// Reads the functions of a checked file that is loaded at `base`, in the order of its sections and records, after those
/// that were read before, and returns its machine. A group of a later place with a signature of its groups is then
/// dropped.
fn read_checked<'a>(
    alloc: Global,
    item: u32,
    elf: &ElfInput<'a>,
    base: u64,
    lending: bool,
    seen: &mut SeenSignatures<'a>,
    read: &mut ReadFunctions<'a>,
) -> Result<Arch, AsmFault>
    requires { linked_check (file elf.now) ≡ Ok tt }
    ensures exact { (signatures : List (List ℕ)) → HasSeen seen.old signatures → ReadsMore lending result read.old read.new (object_functions item signatures (record { form = Form.Elf; bytes = file elf.now; base = base })) }
    ensures seen { OnOk result ((signatures : List (List ℕ)) → HasSeen seen.old signatures → HasSeen seen.new (seen_after signatures (file elf.now))) }
    ensures arch { IfOk result (λ arch. arch ≡ head.arch_of (file elf.now)) }
    ensures sound { IfOk result (λ arch. AreSound arch read.old → AreSound arch read.new) }
{
    let placed = place(alloc, elf, base, seen)?;
    read_sections(alloc, elf.arch(), item, &placed, lending, read)?;
    Ok(elf.arch())
}

/// Checks all the bytes of a file, and reads its functions as `read_checked` does.
pub fn read_file<'a>(
    alloc: Global,
    item: u32,
    bytes: &'a [u8],
    base: u64,
    lending: bool,
    seen: &mut SeenSignatures<'a>,
    read: &mut ReadFunctions<'a>,
) -> Result<Arch, AsmFault>
    requires { length bytes.now < 2 ^ 32 }
    ensures exact { (signatures : List (List ℕ)) → HasSeen seen.old signatures → ReadsMore lending result read.old read.new (object_functions item signatures (record { form = Form.Elf; bytes = bytes.now; base = base })) }
    ensures seen { OnOk result ((signatures : List (List ℕ)) → HasSeen seen.old signatures → HasSeen seen.new (seen_after signatures bytes.now)) }
    ensures arch { IfOk result (λ arch. arch ≡ head.arch_of bytes.now) }
    ensures sound { IfOk result (λ arch. AreSound arch read.old → AreSound arch read.new) }
{
    let elf = parse(bytes)?;
    read_checked(alloc, item, &elf, base, lending, seen, read)
}

/// Reads the functions of a file that was checked by its parts, as `read_checked` does.
pub fn read_linked<'a>(
    alloc: Global,
    item: u32,
    elf: &'a LinkedElf,
    base: u64,
    lending: bool,
    seen: &mut SeenSignatures<'a>,
    read: &mut ReadFunctions<'a>,
) -> Result<Arch, AsmFault>
    ensures exact { (signatures : List (List ℕ)) → HasSeen seen.old signatures → ReadsMore lending result read.old read.new (object_functions item signatures (record { form = Form.Elf; bytes = linked_file elf.now; base = base })) }
    ensures seen { OnOk result ((signatures : List (List ℕ)) → HasSeen seen.old signatures → HasSeen seen.new (seen_after signatures (linked_file elf.now))) }
    ensures arch { IfOk result (λ arch. arch ≡ head.arch_of (linked_file elf.now)) }
    ensures sound { IfOk result (λ arch. AreSound arch read.old → AreSound arch read.new) }
{
    let elf = no_core(ElfInput::Linked(elf))?;
    read_checked(alloc, item, &elf, base, lending, seen, read)
}
