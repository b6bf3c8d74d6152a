//! The functions of one call frame section, in the order of its records.

ghost use Rattle.std.specs.Prelude.{◌≡◌, ◌≤◌, ◌+◌, ◌^◌, [], ◌∷◌, List, Result, Ok, IfOk, IfErr, OnOk, IsTrue, is_ok, true};
ghost use Rattle.std.specs.Option.{option_map};
ghost use Rattle.sf_bytes.specs.Cursor.{cursor};
ghost use Rattle.sf_model.specs.Function.{key_fits};
ghost use Rattle.cfa_insn.specs.Listing.{listing};
ghost use Rattle.cfa_machine.specs.Left.{limit, rows_left};
ghost use Rattle.cfa_machine.specs.Pass.{rows_by};
ghost use Rattle.cfa_machine.specs.RowList.{AreRows};
ghost use Rattle.cfa_machine.specs.declared.row.DwRow.{DwRow};
ghost use Rattle.eh_records.specs.Fde.{fde_view};
ghost use Rattle.eh_records.specs.Named.{HasNamed};
ghost use Rattle.eh_records.specs.Section.{entries_of, frames, pointer_fields};
ghost use Rattle.eh_records.specs.View.{arch_of as machine_of_records, bytes_of as bytes_of_records, entries as entries_of_records};
ghost use Rattle.elf_place.specs.Views.{placing};
ghost use Rattle.elf_reloc.specs.declared.fault.RelocFault.{RelocFault as reloc_fault};
ghost use Rattle.elf_reloc.specs.declared.fix.RelocatedField.{RelocatedField};
ghost use Rattle.sf_express.specs.Expressed.{function_by};
ghost use Rattle.sf_model.specs.declared.function.Func.{Func as func_fact};
ghost use Rattle.sf_write.specs.Packed.{CanBeUnpacked, IsPacked};
ghost use Rattle.sf_express.specs.Run.{on_rows};
ghost use Rattle.frame_functions.specs.Answers.{IsRecordsFault, IsRelocFault, IsRowsFault, ReadsOne};
ghost use Rattle.frame_functions.specs.ReadFunction.{IsSound};
ghost use Rattle.frame_functions.specs.Fault.{wraps_record, wraps_reloc, wraps_machine};
ghost use Rattle.frame_functions.specs.declared.fault.AsmFault.TheVariants.{NoMemory, Record};
ghost use Rattle.sf_bytes.specs.Steps.{named};
ghost use Rattle.frame_functions.specs.Functions.{function_in, functions_in, section_functions, span_in};
ghost use Rattle.frame_functions.specs.InitialRows.{AreInitial};
ghost use Rattle.frame_functions.specs.Lent.{CanBeLent};
ghost use Rattle.frame_functions.specs.Kept.{read_of, outcome_by};
ghost use Rattle.frame_functions.specs.ReadSoFar.{AreNumberedIn, AreSound, ReadsFunctions, ReadsMore};
ghost use Rattle.frame_functions.specs.Relocated.{pointer_check};
ghost use Rattle.frame_functions.specs.Descriptions.{function_by_span};
ghost use Rattle.frame_functions.specs.Views.{AreChecked, IsReadFrom, overlaid, relocations_by, seen_section, written_by};

use crate::call_frame_section::CallFrameSection;
use crate::fault::AsmFault;
use crate::initial_rows::{InitialInstructions, InitialRows};
use crate::lent::lend;
use crate::numbers::CommonNumbers;
use crate::overlay::Overlay;
use crate::read::ReadFunctions;
use crate::read_function::{Expressed, ReadFunction};
use cfa_machine::{MachineFault, Runner};
use eh_records::{Fde, RecordFault, Records};
use elf_place::Placed;
use elf_reloc::RelocFault;
use sf_express::express_run;
use sf_model::{Arch, FdeFacts, FuncHead, Origin, Span};
use sf_write::{PackedFunction, PackedRows};
use std::alloc::Global;
use std::mem;

/// Wraps a fault of a section's records. `NoMemory` is passed on unwrapped.
fn record_fault(section: u32, fault: RecordFault) -> AsmFault
    ensures { result ≡ wraps_record section fault }
{
    match fault {
        RecordFault::NoMemory => AsmFault::NoMemory,
        _ => AsmFault::Record(section, fault),
    }
}

/// Wraps a fault of its relocations. `NoMemory` is passed on unwrapped.
fn reloc_fault(section: u32, fault: RelocFault) -> AsmFault
    ensures { result ≡ wraps_reloc section fault }
{
    match fault {
        RelocFault::NoMemory => AsmFault::NoMemory,
        _ => AsmFault::Reloc(section, fault),
    }
}

/// Wraps a fault of its instructions. `NoMemory` is passed on unwrapped.
fn machine_fault(section: u32, fault: MachineFault) -> AsmFault
    ensures { result ≡ wraps_machine section fault }
{
    match fault {
        MachineFault::NoMemory => AsmFault::NoMemory,
        _ => AsmFault::Machine(section, fault),
    }
}

/// Reads the records of a section.
fn records_of<'a>(alloc: Global, section: &CallFrameSection<'a>) -> Result<Records<'a>, AsmFault>
    ensures whole { IfOk result (λ records. entries_of section.now.arch section.now.bytes.now ≡ Ok (entries_of_records records)) }
    ensures machine { IfOk result (λ records. machine_of_records records ≡ section.now.arch) }
    ensures bytes { IfOk result (λ records. bytes_of_records records ≡ section.now.bytes.now) }
    ensures fault { IfErr result (λ fault. IsRecordsFault section.now.number fault (entries_of section.now.arch section.now.bytes.now)) }
{
    match Records::parse(alloc, section.bytes, section.arch) {
        Ok(records) => Ok(records),
        Err(fault) => Err(record_fault(section.number, fault)),
    }
}

/// Reads what the relocations of a section write.
fn overlay_of(alloc: Global, placed: Option<&Placed<'_>>, section: u32) -> Result<Overlay, AsmFault>
    ensures read { IfOk result (λ overlay. relocations_by (option_map (λ p. placing p.now) placed.entry) section ≡ Ok (written_by overlay)) }
    ensures from { IfOk result (λ overlay. IsReadFrom (option_map (λ p. placing p.now) placed.entry) section (written_by overlay)) }
    ensures fault { IfErr result (λ fault. IsRelocFault section fault (relocations_by (option_map (λ p. placing p.now) placed.entry) section)) }
{
    Overlay::new(alloc, placed, section).map_err(|fault| reloc_fault(section, fault))
}

/// Checks that each relocation lies on a pointer field of the records.
fn check_overlay(
    alloc: Global,
    section: u32,
    overlay: &Overlay,
    records: &Records<'_>,
) -> Result<(), AsmFault>
    ensures lie { OnOk result (pointer_check (pointer_fields (entries_of_records records.now)) (written_by overlay.now) ≡ Ok tt) }
    ensures checked { OnOk result (AreChecked (pointer_fields (entries_of_records records.now)) (written_by overlay.now)) }
    ensures fault { IfErr result (λ fault. IsRelocFault section fault (pointer_check (pointer_fields (entries_of_records records.now)) (written_by overlay.now))) }
{
    overlay
        .check(alloc, records)
        .map_err(|fault| reloc_fault(section, fault))
}

/// Returns the start and size of a function.
#[inline(always)]
fn span_of(
    section: &CallFrameSection<'_>,
    overlay: &Overlay,
    fde: &Fde<'_>,
) -> Result<(u64, u64), AsmFault>
    ensures exact { (relocations : Result (List RelocatedField) reloc_fault) → result ≡ named (Record section.now.number) (span_in (seen_section section.now relocations) (overlaid (written_by overlay.now)) (fde_view fde.now)) }
    ensures end { IfOk result (λ s. s.0 + s.1 ≤ 2 ^ 64) }
{
    match fde.span(section.address, section.shift, overlay) {
        Ok(span) => Ok(span),
        Err(fault) => Err(record_fault(section.number, fault)),
    }
}

/// Starts the runner on the rows of a function.
#[inline(always)]
fn begin_rows<'a>(
    section: &CallFrameSection<'a>,
    fde: &Fde<'a>,
    size: u64,
    initials: &mut InitialRows,
    run: &mut Runner<'a>,
) -> Result<(), AsmFault>
    requires initials { AreInitial section.now.arch section.now.bytes.now initials.old }
    requires named { HasNamed section.now.arch section.now.bytes.now (fde_view fde.now) }
    ensures initials { OnOk result (AreInitial section.now.arch section.now.bytes.now initials.new) }
    ensures begins { OnOk result (rows_left run.new ≡ rows_by section.now.arch fde.now.cie.code_alignment_factor fde.now.cie.data_alignment_factor size (listing (cursor fde.now.cie.insns)) (listing (cursor fde.now.insns))) }
    ensures limit { OnOk result (limit run.new ≡ size) }
    ensures fault { IfErr result (λ fault. IsRowsFault section.now.number fault (rows_by section.now.arch fde.now.cie.code_alignment_factor fde.now.cie.data_alignment_factor size (listing (cursor fde.now.cie.insns)) (listing (cursor fde.now.insns)))) }
{
    let cie = &fde.cie;
    match initials.find(section, InitialInstructions::of(cie)) {
        Ok(()) => {
            let initial = initials.row();
            run.start_from(
                initial,
                section.arch,
                cie.code_alignment_factor,
                cie.data_alignment_factor,
                fde.insns,
                size,
            );
            Ok(())
        }
        Err(fault) => Err(machine_fault(section.number, fault)),
    }
}

/// Returns the function with this head, whose rows are those of `spare`.
#[inline(always)]
fn packed(alloc: Global, arch: Arch, head: FuncHead, spare: &mut PackedRows) -> PackedFunction
    requires { CanBeUnpacked arch head spare.old }
    ensures { (func : func_fact) → IsPacked arch head spare.old func → result ≡ func }
{
    let rows = mem::replace(spare, PackedRows::new(alloc));
    PackedFunction::new(arch, head, rows)
}

/// Returns what becomes of the function that the runner was started on. Each of its instructions is run, and its rows are
/// made in the memory of `spare`.
#[inline(always)]
fn outcome_of(
    alloc: Global,
    section: &CallFrameSection<'_>,
    facts: &FdeFacts,
    run: &mut Runner<'_>,
    spare: &mut PackedRows,
) -> Result<Expressed, AsmFault>
    requires limit { limit run.old ≡ facts.now.size }
    requires rows { (rows : List DwRow) → rows_left run.old ≡ Ok rows → AreRows section.now.arch facts.now.size rows }
    ensures given { IfOk result (λ outcome. on_rows (λ rows. outcome_by (function_by section.now.arch facts.now rows)) (rows_left run.old) ≡ Ok outcome) }
    ensures fault { IfErr result (λ fault. IsRowsFault section.now.number fault (rows_left run.old)) }
{
    match express_run(section.arch, facts, run, spare) {
        Ok(Ok(head)) => Ok(Expressed::Kept(packed(alloc, section.arch, head, spare))),
        Ok(Err(omission)) => Ok(Expressed::LeftOut(omission)),
        Err(fault) => Err(machine_fault(section.number, fault)),
    }
}

/// Returns what the records describe of a function, apart from its instructions.
#[inline(always)]
fn facts_of(fde: &Fde<'_>, start: u64, size: u64) -> FdeFacts
    ensures { result ≡ record { start = start; size = size; column = fde.now.cie.return_address_register; signal = fde.now.cie.signal; key = fde.now.cie.key } }
{
    FdeFacts {
        start,
        size,
        column: fde.cie.return_address_register,
        signal: fde.cie.signal,
        key: fde.cie.key,
    }
}

/// Reads the function of one frame description entry. Its rows are made in the memory of `spare`.
#[inline(always)]
fn read_function<'a>(
    alloc: Global,
    section: &CallFrameSection<'a>,
    overlay: &Overlay,
    fde: &Fde<'a>,
    initials: &mut InitialRows,
    run: &mut Runner<'a>,
    spare: &mut PackedRows,
) -> Result<ReadFunction, AsmFault>
    requires key { IsTrue (key_fits section.now.arch fde.now.cie.key) }
    requires initials { AreInitial section.now.arch section.now.bytes.now initials.old }
    requires named { HasNamed section.now.arch section.now.bytes.now (fde_view fde.now) }
    ensures initials { OnOk result (AreInitial section.now.arch section.now.bytes.now initials.new) }
    ensures exact { (relocations : Result (List RelocatedField) reloc_fault) → ReadsOne result (function_in section.now.arch section.now.item (seen_section section.now relocations) (overlaid (written_by overlay.now)) (fde_view fde.now)) }
    ensures function { IfOk result (λ entry. (relocations : Result (List RelocatedField) reloc_fault) → function_in section.now.arch section.now.item (seen_section section.now relocations) (overlaid (written_by overlay.now)) (fde_view fde.now) ≡ Ok (function_by_span section.now.arch fde.now entry.span)) }
    ensures end { IfOk result (λ entry. entry.span.start + entry.span.size ≤ 2 ^ 64) }
    ensures ran { IfOk result (λ entry. is_ok (rows_by section.now.arch fde.now.cie.code_alignment_factor fde.now.cie.data_alignment_factor entry.span.size (listing (cursor fde.now.cie.insns)) (listing (cursor fde.now.insns))) ≡ true) }
    ensures sound { IfOk result (λ entry. IsSound section.now.arch entry) }
{
    let (start, size) = span_of(section, overlay, fde)?;
    begin_rows(section, fde, size, initials, run)?;
    let facts = facts_of(fde, start, size);
    let outcome = outcome_of(alloc, section, &facts, run, spare)?;
    let origin = Origin {
        item: section.item,
        section: section.number,
        place: fde.place,
    };
    let span = Span {
        start,
        size,
        origin,
    };
    Ok(ReadFunction { span, outcome })
}

/// Adds a function to those that were read. Past a limit it is only counted.
#[inline(always)]
fn add_function<'a>(
    section: &CallFrameSection<'a>,
    fde: &Fde<'a>,
    entry: ReadFunction,
    lending: bool,
    initials: &mut InitialRows,
    numbers: &mut CommonNumbers,
    spare: &mut PackedRows,
    read: &mut ReadFunctions<'a>,
) -> Result<(), AsmFault>
    requires lent { CanBeLent section.now fde.now entry.span initials.old }
    requires sound { IsSound section.now.arch entry }
    requires function { read_of (function_by_span section.now.arch fde.now entry.span) ≡ entry }
    requires numbered { AreNumberedIn section.now.arch section.now.bytes.now numbers.old read.old }
    ensures initials { OnOk result (AreInitial section.now.arch section.now.bytes.now initials.new) }
    ensures numbered { OnOk result (AreNumberedIn section.now.arch section.now.bytes.now numbers.new read.new) }
    ensures reads { OnOk result (ReadsFunctions lending read.old read.new (function_by_span section.now.arch fde.now entry.span ∷ [])) }
    ensures sound { OnOk result (AreSound section.now.arch read.old → AreSound section.now.arch read.new) }
    ensures refused { IfErr result (λ fault. fault ≡ NoMemory) }
{
    if let ReadFunctions::Within(held) = read {
        if held.has_room(&entry) {
            lend(
                section,
                fde,
                &entry,
                lending,
                initials,
                numbers,
                &mut held.descriptions,
            )?;
            held.add(section.arch, entry, spare)?;
            return Ok(());
        }
    }
    read.count();
    Ok(())
}

/// Reads the functions of the records, after those that were read before.
fn read_frames<'a>(
    alloc: Global,
    section: &CallFrameSection<'a>,
    overlay: &Overlay,
    records: &Records<'a>,
    lending: bool,
    read: &mut ReadFunctions<'a>,
) -> Result<(), AsmFault>
    requires machine { machine_of_records records.now ≡ section.now.arch }
    requires bytes { bytes_of_records records.now ≡ section.now.bytes.now }
    ensures exact { (relocations : Result (List RelocatedField) reloc_fault) → ReadsMore lending result read.old read.new (functions_in section.now.arch section.now.item (seen_section section.now relocations) (overlaid (written_by overlay.now)) (frames (entries_of_records records.now))) }
    ensures sound { OnOk result (AreSound section.now.arch read.old → AreSound section.now.arch read.new) }
{
    let mut initials = InitialRows::new(alloc);
    let mut numbers = CommonNumbers::new(alloc);
    let mut run = Runner::new();
    let mut spare = PackedRows::new(alloc);
    for fde in records.fdes() {
        if overlay.dropped(fde.begin) {
            continue;
        }
        let entry = read_function(
            alloc,
            section,
            overlay,
            &fde,
            &mut initials,
            &mut run,
            &mut spare,
        )?;
        add_function(
            section,
            &fde,
            entry,
            lending,
            &mut initials,
            &mut numbers,
            &mut spare,
            read,
        )?;
    }
    Ok(())
}

/// Reads the functions of a section of a file, or of a bare one, after those that were read before. If `lending`, the
/// omitted ones are lent.
pub fn read_section<'a>(
    alloc: Global,
    section: &CallFrameSection<'a>,
    placed: Option<&Placed<'_>>,
    lending: bool,
    read: &mut ReadFunctions<'a>,
) -> Result<(), AsmFault>
    ensures exact { ReadsMore lending result read.old read.new (section_functions section.now.arch section.now.item (seen_section section.now (relocations_by (option_map (λ p. placing p.now) placed.entry) section.now.number))) }
    ensures sound { OnOk result (AreSound section.now.arch read.old → AreSound section.now.arch read.new) }
{
    let records = records_of(alloc, section)?;
    let overlay = overlay_of(alloc, placed, section.number)?;
    check_overlay(alloc, section.number, &overlay, &records)?;
    read_frames(alloc, section, &overlay, &records, lending, read)
}
