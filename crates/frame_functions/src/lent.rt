//! Omitted functions, lent as their records describe them.

ghost use Rattle.std.specs.Prelude.{◌≡◌, ◌++◌, [], ◌∷◌, IfOk, IfErr, OnOk, IsTrue, Some};
ghost use Rattle.sf_bytes.specs.Cursor.{cursor};
ghost use Rattle.sf_model.specs.Function.{key_fits};
ghost use Rattle.cfa_insn.specs.Listing.{listing};
ghost use Rattle.cfa_machine.specs.Initial.{IsInitial};
ghost use Rattle.eh_records.specs.Cie.{cie_view};
ghost use Rattle.frame_functions.specs.declared.fault.AsmFault.TheVariants.{NoMemory};
ghost use Rattle.frame_functions.specs.InitialRows.{AreInitial};
ghost use Rattle.frame_functions.specs.Lent.{CanBeLent};
ghost use Rattle.frame_functions.specs.Numbers.{AreNumbered, IsNumberOf};
ghost use Rattle.frame_functions.specs.Descriptions.{common_of, common_view, function_by_span, if_left};

use crate::call_frame_section::CallFrameSection;
use crate::description::{CommonPart, DescriptionItem};
use crate::descriptions::Descriptions;
use crate::fault::AsmFault;
use crate::initial_rows::{InitialInstructions, InitialRows};
use crate::numbers::CommonNumbers;
use crate::read_function::{Expressed, ReadFunction};
use cfa_machine::{Columns, MachineFault};
use eh_records::{Cie, Fde};
use sf_model::{Arch, Span};

/// Returns what the functions of a common information entry share.
#[inline(always)]
fn common_part<'a>(arch: Arch, cie: &Cie<'a>, row: Columns) -> CommonPart<'a>
    requires key { IsTrue (key_fits arch cie.now.key) }
    requires given { IsInitial arch cie.now.data_alignment_factor (listing (cursor cie.now.insns)) row }
    ensures { common_view result ≡ common_of arch (cie_view cie.now) }
{
    CommonPart {
        arch,
        column: cie.return_address_register,
        signal: cie.signal,
        key: cie.key,
        code: cie.code_alignment_factor,
        factor: cie.data_alignment_factor,
        initial: cie.insns,
        row,
    }
}

/// Adds what the functions of a function's common information entry share, and returns its number. Each of the
/// function's instructions was run.
fn add_common<'a>(
    section: &CallFrameSection<'a>,
    fde: &Fde<'a>,
    span: Span,
    initials: &mut InitialRows,
    numbers: &mut CommonNumbers,
    descriptions: &mut Descriptions<'a>,
) -> Result<u32, AsmFault>
    requires lent { CanBeLent section.now fde.now span initials.old }
    requires numbered { AreNumbered section.now.arch section.now.bytes.now numbers.old descriptions.old.common }
    ensures initials { OnOk result (AreInitial section.now.arch section.now.bytes.now initials.new) }
    ensures numbered { OnOk result (AreNumbered section.now.arch section.now.bytes.now numbers.new descriptions.new.common) }
    ensures number { IfOk result (IsNumberOf descriptions.new.common (Some (common_of section.now.arch (cie_view fde.now.cie)))) }
    ensures functions { OnOk result (descriptions.new.functions ≡ descriptions.old.functions) }
    ensures refused { IfErr result (λ fault. fault ≡ NoMemory) }
{
    let cie = &fde.cie;
    match initials.find(section, InitialInstructions::of(cie)) {
        Ok(()) => {}
        Err(MachineFault::NoMemory) => return Err(AsmFault::NoMemory),
        Err(_) => unreachable!(),
    }
    let number = descriptions.add_common(common_part(section.arch, cie, *initials.row()))?;
    numbers.insert(cie.place, number)?;
    Ok(number)
}

/// Finds the number of what the functions of a function's common information entry share. It is added if it isn't there.
#[inline(always)]
fn common_number<'a>(
    section: &CallFrameSection<'a>,
    fde: &Fde<'a>,
    span: Span,
    initials: &mut InitialRows,
    numbers: &mut CommonNumbers,
    descriptions: &mut Descriptions<'a>,
) -> Result<u32, AsmFault>
    requires lent { CanBeLent section.now fde.now span initials.old }
    requires numbered { AreNumbered section.now.arch section.now.bytes.now numbers.old descriptions.old.common }
    ensures initials { OnOk result (AreInitial section.now.arch section.now.bytes.now initials.new) }
    ensures numbered { OnOk result (AreNumbered section.now.arch section.now.bytes.now numbers.new descriptions.new.common) }
    ensures number { IfOk result (IsNumberOf descriptions.new.common (Some (common_of section.now.arch (cie_view fde.now.cie)))) }
    ensures functions { OnOk result (descriptions.new.functions ≡ descriptions.old.functions) }
    ensures refused { IfErr result (λ fault. fault ≡ NoMemory) }
{
    match numbers.get(fde.cie.place) {
        Some(number) => Ok(number),
        None => add_common(section, fde, span, initials, numbers, descriptions),
    }
}

/// Lends a function as its records describe it, each of whose instructions was run.
#[inline(always)]
fn lend_description<'a>(
    section: &CallFrameSection<'a>,
    fde: &Fde<'a>,
    span: Span,
    initials: &mut InitialRows,
    numbers: &mut CommonNumbers,
    descriptions: &mut Descriptions<'a>,
) -> Result<(), AsmFault>
    requires lent { CanBeLent section.now fde.now span initials.old }
    requires numbered { AreNumbered section.now.arch section.now.bytes.now numbers.old descriptions.old.common }
    ensures initials { OnOk result (AreInitial section.now.arch section.now.bytes.now initials.new) }
    ensures numbered { OnOk result (AreNumbered section.now.arch section.now.bytes.now numbers.new descriptions.new.common) }
    ensures lent { OnOk result (descriptions.new.functions ≡ descriptions.old.functions ++ function_by_span section.now.arch fde.now span ∷ []) }
    ensures refused { IfErr result (λ fault. fault ≡ NoMemory) }
{
    let common = common_number(section, fde, span, initials, numbers, descriptions)?;
    descriptions.push(DescriptionItem {
        start: span.start,
        size: span.size,
        own: fde.insns,
        origin: span.origin,
        common,
    })?;
    Ok(())
}

/// Lends a function if it is omitted and the functions are to be lent.
#[inline(always)]
pub fn lend<'a>(
    section: &CallFrameSection<'a>,
    fde: &Fde<'a>,
    entry: &ReadFunction,
    lending: bool,
    initials: &mut InitialRows,
    numbers: &mut CommonNumbers,
    descriptions: &mut Descriptions<'a>,
) -> Result<(), AsmFault>
    requires lent { CanBeLent section.now fde.now entry.now.span initials.old }
    requires numbered { AreNumbered section.now.arch section.now.bytes.now numbers.old descriptions.old.common }
    ensures initials { OnOk result (AreInitial section.now.arch section.now.bytes.now initials.new) }
    ensures numbered { OnOk result (AreNumbered section.now.arch section.now.bytes.now numbers.new descriptions.new.common) }
    ensures lent { OnOk result (IsTrue lending → descriptions.new.functions ≡ descriptions.old.functions ++ if_left entry.now.outcome (function_by_span section.now.arch fde.now entry.now.span)) }
    ensures refused { IfErr result (λ fault. fault ≡ NoMemory) }
{
    if !lending {
        return Ok(());
    }
    if let Expressed::LeftOut(_) = entry.outcome {
        lend_description(section, fde, entry.span, initials, numbers, descriptions)?;
    }
    Ok(())
}
