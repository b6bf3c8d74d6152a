//! A section against the inputs that it was made from.

ghost use Rattle.std.specs.Prelude.{◌≡◌, ◌≤◌, ◌<◌, ◌^◌, All, length, map, Ok, IfOk, IfErr, IsTrue};
ghost use Rattle.sf_asm.specs.Functions.{object_of};
ghost use Rattle.sf_decode.specs.View.{section_bytes, table_of};
ghost use Rattle.sf_verify.specs.Asking.{AreHolders, answers_of, kept_in};
ghost use Rattle.sf_write.specs.Stored.{IsStored};
ghost use Rattle.sf_merge.specs.Located.{located_functions};
ghost use Rattle.sf_verify.specs.Comparing.{AreComparable};
ghost use Rattle.sf_verify.specs.Concluding.{IsVerdictBy};
ghost use Rattle.sf_verify.specs.Counting.{KeptRise, StartsRise};
ghost use Rattle.sf_verify.specs.FaultShown.{is_returned};
ghost use Rattle.sf_verify.specs.Verifying.{IsFirstVerifyFault, Verifies, refused};

use crate::counts::{count_missing, count_plain};
use crate::dwarf_cursor::DwarfCursor;
use crate::fault::VerifyFault;
use crate::kept::Kept;
use crate::overlap::shared_address;
use crate::sweep::compare;
use frame_functions::InputFunctions;
use sf_asm::{GatherFault, Input, gather_with_descriptions};
use sf_base::NoMemory;
use sf_decode::View;
use sf_merge::{SectionFunctions, in_order};
use sf_model::Verdict;
use std::alloc::Global;

/// Returns the fault of the section, if there is one and that of the inputs is an overlap, or else the fault of the
/// inputs.
fn refused(section: Option<VerifyFault>, fault: GatherFault) -> VerifyFault
    ensures { result ≡ refused section fault }
{
    match fault {
        GatherFault::NoMemory => VerifyFault::NoMemory,
        GatherFault::Overlap(start, item, other, second) => match section {
            Some(shared) => shared,
            None => VerifyFault::Gather(GatherFault::Overlap(start, item, other, second)),
        },
        _ => VerifyFault::Gather(fault),
    }
}

/// Returns the verdict on a section whose functions are given in order, by the functions of the inputs. It is not inlined, so
/// that the 12 kB of its machine are not on the stack while the inputs are read.
#[inline(never)]
fn verdict_on(
    alloc: Global,
    view: &View<'_>,
    ordered: &SectionFunctions<'_>,
    gathered: &InputFunctions<'_>,
) -> Result<Verdict, NoMemory>
    requires machine { gathered.now.arch ≡ (table_of view.now).arch }
    requires comparable { AreComparable gathered.now.arch ordered.now }
    requires rise { StartsRise ordered.now }
    requires holders { AreHolders gathered.now.arch (answers_of (kept_in gathered.now) gathered.now.descriptions.functions) (kept_in gathered.now) gathered.now.descriptions.functions }
    requires stored { All (IsStored gathered.now.rows) gathered.now.kept }
    requires few { length (kept_in gathered.now) ≤ 2 ^ 21 }
    requires kept { KeptRise (kept_in gathered.now) }
    ensures { IfOk result (IsVerdictBy (table_of view.now).functions (located_functions ordered.now) (kept_in gathered.now) (answers_of (kept_in gathered.now) gathered.now.descriptions.functions)) }
{
    let mut dwarf = DwarfCursor::new(
        alloc,
        gathered.arch,
        Kept::new(gathered),
        &gathered.descriptions,
    );
    if let Some(difference) = compare(alloc, ordered, &mut dwarf)? {
        return Ok(Verdict::Differs {
            pc: difference.pc,
            section: difference.section,
            dwarf: difference.dwarf,
        });
    }
    let checked = count_plain(view);
    Ok(Verdict::Agrees {
        checked,
        missing: count_missing(&Kept::new(gathered), ordered),
        repeats: view.len() - checked,
    })
}

/// Compares a section with 1 to 512 inputs, each of fewer than 2^32 bytes, at each address at which a plain
/// function of the section has a row. They agree exactly if the call frame information has at each of these
/// addresses a content that recovers the same for all registers and any memory. Otherwise the verdict has the
/// least address at which it has none, and both contents there. The section is item 0, and the inputs are
/// numbered from 1 on.
///
/// # Errors
///
/// The first fault of the first faulty input; then two machines, the limits of functions and rows, two
/// functions of the section that share an address, and two functions of the inputs that do, in this order;
/// `NoMemory` at any time.
pub fn verify(alloc: Global, view: &View<'_>, inputs: &[Input<'_>]) -> Result<Verdict, VerifyFault>
    requires some { (0 < length inputs.now) × (length inputs.now ≤ 512) }
    requires small { All (λ input. length (object_of input).bytes < 2 ^ 32) inputs.now }
    // The verdict is that of the definition.
    ensures verdict { IfOk result (λ verdict. Verifies (section_bytes view.now) (table_of view.now) (map object_of inputs.now) (Ok verdict)) }
    // A fault is the first one.
    ensures fault { IfErr result (IsFirstVerifyFault (section_bytes view.now) (table_of view.now) (map object_of inputs.now)) }
    ensures answered { IfErr result (λ fault. IsTrue (is_returned fault)) }
{
    let gathered = gather_with_descriptions(alloc, inputs, Some(view.arch()));
    let ordered = in_order(alloc, view)?;
    let shared = shared_address(view, &ordered);
    match gathered {
        Err(fault) => Err(refused(shared, fault)),
        Ok(gathered) => match shared {
            Some(fault) => Err(fault),
            None => Ok(verdict_on(alloc, view, &ordered, &gathered)?),
        },
    }
}
