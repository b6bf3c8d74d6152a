//! The section of several inputs, with their procedure linkage tables.

ghost use Rattle.std.specs.Prelude.{◌≤◌, ◌<◌, ◌^◌, All, length, map, IfOk, IfErr, IsTrue};
ghost use Rattle.sf_model.specs.Section.{AreBytes};
ghost use Rattle.sf_asm.specs.Fault.{is_answered};
ghost use Rattle.sf_asm.specs.Functions.{object_of};
ghost use Rattle.sf_plt.specs.Answers.{IsFirstPltLinked, IsPltLinked, IsPltLinkedWith};

use crate::limits::{Counts, check_tables};
use crate::sorting::sort_out;
use frame_functions::{Descriptions, InputFunctions};
use sf_asm::{Input, LinkFault, gather_with_descriptions};
use sf_functions::{count_rows, sort_by_start};
use sf_model::{Arch, Omitted, Span};
use sf_write::{StoredList, write_stored};
use std::alloc::Global;

/// A section, and what it holds.
#[derive(Drop)]
pub struct PltLinked {
    /// The section's bytes.
    pub section: Vec<u8>,
    /// The number of functions that are kept as they are.
    pub kept: u32,
    /// The functions that are omitted, by start and then origin.
    pub omitted: Vec<Omitted>,
    /// The procedure linkage tables, by start and then origin. Each is two functions of the section.
    pub plts: Vec<Span>,
}

/// A section with what it holds, and the omitted functions as their records describe them.
#[derive(Drop)]
pub struct PltLinkedWithDescriptions<'a> {
    /// The section with what it holds.
    pub linked: PltLinked,
    /// The functions that SFrame can't express, by rising start. The procedure linkage tables are among them.
    pub descriptions: Descriptions<'a>,
}

/// Makes the section of 1 to 512 inputs as [`link_plt`] does, and lends the functions that SFrame can't express.
///
/// # Errors
///
/// Those of [`link_plt`].
pub fn link_plt_with_descriptions<'a>(
    alloc: Global,
    inputs: &[Input<'a>],
    at: u64,
    before: Option<Arch>,
) -> Result<PltLinkedWithDescriptions<'a>, LinkFault>
    requires some { (0 < length inputs.now) × (length inputs.now ≤ 512) }
    requires small { All (λ input. length (object_of input).bytes < 2 ^ 32) inputs.now }
    // The section is that of the inputs' kept functions and procedure linkage tables, these are omitted, and the descriptions are
    // the functions that SFrame can't express.
    ensures linked { IfOk result (λ made. IsPltLinkedWith before (map object_of inputs.now) at made.linked.section.items made.linked.kept made.linked.omitted.items made.linked.plts.items made.descriptions.functions) }
    ensures are_bytes { IfOk result (λ made. AreBytes made.linked.section.items) }
    // A fault is the first one.
    ensures fault { IfErr result (IsFirstPltLinked before (map object_of inputs.now) at) }
    ensures answered { IfErr result (λ fault. IsTrue (is_answered fault)) }
{
    let gathered = gather_with_descriptions(alloc, inputs, before)?;
    let InputFunctions {
        arch,
        rows,
        kept,
        omitted,
        descriptions,
    } = gathered;
    let count = kept.len();
    let functions = count + omitted.len();
    let row_count = count_rows(&kept) as usize;
    let mut sorted = sort_out(alloc, arch, rows, kept, &omitted, &descriptions)?;
    let tables = sorted.plts.len();
    let counts = Counts {
        functions,
        rows: row_count,
        tables,
    };
    match check_tables(counts) {
        Ok(()) => (),
        Err(fault) => return Err(LinkFault::Gather(fault)),
    }
    sort_by_start(&mut sorted.written)?;
    let section = write_stored(alloc, arch, at, &sorted.rows, &sorted.written)?;
    Ok(PltLinkedWithDescriptions {
        linked: PltLinked {
            section,
            kept: count as u32,
            omitted: sorted.omitted,
            plts: sorted.plts,
        },
        descriptions,
    })
}

/// Makes the SFrame section of 1 to 512 inputs, for the address `at`, as `sf_link::link` does, with two functions
/// for each plain lazy procedure linkage table. `before` is the machine of an item before the inputs. If there is
/// one, the inputs are numbered from 1 on, and otherwise from 0 on.
///
/// # Errors
///
/// The first fault of the first faulty input; then two machines, the limits of functions and rows, two functions
/// that share an address, the limits with each table as one more function and as 4 rows, and a function that is
/// written too far from the section, in this order; memory may run out at any time.
pub fn link_plt(
    alloc: Global,
    inputs: &[Input<'_>],
    at: u64,
    before: Option<Arch>,
) -> Result<PltLinked, LinkFault>
    requires some { (0 < length inputs.now) × (length inputs.now ≤ 512) }
    requires small { All (λ input. length (object_of input).bytes < 2 ^ 32) inputs.now }
    // The section is that of the inputs' kept functions and procedure linkage tables, and these are omitted.
    ensures linked { IfOk result (λ linked. IsPltLinked before (map object_of inputs.now) at linked.section.items linked.kept linked.omitted.items linked.plts.items) }
    ensures are_bytes { IfOk result (λ linked. AreBytes linked.section.items) }
    // A fault is the first one.
    ensures fault { IfErr result (IsFirstPltLinked before (map object_of inputs.now) at) }
    ensures answered { IfErr result (λ fault. IsTrue (is_answered fault)) }
{
    Ok(link_plt_with_descriptions(alloc, inputs, at, before)?.linked)
}
