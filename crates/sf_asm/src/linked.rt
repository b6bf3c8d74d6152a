//! The section of functions that were gathered.

ghost use Rattle.std.specs.Prelude.{All, List, map, Option, IfOk, IfErr, IsTrue};
ghost use Rattle.sf_model.specs.declared.machine.Arch.{Arch as machine};
ghost use Rattle.sf_model.specs.Function.{AreWritable};
ghost use Rattle.sf_model.specs.Section.{AreBytes};
ghost use Rattle.sf_write.specs.Stored.{IsStored, stored_in};
ghost use Rattle.sf_asm.specs.Answers.{AreTogether, IsFirstLinked, IsLinked};
ghost use Rattle.sf_asm.specs.Fault.{is_answered};
ghost use Rattle.sf_asm.specs.Inputs.{HaveMachine};
ghost use Rattle.sf_asm.specs.Sections.{Object};

use crate::fault::LinkFault;
use frame_functions::InputFunctions;
use sf_model::Omitted;
use sf_write::{StoredList, write_stored};
use std::alloc::Global;

/// A section, and what it holds.
#[derive(Drop)]
pub struct Linked {
    /// The section's bytes.
    pub section: Vec<u8>,
    /// How many functions it holds.
    pub kept: u32,
    /// The omitted functions, by start and then origin.
    pub omitted: Vec<Omitted>,
}

/// Makes the section of functions that were gathered, for the address `at`.
///
/// # Errors
///
/// A function too far from the section; memory may run out.
pub fn link_gathered(
    alloc: Global,
    functions: InputFunctions<'_>,
    at: u64,
) -> Result<Linked, LinkFault>
    requires stored { All (IsStored functions.rows) functions.kept }
    requires writable { AreWritable functions.arch (map (stored_in functions.rows) functions.kept) }
    // It is the section of the inputs whose functions these are.
    ensures linked { IfOk result (λ linked. (before : Option machine) (objects : List Object) → AreTogether before objects functions.entry.arch (map (stored_in functions.entry.rows) functions.entry.kept) functions.entry.omitted.items → HaveMachine before objects functions.entry.arch → IsLinked before objects at linked.section.items linked.kept linked.omitted.items) }
    ensures are_bytes { IfOk result (λ linked. AreBytes linked.section.items) }
    // A fault is their first one.
    ensures fault { IfErr result (λ fault. (before : Option machine) (objects : List Object) → AreTogether before objects functions.entry.arch (map (stored_in functions.entry.rows) functions.entry.kept) functions.entry.omitted.items → IsFirstLinked before objects at fault) }
    ensures answered { IfErr result (λ fault. IsTrue (is_answered fault)) }
{
    let InputFunctions {
        arch,
        rows,
        kept,
        omitted,
        ..
    } = functions;
    let section = write_stored(alloc, arch, at, &rows, &kept)?;
    Ok(Linked {
        section,
        kept: kept.len() as u32,
        omitted,
    })
}
