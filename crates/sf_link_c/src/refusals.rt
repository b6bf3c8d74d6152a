//! Why nothing is made, as C has it.

ghost use Rattle.std.specs.Prelude.{◌≡◌, IsTrue};
ghost use Rattle.sf_model.specs.FaultShown.{shown_by};
ghost use Rattle.sf_asm.specs.Fault.{is_answered};
ghost use Rattle.sf_link_c.specs.Refusals as spec;

use crate::answer::{FUNCTIONS, MEMORY, REFUSED, ROWS};
use sf_asm::{GatherFault, LinkFault};
use sf_model::{Group, Notice};

/// The first fault, as its line prints it; all zeros if there is none.
#[repr(C)]
#[derive(Clone, Copy)]
pub struct KiblawenRefusal {
    /// The number of the group, from 1 on; 0 if there is no fault.
    pub group: u32,
    /// The fault's number in its group, from 1 on.
    pub number: u32,
    /// 1 if the fault is an item's, 0 if it is that of all together.
    pub has_input: u32,
    /// The number of the item.
    pub input: u32,
    /// The values that the line prints, and zeros after them.
    pub values: [u64; 4],
}

// Returns the header's number of a group of faults.
fn group_number(group: Group) -> u32
    ensures { result ≡ spec.group_number group }
{
    match group {
        Group::Elf => 1,
        Group::Place => 2,
        Group::Reloc => 3,
        Group::Record => 4,
        Group::Insn => 5,
        Group::Machine => 6,
        Group::Section => 7,
        Group::Core => 8,
        Group::Module => 9,
        Group::Link => 10,
    }
}

// Returns a value of a line, or 0 if the line has fewer.
fn value_at(notice: &Notice, i: usize) -> u64
    ensures { result ≡ spec.value_at (shown_by notice.now).fault.values i }
{
    let values = notice.values.as_slice();
    if i < values.len() { values[i] } else { 0 }
}

/// Returns what a line prints, as C has it.
pub fn refusal_shown(notice: &Notice) -> KiblawenRefusal
    ensures { result ≡ spec.refusal_shown (shown_by notice.now) }
{
    let (has_input, input) = match notice.item {
        Some(item) => (1, item),
        None => (0, 0),
    };
    KiblawenRefusal {
        group: group_number(notice.fault.group),
        number: u32::from(notice.fault.number),
        has_input,
        input,
        values: [
            value_at(notice, 0),
            value_at(notice, 1),
            value_at(notice, 2),
            value_at(notice, 3),
        ],
    }
}

/// Returns that there is no fault.
pub fn no_refusal() -> KiblawenRefusal
    ensures { result ≡ spec.no_refusal }
{
    KiblawenRefusal {
        group: 0,
        number: 0,
        has_input: 0,
        input: 0,
        values: [0, 0, 0, 0],
    }
}

/// Returns a fault of linking, as C has it. A limit and out of memory have no line.
pub fn refusal_of(fault: &LinkFault) -> KiblawenRefusal
    requires { IsTrue (is_answered fault.now) }
    ensures { result ≡ spec.refusal_of fault.now }
{
    match fault {
        LinkFault::NoMemory => no_refusal(),
        LinkFault::Gather(GatherFault::NoMemory) => no_refusal(),
        LinkFault::Gather(GatherFault::TooManyFunctions) => no_refusal(),
        LinkFault::Gather(GatherFault::TooManyRows) => no_refusal(),
        LinkFault::Gather(GatherFault::Input(_, _)) => refusal_shown(&fault.notice(None)),
        LinkFault::Gather(GatherFault::MixedArch(_, _)) => refusal_shown(&fault.notice(None)),
        LinkFault::Gather(GatherFault::Overlap(_, _, _, _)) => refusal_shown(&fault.notice(None)),
        LinkFault::OutOfReach(_) => refusal_shown(&fault.notice(None)),
    }
}

/// Returns the answer to a fault of linking.
pub fn fault_answer(fault: &LinkFault) -> u32
    ensures { result ≡ spec.fault_answer fault.now }
{
    match fault {
        LinkFault::NoMemory => MEMORY,
        LinkFault::Gather(GatherFault::NoMemory) => MEMORY,
        LinkFault::Gather(GatherFault::TooManyFunctions) => FUNCTIONS,
        LinkFault::Gather(GatherFault::TooManyRows) => ROWS,
        LinkFault::Gather(GatherFault::Input(_, _)) => REFUSED,
        LinkFault::Gather(GatherFault::MixedArch(_, _)) => REFUSED,
        LinkFault::Gather(GatherFault::Overlap(_, _, _, _)) => REFUSED,
        LinkFault::OutOfReach(_) => REFUSED,
    }
}
