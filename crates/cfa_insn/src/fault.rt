//! Why an instruction can't be read.

use sf_model::{FaultName, FaultValues, Group, Shown, fault_values};

/// An instruction that can't be read, with the place of its opcode byte.
#[derive(Clone, Copy, Debug, PartialEq, Eq)]
pub enum InsnFault {
    /// An opcode that isn't in the table: its place, then the opcode.
    Opcode(u64, u8),
    /// The bytes end inside the instruction.
    Short(u64),
    /// A LEB128 operand has more than ten bytes or a value outside 64 bits.
    Leb(u64),
}

impl Shown for InsnFault {
    ghost use Rattle.cfa_insn.specs.FaultShown.{shown_insn};

    ghost shown = { shown_insn };

    fn name(&self) -> FaultName {
        let (number, name) = match self {
            InsnFault::Opcode(_, _) => (1, "Opcode"),
            InsnFault::Short(_) => (2, "Short"),
            InsnFault::Leb(_) => (3, "Leb"),
        };
        FaultName {
            group: Group::Insn,
            number,
            name,
        }
    }

    fn values(&self) -> FaultValues {
        match self {
            InsnFault::Opcode(place, opcode) => fault_values(&[*place, u64::from(*opcode)]),
            InsnFault::Short(place) | InsnFault::Leb(place) => fault_values(&[*place]),
        }
    }
}
