//! Why instructions can't be run.

ghost use Rattle.std.specs.Prelude.{◌≡◌};
ghost use Rattle.cfa_machine.specs.declared.fault.MachineFault.TheVariants.{NoMemory, Insn};

use cfa_insn::InsnFault;
use sf_model::{FaultName, FaultValues, Group, Shown, fault_values};
use std::alloc::{AllocError, AllocFailed};

/// The first instruction that can't be read or run, by the place of its opcode byte.
#[derive(Clone, Copy, Debug, PartialEq, Eq)]
pub enum MachineFault {
    /// An advance, a restore, or a remembered or restored state in a common information entry.
    CieInstruction(u64),
    /// A state is restored where none is remembered.
    StateEmpty(u64),
    /// A state is remembered where 64 are.
    StateDepth(u64),
    /// The CFA's register or offset is set where it has no rule of a register and an offset.
    NoCfaRegister(u64),
    /// An instruction that can't be read, or that the machine doesn't have.
    Insn(InsnFault),
    /// Memory ran out.
    NoMemory,
}

impl Shown for MachineFault {
    ghost use Rattle.cfa_machine.specs.FaultShown.{shown_machine};

    ghost shown = { shown_machine };

    fn name(&self) -> FaultName {
        let (number, name) = match self {
            MachineFault::CieInstruction(_) => (1, "CieInstruction"),
            MachineFault::StateEmpty(_) => (2, "StateEmpty"),
            MachineFault::StateDepth(_) => (3, "StateDepth"),
            MachineFault::NoCfaRegister(_) => (4, "NoCfaRegister"),
            MachineFault::Insn(fault) => return fault.name(),
            MachineFault::NoMemory => (0, ""),
        };
        FaultName {
            group: Group::Machine,
            number,
            name,
        }
    }

    fn values(&self) -> FaultValues {
        match self {
            MachineFault::CieInstruction(place)
            | MachineFault::StateEmpty(place)
            | MachineFault::StateDepth(place)
            | MachineFault::NoCfaRegister(place) => fault_values(&[*place]),
            MachineFault::Insn(fault) => fault.values(),
            MachineFault::NoMemory => FaultValues::new(),
        }
    }
}

impl From<AllocError> for MachineFault {
    ghost from_gives = { λ _ e. e ≡ NoMemory };

    fn from(_e: AllocError) -> MachineFault {
        MachineFault::NoMemory
    }
}

impl<T: Drop> From<AllocFailed<T>> for MachineFault {
    ghost from_gives = { λ _ e. e ≡ NoMemory };

    fn from(_e: AllocFailed<T>) -> MachineFault {
        MachineFault::NoMemory
    }
}

impl From<InsnFault> for MachineFault {
    ghost from_gives = { λ f e. e ≡ Insn f };

    fn from(fault: InsnFault) -> MachineFault {
        MachineFault::Insn(fault)
    }
}
