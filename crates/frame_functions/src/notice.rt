//! A refused input as its line shows it.

ghost use Rattle.std.specs.Prelude.{◌≡◌, ◌≤◌, ◌∷◌, length, IsTrue, IsSome};
ghost use Rattle.sf_model.specs.Notice.{HasLine};
ghost use Rattle.sf_model.specs.FaultShown.{shown_by};
ghost use Rattle.frame_functions.specs.FaultShown.{shown_of_input};
ghost use Rattle.frame_functions.specs.Fault.{is_input_refusal};

use crate::fault::AsmFault;
use sf_model::{FaultName, FaultValues, Group, Notice, Shown, fault_values};

/// Returns the values of a fault of the call frame section of this number, after that number.
fn in_section<F: Shown>(section: u32, fault: &F) -> FaultValues
    requires { length (F.shown fault.now).values ≤ 3 }
    ensures { result.items ≡ section ∷ (F.shown fault.now).values }
{
    let mut values = fault_values(&[u64::from(section)]);
    let _fits = values.try_extend_from_slice(fault.values().as_slice());
    values
}

impl Shown for AsmFault {
    ghost use Rattle.frame_functions.specs.FaultShown.{shown_asm};

    ghost shown = { shown_asm };

    fn name(&self) -> FaultName {
        match self {
            AsmFault::Elf(fault) => fault.name(),
            AsmFault::Place(fault) => fault.name(),
            AsmFault::Reloc(_, fault) => fault.name(),
            AsmFault::Record(_, fault) => fault.name(),
            AsmFault::Machine(_, fault) => fault.name(),
            AsmFault::NoMemory => FaultName::none(Group::Link),
        }
    }

    fn values(&self) -> FaultValues {
        match self {
            AsmFault::Elf(fault) => fault.values(),
            AsmFault::Place(fault) => fault.values(),
            AsmFault::Reloc(section, fault) => in_section(*section, fault),
            AsmFault::Record(section, fault) => in_section(*section, fault),
            AsmFault::Machine(section, fault) => in_section(*section, fault),
            AsmFault::NoMemory => FaultValues::new(),
        }
    }
}

impl AsmFault {
    /// Returns the fault of the input of this number, as its line shows it.
    pub fn notice(&self, item: Option<u32>) -> Notice
        requires { IsTrue (is_input_refusal self.now) }
        ensures shown { shown_by result ≡ shown_of_input item self.now }
        ensures line { IsSome item → HasLine result }
    {
        Notice::new(item, self)
    }
}
