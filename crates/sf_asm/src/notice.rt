//! Faults of inputs as their lines show them.

ghost use Rattle.std.specs.Prelude.{◌≡◌, IsTrue};
ghost use Rattle.sf_model.specs.Notice.{HasLine};
ghost use Rattle.sf_model.specs.FaultShown.{shown_by};
ghost use Rattle.sf_asm.specs.FaultShown.{shown_of_gathering, shown_of_linking};
ghost use Rattle.sf_asm.specs.Fault.{is_gather_refusal, is_link_refusal};

use crate::fault::{GatherFault, LinkFault};
use sf_model::{FaultName, FaultValues, Group, Notice, Shown, fault_values};

impl Shown for GatherFault {
    ghost use Rattle.sf_asm.specs.FaultShown.{shown_gather};

    ghost shown = { shown_gather };

    fn name(&self) -> FaultName {
        let (number, name) = match self {
            GatherFault::Input(_, fault) => return fault.name(),
            GatherFault::MixedArch(_, _) => (1, "MixedArch"),
            GatherFault::Overlap(_, _, _, _) => (2, "Overlap"),
            GatherFault::TooManyFunctions | GatherFault::TooManyRows | GatherFault::NoMemory => {
                (0, "")
            }
        };
        FaultName {
            group: Group::Link,
            number,
            name,
        }
    }

    fn values(&self) -> FaultValues {
        match self {
            GatherFault::Input(_, fault) => fault.values(),
            GatherFault::MixedArch(first, second) => {
                fault_values(&[u64::from(*first), u64::from(*second)])
            }
            GatherFault::Overlap(start, first, other, second) => {
                fault_values(&[*start, u64::from(*first), *other, u64::from(*second)])
            }
            GatherFault::TooManyFunctions | GatherFault::TooManyRows | GatherFault::NoMemory => {
                FaultValues::new()
            }
        }
    }
}

impl Shown for LinkFault {
    ghost use Rattle.sf_asm.specs.FaultShown.{shown_link};

    ghost shown = { shown_link };

    fn name(&self) -> FaultName {
        match self {
            LinkFault::Gather(fault) => fault.name(),
            LinkFault::OutOfReach(_) => FaultName {
                group: Group::Link,
                number: 3,
                name: "OutOfReach",
            },
            LinkFault::NoMemory => FaultName::none(Group::Link),
        }
    }

    fn values(&self) -> FaultValues {
        match self {
            LinkFault::Gather(fault) => fault.values(),
            LinkFault::OutOfReach(start) => fault_values(&[*start]),
            LinkFault::NoMemory => FaultValues::new(),
        }
    }
}

impl GatherFault {
    /// Returns the fault as its line shows it. A fault that names its own input has that in place of `item`.
    pub fn notice(&self, item: Option<u32>) -> Notice
        requires { IsTrue (is_gather_refusal self.now) }
        ensures shown { shown_by result ≡ shown_of_gathering item self.now }
        ensures line { HasLine result }
    {
        match self {
            GatherFault::Input(number, fault) => fault.notice(Some(*number)),
            _ => Notice::new(item, self),
        }
    }
}

impl LinkFault {
    /// Returns the fault as its line shows it. A fault that names its own input has that in place of `item`.
    pub fn notice(&self, item: Option<u32>) -> Notice
        requires { IsTrue (is_link_refusal self.now) }
        ensures shown { shown_by result ≡ shown_of_linking item self.now }
        ensures line { HasLine result }
    {
        match self {
            LinkFault::Gather(fault) => fault.notice(item),
            _ => Notice::new(item, self),
        }
    }
}
