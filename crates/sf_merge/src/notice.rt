//! A fault of merging as its line shows it.

ghost use Rattle.std.specs.Prelude.{◌≡◌, IsTrue};
ghost use Rattle.sf_model.specs.Notice.{HasLine};
ghost use Rattle.sf_model.specs.FaultShown.{shown_by};
ghost use Rattle.sf_merge.specs.Fault.{is_merge_refusal};
ghost use Rattle.sf_merge.specs.FaultShown.{shown_of_merging};

use crate::fault::MergeFault;
use sf_model::{FaultName, FaultValues, Group, Notice, Shown, fault_values};

impl Shown for MergeFault {
    ghost use Rattle.sf_merge.specs.FaultShown.{shown_merge};

    ghost shown = { shown_merge };

    fn name(&self) -> FaultName {
        let (number, name) = match self {
            MergeFault::MixedArch(_, _) => (1, "MixedArch"),
            MergeFault::Overlap(_, _, _, _) => (2, "Overlap"),
            MergeFault::OutOfReach(_) => (3, "OutOfReach"),
            MergeFault::TooManyFunctions | MergeFault::TooManyRows | MergeFault::NoMemory => (
                0, "",
            ),
        };
        FaultName {
            group: Group::Link,
            number,
            name,
        }
    }

    fn values(&self) -> FaultValues {
        match self {
            MergeFault::MixedArch(first, second) => {
                fault_values(&[u64::from(*first), u64::from(*second)])
            }
            MergeFault::Overlap(start, first, other, second) => {
                fault_values(&[*start, u64::from(*first), *other, u64::from(*second)])
            }
            MergeFault::OutOfReach(start) => fault_values(&[*start]),
            MergeFault::TooManyFunctions | MergeFault::TooManyRows | MergeFault::NoMemory => {
                FaultValues::new()
            }
        }
    }
}

impl MergeFault {
    /// Returns the fault as its line shows it. The caller owes that the fault is no limit and not `NoMemory`.
    pub fn notice(&self, item: Option<u32>) -> Notice
        requires { IsTrue (is_merge_refusal self.now) }
        ensures shown { shown_by result ≡ shown_of_merging item self.now }
        ensures line { HasLine result }
    {
        Notice::new(item, self)
    }
}
