//! A fault of upgrading as its line shows it.

ghost use Rattle.std.specs.Prelude.{◌≡◌, IsSome, IsTrue};
ghost use Rattle.sf_model.specs.Notice.{HasLine};
ghost use Rattle.sf_model.specs.FaultShown.{shown_by};
ghost use Rattle.sf3_upgrade.specs.FaultShown.{is_upgrade_refusal, shown_of_upgrading};

use crate::fault::UpgradeFault;
use sf_decode::DecodeFault;
use sf_model::{FaultName, FaultValues, Group, Notice, Shown, fault_values};

impl Shown for UpgradeFault {
    ghost use Rattle.sf3_upgrade.specs.FaultShown.{shown_upgrade};

    ghost shown = { shown_upgrade };

    fn name(&self) -> FaultName {
        match self {
            UpgradeFault::Overlap(place) => DecodeFault::Overlap(*place).name(),
            UpgradeFault::TooManyRows(_) => FaultName {
                group: Group::Link,
                number: 4,
                name: "TooManyRows",
            },
            UpgradeFault::NoMemory => FaultName::none(Group::Link),
        }
    }

    fn values(&self) -> FaultValues {
        match self {
            UpgradeFault::Overlap(value) | UpgradeFault::TooManyRows(value) => {
                fault_values(&[*value])
            }
            UpgradeFault::NoMemory => FaultValues::new(),
        }
    }
}

impl UpgradeFault {
    /// Returns the fault of this item's section, as its line shows it. The caller owes that the fault is not `NoMemory`.
    pub fn notice(&self, item: Option<u32>) -> Notice
        requires { IsTrue (is_upgrade_refusal self.now) }
        ensures shown { shown_by result ≡ shown_of_upgrading item self.now }
        ensures line { IsSome item → HasLine result }
    {
        match self {
            UpgradeFault::Overlap(_) => Notice::new(item, self),
            UpgradeFault::TooManyRows(_) => Notice::new(None, self),
            UpgradeFault::NoMemory => unreachable!(),
        }
    }
}
