//! A fault of slimming as its line shows it.

ghost use Rattle.std.specs.Prelude.{◌≡◌, IsSome, IsTrue};
ghost use Rattle.sf_model.specs.Notice.{HasLine};
ghost use Rattle.sf_model.specs.FaultShown.{shown_by};
ghost use Rattle.sf_slim.specs.FaultShown.{is_slim_refusal, shown_of_slimming};

use crate::fault::SlimFault;
use sf_decode::DecodeFault;
use sf_merge::MergeFault;
use sf_model::Notice;

impl SlimFault {
    /// Returns the fault of this item's section, as its line shows it. The caller owes that the fault is not `NoMemory`.
    pub fn notice(&self, item: Option<u32>) -> Notice
        requires { IsTrue (is_slim_refusal self.now) }
        ensures shown { shown_by result ≡ shown_of_slimming item self.now }
        ensures line { IsSome item → HasLine result }
    {
        match *self {
            SlimFault::Overlap(place) => DecodeFault::Overlap(place).notice(item),
            SlimFault::OutOfReach(start) => MergeFault::OutOfReach(start).notice(None),
            SlimFault::NoMemory => unreachable!(),
        }
    }
}
