//! A fault of verifying as its line shows it.

ghost use Rattle.std.specs.Prelude.{◌≡◌, IsSome, IsTrue};
ghost use Rattle.sf_model.specs.Notice.{HasLine};
ghost use Rattle.sf_model.specs.FaultShown.{shown_by};
ghost use Rattle.sf_verify.specs.FaultShown.{is_verify_refusal, shown_of_verifying};

use crate::fault::VerifyFault;
use sf_decode::DecodeFault;
use sf_model::Notice;

impl VerifyFault {
    /// Returns the fault of this item's section or of the inputs, as its line shows it. The caller owes that the fault is no limit and not `NoMemory`.
    pub fn notice(&self, item: Option<u32>) -> Notice
        requires { IsTrue (is_verify_refusal self.now) }
        ensures shown { shown_by result ≡ shown_of_verifying item self.now }
        ensures line { IsSome item → HasLine result }
    {
        match self {
            VerifyFault::Gather(fault) => fault.notice(None),
            VerifyFault::Overlap(place) => DecodeFault::Overlap(*place).notice(item),
            VerifyFault::NoMemory => unreachable!(),
        }
    }
}
