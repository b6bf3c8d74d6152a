//! A refused core file as its line shows it.

ghost use Rattle.std.specs.Prelude.{◌≡◌, IsSome, IsTrue};
ghost use Rattle.sf_model.specs.Notice.{HasLine};
ghost use Rattle.sf_model.specs.FaultShown.{shown_by};
ghost use Rattle.core_notes.specs.FaultShown.{is_core_refusal, shown_of_core};

use crate::fault::CoreFault;
use sf_model::Notice;

impl CoreFault {
    /// Returns the fault of this item's file, as its line shows it. The caller owes that it is no limit.
    pub fn notice(&self, item: Option<u32>) -> Notice
        requires { IsTrue (is_core_refusal self.now) }
        ensures shown { shown_by result ≡ shown_of_core item self.now }
        ensures line { IsSome item → HasLine result }
    {
        Notice::new(item, self)
    }
}
