//! A fault of a process's modules as its line shows it.

ghost use Rattle.std.specs.Prelude.{◌≡◌, IsSome, IsTrue};
ghost use Rattle.sf_model.specs.Notice.{HasLine};
ghost use Rattle.sf_model.specs.FaultShown.{shown_by};
ghost use Rattle.sf_modules.specs.FaultShown.{is_module_refusal, shown_of_module};

use crate::fault::ModuleFault;
use sf_model::Notice;

impl ModuleFault {
    /// Returns the fault of this item's file, as its line shows it. The caller owes that it is no limit of the section,
    /// not a part of the core file that wasn't read, and not out of memory.
    pub fn notice(&self, item: Option<u32>) -> Notice
        requires { IsTrue (is_module_refusal self.now) }
        ensures shown { shown_by result ≡ shown_of_module item self.now }
        ensures line { IsSome item → HasLine result }
    {
        Notice::new(item, self)
    }
}
