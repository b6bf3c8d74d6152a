//! A refused file as its line shows it.

ghost use Rattle.std.specs.Prelude.{◌≡◌, IsSome};
ghost use Rattle.sf_model.specs.Notice.{HasLine};
ghost use Rattle.sf_model.specs.FaultShown.{shown_by};
ghost use Rattle.elf_read.specs.FaultShown.{shown_of_elf};

use crate::fault::ElfFault;
use sf_model::Notice;

impl ElfFault {
    /// Returns the fault of this item's file, as its line shows it.
    pub fn notice(&self, item: Option<u32>) -> Notice
        ensures shown { shown_by result ≡ shown_of_elf item self.now }
        ensures line { IsSome item → HasLine result }
    {
        Notice::new(item, self)
    }
}
