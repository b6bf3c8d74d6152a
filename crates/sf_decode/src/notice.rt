//! A refused section as its line, or the C library, shows it.

ghost use Rattle.std.specs.Prelude.{◌≡◌, IsSome, IsTrue};
ghost use Rattle.sf_model.specs.Notice.{HasLine};
ghost use Rattle.sf_model.specs.FaultShown.{shown_by};
ghost use Rattle.sf_decode.specs.FaultShown.{is_refusal, number_of, place_of, shown_of_section};

use crate::fault::DecodeFault;
use sf_model::{Notice, Shown};

impl DecodeFault {
    /// Returns the fault's number, from 1 on.
    pub fn number(&self) -> u8
        ensures { result ≡ number_of self.now }
    {
        self.name().number
    }

    /// Returns the place of what is wrong, in bytes from the section's start.
    pub fn place(&self) -> u64
        ensures { result ≡ place_of self.now }
    {
        self.values()[0]
    }

    /// Returns the fault of this item's section, as its line shows it. The caller owes that the fault is no limit.
    pub fn notice(&self, item: Option<u32>) -> Notice
        requires { IsTrue (is_refusal self.now) }
        ensures shown { shown_by result ≡ shown_of_section item self.now }
        ensures line { IsSome item → HasLine result }
    {
        Notice::new(item, self)
    }
}
