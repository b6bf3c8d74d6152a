//! A test that must hold.

ghost use Rattle.std.specs.Prelude.{◌≡◌, OnOk, IsTrue};
ghost use Rattle.sf_decode.specs.Checking.{unless};

use crate::fault::DecodeFault;

/// Returns the fault unless the test holds.
#[inline(always)]
pub fn require(test: bool, fault: DecodeFault) -> Result<(), DecodeFault>
    ensures answer { result ≡ unless test fault }
    ensures holds { OnOk result (IsTrue test) }
{
    if test { Ok(()) } else { Err(fault) }
}
