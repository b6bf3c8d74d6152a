//! A test that must hold.

ghost use Rattle.std.specs.Prelude.{◌≡◌, OnOk, IsTrue};
ghost use Rattle.elf_read.specs.Checking.{unless};

use crate::fault::ElfFault;

/// Returns the fault unless the test holds.
pub fn require(test: bool, fault: ElfFault) -> Result<(), ElfFault>
    ensures answer { result ≡ unless test fault }
    ensures holds { OnOk result (IsTrue test) }
{
    if test { Ok(()) } else { Err(fault) }
}
