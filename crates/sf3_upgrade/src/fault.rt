//! Why a section is not upgraded.

ghost use Rattle.std.specs.Prelude.{◌≡◌};
ghost use Rattle.sf3_upgrade.specs.declared.fault.UpgradeFault.TheVariants as upgrade;

use sf_base::NoMemory;

/// Why a section is not upgraded. The faults are checked in the order in which they are here.
#[derive(Clone, Copy, Debug, PartialEq, Eq)]
pub enum UpgradeFault {
    /// Two functions share an address: the place of the function descriptor entry of the later one, of the first neighbours
    /// that share an address, by start and then by entry.
    Overlap(u64),
    /// The function with this start is the first one with more than 65,535 rows.
    TooManyRows(u64),
    /// Memory ran out.
    NoMemory,
}

impl From<NoMemory> for UpgradeFault {
    ghost from_gives = { λ _ fault. fault ≡ upgrade.NoMemory };

    fn from(_: NoMemory) -> UpgradeFault {
        UpgradeFault::NoMemory
    }
}
