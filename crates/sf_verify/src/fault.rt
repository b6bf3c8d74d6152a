//! Why a section is not verified.

ghost use Rattle.std.specs.Prelude.{◌≡◌};
ghost use Rattle.sf_verify.specs.declared.fault.VerifyFault.TheVariants as verify;

use sf_asm::GatherFault;
use sf_base::NoMemory;
use thiserror::Error;

/// Why a section is not verified.
#[derive(Debug, Drop, Error)]
pub enum VerifyFault {
    /// The inputs are not gathered.
    #[error(transparent)]
    Gather(GatherFault),
    /// Two functions of the section share an address: the place of the function descriptor entry of the
    /// later one, of the first neighbours that share an address, by start and then by entry. This fault comes
    /// directly before that of two functions of the inputs that share an address.
    #[error("functions of the section overlap")]
    Overlap(u64),
    /// Memory ran out.
    #[error("memory ran out")]
    NoMemory,
}

impl From<NoMemory> for VerifyFault {
    ghost from_gives = { λ _ fault. fault ≡ verify.NoMemory };

    fn from(_: NoMemory) -> VerifyFault {
        VerifyFault::NoMemory
    }
}
