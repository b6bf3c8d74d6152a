//! The check for functions of a section that share an address.

ghost use Rattle.std.specs.Prelude.{◌≡◌};
ghost use Rattle.sf_decode.specs.View.{section_bytes};
ghost use Rattle.sf_verify.specs.Verifying.{section_fault};

use crate::fault::VerifyFault;
use sf_decode::View;
use sf_merge::{SectionFunctions, shared_entry};

/// Returns the fault of the first function that shares an address with the one before it, if there is one.
#[tactic(auto, unfolding(crate::specs::Verifying::section_fault))]
pub fn shared_address(view: &View<'_>, ordered: &SectionFunctions<'_>) -> Option<VerifyFault>
    ensures { result ≡ section_fault (section_bytes view.now) ordered.now }
{
    let place = shared_entry(view, ordered)?;
    Some(VerifyFault::Overlap(place))
}
