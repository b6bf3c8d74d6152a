//! The check for functions of a section that share an address.

ghost use Rattle.std.specs.Prelude.{◌≡◌};
ghost use Rattle.sf_decode.specs.View.{section_bytes};
ghost use Rattle.sf_slim.specs.Slimming.{slim_overlap_fault, unless_fault};

use crate::fault::SlimFault;
use sf_decode::View;
use sf_merge::{SectionFunctions, shared_entry};

/// Checks that no function shares an address with the one before it.
#[tactic(auto, unfolding(crate::specs::Slimming::slim_overlap_fault))]
pub(crate) fn check_overlap(
    view: &View<'_>,
    ordered: &SectionFunctions<'_>,
) -> Result<(), SlimFault>
    ensures { result ≡ unless_fault (slim_overlap_fault (section_bytes view.now) ordered.now) tt }
{
    match shared_entry(view, ordered) {
        Some(place) => Err(SlimFault::Overlap(place)),
        None => Ok(()),
    }
}
