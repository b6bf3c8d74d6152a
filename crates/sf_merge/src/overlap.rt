//! Functions of a section that share an address.

ghost use Rattle.std.specs.Prelude.{◌≡◌};
ghost use Rattle.sf_decode.specs.View.{section_bytes};
ghost use Rattle.sf_merge.specs.OneSection as spec;

use crate::in_section::SectionFunctions;
use sf_decode::View;
use sf_functions::first_overlap;

/// Returns the place of the function descriptor entry of the later of the first two neighbours that
/// share an address, of a section's functions in order.
pub fn shared_entry(view: &View<'_>, ordered: &SectionFunctions<'_>) -> Option<u64>
    ensures { result ≡ spec.shared_entry (section_bytes view.now) ordered.now }
{
    let (_, function) = first_overlap(ordered.entries())?;
    Some(view.entry_place(function.number))
}
