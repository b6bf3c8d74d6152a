//! The rows of one section, open or closed.

ghost use Rattle.std.specs.Prelude.{◌≡◌};
ghost use Rattle.std.specs.Option.{option_map};
ghost use Rattle.sf_lookup.specs.Lookup.{shown};
ghost use Rattle.sf_c.specs.Section.{section_row};

use core_walk::LookUp;
use sf_decode::LentSection;
use sf_lookup::{Found, find};
use sf_model::Arch;

/// Returns the row that holds at an address, with its function, or `None` if no row holds, as in a closed section.
#[tactic(auto, unfolding(sf_model::specs::Lookup::found_at))]
pub fn row_in(section: &LentSection<'_>, address: u64) -> Option<Found>
    ensures { result ≡ option_map shown (section_row section.now address) }
{
    match section.view() {
        Some(view) => find(&view, address),
        None => None,
    }
}

/// One section, by which a walk looks rows up.
#[derive(Clone, Copy)]
pub struct OneSection<'s, 'a> {
    /// The section.
    pub section: &'s LentSection<'a>,
}

impl<'s, 'a> LookUp for OneSection<'s, 'a> {
    ghost use Rattle.sf_c.specs.Section.{section_row};

    ghost found_at = { λ one. section_row one.section.now };

    #[tactic(auto, unfolding(sf_model::specs::Lookup::found_at))]
    fn look_up(&self, address: u64) -> Option<(Arch, Found)> {
        match self.section.view() {
            Some(view) => view.look_up(address),
            None => None,
        }
    }
}
