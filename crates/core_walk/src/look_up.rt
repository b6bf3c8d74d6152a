//! Where a walk looks rows up.

ghost use Rattle.std.specs.Prelude.{◌≡◌, IfSome, IsTrue, Option, ℕ};
ghost use Rattle.std.specs.Option.{option_map};
ghost use Rattle.sf_model.specs.Content.{content_fits};
ghost use Rattle.sf_model.specs.Lookup.{FoundRow, found_at};
ghost use Rattle.sf_decode.specs.View.{table_of};
ghost use Rattle.sf_lookup.specs.Indexed.{indexed_table};
ghost use Rattle.sf_lookup.specs.Lookup.{shown};

use sf_decode::View;
use sf_lookup::{Found, Indexed, find};
use sf_model::Arch;

/// Rows by the addresses at which they hold: those of a section, or of all sections of a process.
pub trait LookUp {
    /// The function and the row that hold at an address.
    ghost found_at: { Self → ℕ → Option FoundRow };

    /// Finds the row that holds at an address, and the machine that it is for.
    fn look_up(&self, pc: u64) -> Option<(Arch, Found)>
        ensures found { option_map (λ f. f.1) result ≡ option_map shown (found_at self.now pc) }
        ensures fits { IfSome result (λ f. IsTrue (content_fits f.0 f.1.row.content)) };
}

/// The rows of a section.
impl<'a> LookUp for View<'a> {
    ghost found_at = { λ view. found_at (table_of view).functions };

    fn look_up(&self, pc: u64) -> Option<(Arch, Found)> {
        let found = find(self, pc)?;
        Some((self.arch(), found))
    }
}

/// The rows of a section that was put in order.
impl<'a> LookUp for Indexed<'a> {
    ghost found_at = { λ indexed. found_at (indexed_table indexed).functions };

    fn look_up(&self, pc: u64) -> Option<(Arch, Found)> {
        let found = self.find(pc)?;
        Some((self.view().arch(), found))
    }
}
