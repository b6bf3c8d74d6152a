//! Where a walk looks rows up.

ghost use Rattle.std.specs.Prelude.{◌≡◌, ℕ};
ghost use Rattle.sf_model.specs.Walk.{LookUp};
ghost use Rattle.sample_walk.specs.Cache.{located_by};

use crate::rule::Rule;

/// What is found at an address.
#[derive(Clone, Copy)]
pub struct Located {
    /// The index of the module that has the address.
    pub index: usize,
    /// What the row says that holds there, if one does.
    pub rule: Option<Rule>,
}

/// Modules with their rows, by addresses.
pub trait Modules {
    /// The function and the row that hold at an address.
    ghost row_at: { Self → LookUp };
    /// The index of the module that has an address.
    ghost index_at: { Self → ℕ → ℕ };

    /// Finds the module that has an address, and the row that holds there.
    fn find(&self, address: u64) -> Located
        ensures { result ≡ located_by (row_at self.now) (index_at self.now) address };
}
