//! A law over the definitions: a function that does nothing, for its contract.

ghost use Rattle.std.specs.Prelude.{◌≡◌, ℕ, List};
ghost use Rattle.sf_model.specs.Section.{AreBytes};
ghost use Rattle.sf3_model.specs.Described.{Table};
ghost use Rattle.sf3_write.specs.Tight.{Tight};

/// States that at most one list of bytes is a section of a table at an address without gaps and with the least widths.
#[tactic(auto, using(crate::proofs::TightOne::tight_one))]
pub fn tight_section_is_the_only_one(at: u64)
    ensures { (table : Table) (one other : List ℕ) → AreBytes one → AreBytes other → Tight one at table → Tight other at table → one ≡ other }
{}
