//! Laws: what the commands come to.

ghost use Rattle.std.specs.Prelude.{◌≡◌, ℕ, List, Result};
ghost use Rattle.sf_model.specs.Section.{AreBytes};
ghost use Rattle.sf_decode.specs.declared.fault.DecodeFault.{DecodeFault};
ghost use Rattle.sf_decode.specs.Decoding.{section_check};
ghost use Rattle.section_commands.specs.Coming.{Coming};
ghost use Rattle.section_commands.specs.SectionComes.{Showing, ShowingComesFrom};

/// States that showing the section of bytes comes to something: what is shown, or a refusal.
#[tactic(auto, using(crate::proofs::ShownComes::some_shown))]
pub fn a_shown_section_comes_to_something()
    ensures { (at : ℕ) (bytes : List ℕ) (show : Showing) → AreBytes bytes → (check : Result (Unit {0}) DecodeFault) → section_check bytes at ≡ check → (coming : Coming) × ShowingComesFrom at bytes show check coming }
{}
