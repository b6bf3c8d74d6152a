//! Laws over the definitions: functions that do nothing, for their contracts.

ghost use Rattle.std.specs.Prelude.{◌≡◌, ◌<◌, ℕ, IsTrue, is_ok, length, get_or};
ghost use Rattle.sf_model.specs.declared.function.Func.{Func};
ghost use Rattle.sf_model.specs.Section.{Section};
ghost use Rattle.sf_decode.specs.Decoding.{section_check, table_in};
ghost use Rattle.sf_decode.specs.View.{section_address, section_bytes, table_of, function_of};

use crate::view::View;

// Bytes in which no check fails are a section of the table that they describe.
fn bytes_are_a_section(bytes: &[u8], at: u64)
    requires { IsTrue (is_ok (section_check bytes.now at)) }
    ensures { Section bytes.now at (table_in bytes.now at) }
{}

/// The bytes of a view are a section of the table that the view shows.
pub fn view_is_a_section(view: &View<'_>)
    ensures { Section (section_bytes view.now) (section_address view.now) (table_of view.now) }
{
    bytes_are_a_section(view.bytes(), view.address());
}

/// The functions that a view shows by number are those of its table, in order.
#[tactic(auto, using(crate::proofs::Joined::function_of_number))]
pub fn functions_are_numbered(view: &View<'_>)
    ensures { (i : ℕ) (d : Func) → i < length (table_of view.now).functions → get_or (table_of view.now).functions i d ≡ function_of view.now i }
{}
