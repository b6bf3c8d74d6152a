//! Laws over the definitions: functions that do nothing, and are there for their contracts.

ghost use Rattle.std.specs.Prelude.{◌≡◌, ℕ, IsTrue, List, [], FitsSigned};
ghost use Rattle.std.specs.Int.{w32};
ghost use Rattle.sf_model.specs.Content.{PointerInRange, ReturnInRange, content_fits};
ghost use Rattle.sf_model.specs.Recovery.{deciding_registers, recovery};
ghost use Rattle.sf_model.specs.Section.{AreBytes, Section};
ghost use Rattle.sf_model.specs.Table.{Table};
ghost use Rattle.sf_model.specs.Tight.{Narrow, Tight};

use crate::content::{Content, Ra};
use crate::machine::{Arch, Key};

/// States that two contents of one machine that recover alike are equal, and so are their keys if the
/// return address is signed. One case decides it: no memory, and registers that are far apart.
pub fn equal_recoveries_mean_equal_contents(
    arch: Arch,
    first: Content,
    first_key: Key,
    second: Content,
    second_key: Key,
)
    requires first_fits { IsTrue (content_fits arch first) }
    requires second_fits { IsTrue (content_fits arch second) }
    requires alike { recovery first first_key deciding_registers [] ≡ recovery second second_key deciding_registers [] }
    ensures content { first ≡ second }
    ensures key { IsTrue first.signed → first_key ≡ second_key }
{
    return_in_range(first.ra);
    pointer_in_range(first.fp);
    return_in_range(second.ra);
    pointer_in_range(second.fp);
    frame_offset_in_range(first);
    frame_offset_in_range(second);
}

/// States that bytes at an address are a section of at most one table.
#[tactic(auto, using(crate::proofs::TableSame::table_same))]
pub fn section_has_one_table(bytes: &[u8], at: u64)
    ensures { (one other : Table) → Section bytes.now at one → Section bytes.now at other → one ≡ other }
{}

/// States that at most one list of bytes is a section of a table at an address without gaps and with the
/// least widths.
#[tactic(auto, using(crate::proofs::TightOne::tight_one, crate::proofs::TightOne::tight_section))]
pub fn tight_section_is_the_only_one(at: u64)
    ensures only { (table : Table) (one other : List ℕ) → AreBytes one → AreBytes other → Tight one at table → Tight other at table → Narrow one table → Narrow other table → one ≡ other }
    ensures section { (table : Table) (bytes : List ℕ) → Tight bytes at table → Section bytes at table }
{}

/// States that an offset is a number of 32 signed bits.
fn offset_in_range(offset: i32)
    ensures { FitsSigned w32 offset }
{}

/// States that the canonical frame address's offset is a number of 32 signed bits.
fn frame_offset_in_range(content: Content)
    ensures { FitsSigned w32 content.cfa }
{
    offset_in_range(content.cfa)
}

/// States that the return address's offset is a number of 32 signed bits.
fn return_in_range(ra: Ra)
    ensures { ReturnInRange ra }
{
    match ra {
        Ra::Fixed => (),
        Ra::Link => (),
        Ra::At(offset) => offset_in_range(offset),
    }
}

/// States that the frame pointer's offset is a number of 32 signed bits.
fn pointer_in_range(fp: Option<i32>)
    ensures { PointerInRange fp }
{
    match fp {
        None => (),
        Some(offset) => offset_in_range(offset),
    }
}
