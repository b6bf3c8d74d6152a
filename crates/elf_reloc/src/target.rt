//! The address that a symbol names.

ghost use Rattle.std.specs.Prelude.{◌≡◌, IsTrue};
ghost use Rattle.elf_place.specs.Views.{placed_file, placing};
ghost use Rattle.elf_read.specs.Header.{is_rel};
ghost use Rattle.elf_reloc.specs.Target as spec;

use elf_place::Placed;
use elf_read::layout::{SHN_ABS, SHN_LORESERVE, SHN_UNDEF};

/// What a symbol names once sections are placed.
#[derive(Clone, Copy, PartialEq, Eq)]
pub enum Target {
    /// An address.
    Address(u64),
    /// Something that another file has, or a place in a section without address.
    Unresolved,
    /// A place in a section that is dropped.
    Dropped,
}

// Returns a value in a section of the file.
#[tactic(auto, unfolding(crate::specs::Target::section_target))]
fn section_target(placed: &Placed<'_>, section: u32, value: u64) -> Target
    ensures { result ≡ spec.section_target (placing placed.now) section value }
{
    if placed.dropped(section) {
        return Target::Dropped;
    }
    match placed.address(section) {
        Some(address) => Target::Address(address.wrapping_add(value)),
        None => Target::Unresolved,
    }
}

// Returns a value in the section of this index.
#[tactic(auto, unfolding(crate::specs::Target::index_target))]
fn index_target(placed: &Placed<'_>, index: u16, value: u64) -> Target
    ensures { result ≡ spec.index_target (placing placed.now) index value }
{
    if index == SHN_ABS {
        return Target::Address(value);
    }
    if index == SHN_UNDEF || index >= SHN_LORESERVE {
        return Target::Unresolved;
    }
    section_target(placed, u32::from(index), value)
}

/// Returns what a symbol names.
#[tactic(auto, unfolding(crate::specs::Target::symbol_target, crate::specs::Target::index_target, crate::specs::Target::section_target))]
pub fn target_of(placed: &Placed<'_>, table: u32, k: u32) -> Target
    requires { IsTrue (is_rel (placed_file placed.now)) }
    ensures { result ≡ spec.symbol_target (placing placed.now) table k }
{
    if k == 0 {
        return Target::Unresolved;
    }
    let symbol = placed.elf().symbol(table, k);
    index_target(placed, symbol.section, symbol.value)
}
