//! What one relocation does.

ghost use Rattle.std.specs.Prelude.{◌≡◌, ◌+◌, ◌-◌, ◌%◌, ◌^◌, IsTrue, None};
ghost use Rattle.std.specs.Int.{cast_unsigned};
ghost use Rattle.elf_place.specs.Views.{placed_file, placing};
ghost use Rattle.elf_read.specs.Header.{is_rel};
ghost use Rattle.elf_reloc.specs.Reading as spec;

use crate::fault::RelocFault;
use crate::fix::RelocatedField;
use crate::table::{Effect, Range, absolute, effect_of, fits, relative, width_of};
use crate::target::{Target, target_of};
use elf_place::Placed;

/// Where a relocation is applied.
#[derive(Clone, Copy)]
struct RelocationSite {
    place: u64,
    index: u32,
}

// Returns a field whose bits are not known.
fn unknown(site: RelocationSite, range: Range, dropped: bool) -> RelocatedField
    ensures { result ≡ spec.fix site.place site.index range None dropped }
{
    RelocatedField {
        place: site.place,
        index: site.index,
        range,
        value: None,
        dropped,
    }
}

// Returns a field with a value, which must fit it.
#[tactic(auto, unfolding(crate::specs::Reading::written))]
fn written(site: RelocationSite, range: Range, value: u64) -> Result<RelocatedField, RelocFault>
    ensures { result ≡ spec.written site.place site.index range value }
{
    if !fits(range, value) {
        return Err(RelocFault::Range(site.index));
    }
    Ok(RelocatedField {
        place: site.place,
        index: site.index,
        range,
        value: Some(value),
        dropped: false,
    })
}

// Returns a field that holds the symbol's value and the addend.
#[tactic(auto, unfolding(crate::specs::Reading::written))]
fn write_absolute(
    site: RelocationSite,
    range: Range,
    addend: u64,
    target: Target,
) -> Result<RelocatedField, RelocFault>
    ensures { result ≡ spec.aimed site.place site.index range (λ s. (s + addend) % 2 ^ 64) target }
{
    match target {
        Target::Address(symbol) => written(site, range, absolute(symbol, addend)),
        Target::Unresolved => Ok(unknown(site, range, false)),
        Target::Dropped => Ok(unknown(site, range, true)),
    }
}

// Returns a field that holds the same minus the field's address.
#[tactic(auto, unfolding(crate::specs::Reading::written))]
fn write_relative(
    site: RelocationSite,
    range: Range,
    addend: u64,
    address: u64,
    target: Target,
) -> Result<RelocatedField, RelocFault>
    ensures { result ≡ spec.aimed site.place site.index range (λ s. (s + addend + (2 ^ 64 - address)) % 2 ^ 64) target }
{
    match target {
        Target::Address(symbol) => written(site, range, relative(symbol, addend, address)),
        Target::Unresolved => Ok(unknown(site, range, false)),
        Target::Dropped => Ok(unknown(site, range, true)),
    }
}

// Returns a field, which must lie in the section's bytes.
#[tactic(auto, unfolding(crate::specs::Reading::inside))]
fn inside(
    len: u64,
    site: RelocationSite,
    range: Range,
    read: Result<RelocatedField, RelocFault>,
) -> Result<Option<RelocatedField>, RelocFault>
    ensures { result ≡ spec.inside len site.place site.index range read }
{
    if u128::from(len) < u128::from(site.place) + u128::from(width_of(range)) {
        return Err(RelocFault::OutOfSection(site.index));
    }
    let fix = read?;
    Ok(Some(fix))
}

// Returns the address of a section that has one.
#[tactic(auto, unfolding(crate::specs::Reading::placed_address))]
fn section_address(placed: &Placed<'_>, section: u32) -> u64
    ensures { result ≡ spec.placed_address (placing placed.now) section }
{
    placed.address(section).unwrap_or(0)
}

/// Returns what entry `k` of relocation section `i` does. It has this number among all.
#[tactic(auto, unfolding(crate::specs::Reading::entry_fix))]
pub fn entry_fix(
    placed: &Placed<'_>,
    section: u32,
    index: u32,
    i: u32,
    k: u32,
) -> Result<Option<RelocatedField>, RelocFault>
    requires { IsTrue (is_rel (placed_file placed.now)) }
    ensures { result ≡ spec.entry_fix (placing placed.now) section index i k }
{
    let elf = placed.elf();
    let rela = elf.rela(i, k);
    let site = RelocationSite {
        place: rela.offset,
        index,
    };
    let len = elf.bytes(section).len() as u64;
    let addend = rela.addend.cast_unsigned();
    let target = target_of(placed, elf.section(i).link, rela.symbol);
    match effect_of(elf.arch(), rela.kind) {
        None => Err(RelocFault::UnknownType(index)),
        Some(Effect::Nothing) => Ok(None),
        Some(Effect::Absolute(range)) => {
            inside(
                len,
                site,
                range,
                write_absolute(site, range, addend, target),
            )
        }
        Some(Effect::Relative(range)) => {
            let address = section_address(placed, section).wrapping_add(rela.offset);
            let field = write_relative(site, range, addend, address, target);
            inside(len, site, range, field)
        }
    }
}
