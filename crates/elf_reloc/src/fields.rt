//! Pointer fields on which relocations lie.

ghost use Rattle.std.specs.Prelude.{◌≡◌, ◌<◌, ◌^◌, IfSome};
ghost use Rattle.sf_bytes.specs.Rising.{AreRising};
ghost use Rattle.elf_reloc.specs.Fields as spec;
ghost use Rattle.elf_reloc.specs.Order.{lies_on, places_check};
ghost use Rattle.elf_reloc.specs.Table as table;

use crate::fault::RelocFault;
use crate::fix::RelocatedField;
use crate::order::find_at;
use crate::table::{low_bits, width_of};
use sf_bytes::Field;

/// Returns the low bits of a value that is written, where it is known.
pub fn fix_bits(fix: RelocatedField) -> Option<u64>
    ensures value { result ≡ spec.fix_bits fix }
    ensures fits { IfSome result (λ bits. bits < 256 ^ table.width_of fix.range) }
{
    match fix.value {
        Some(value) => Some(low_bits(fix.range, value)),
        None => None,
    }
}

// Returns whether a field that is written lies on one of these.
fn lies(fields: &[Field], fix: RelocatedField) -> bool
    requires { AreRising fields.now }
    ensures { result ≡ lies_on fields.now fix }
{
    match find_at(fields, fix.place) {
        Some(field) => field.width == width_of(fix.range),
        None => false,
    }
}

/// Checks that each field that is written lies on one of these.
pub fn check_places(fixes: &[RelocatedField], fields: &[Field]) -> Result<(), RelocFault>
    requires { AreRising fields.now }
    ensures { result ≡ places_check fields.now fixes.now }
{
    for fix in fixes {
        if !lies(fields, *fix) {
            return Err(RelocFault::Place(fix.index));
        }
    }
    Ok(())
}
