//! The relocations of a section.

ghost use Rattle.std.specs.List.Sorted.{IsNonDecreasingBy};
ghost use Rattle.elf_reloc.specs.Order.{place_of};

use crate::fault::RelocFault;
use crate::fields::{check_places, fix_bits};
use crate::fix::RelocatedField;
use crate::order::{bring_into_order, check_overlap, find_at};
use crate::reading::read_relocations;
use crate::table::width_of;
use elf_place::Placed;
use sf_bytes::{Field, Values};
use std::alloc::Global;

/// What the relocations of a section with call frame information write, by place.
#[derive(Drop)]
pub struct Relocs {
    fixes: Vec<RelocatedField>,
    ghost rising: { IsNonDecreasingBy place_of fixes.items },
}

impl Relocs {
    ghost use Rattle.std.specs.Prelude.{◌≡◌, ◌==◌, length, IfOk};
    ghost use Rattle.elf_read.specs.Sections.{section_bytes};
    ghost use Rattle.elf_place.specs.Views.{placed_file, placing};
    ghost use Rattle.elf_reloc.specs.Patched.{AreInside};
    ghost use Rattle.sf_bytes.specs.Rising.{AreRising};
    ghost use Rattle.elf_reloc.specs.Order.{places_check};
    ghost use Rattle.elf_reloc.specs.Fields.{is_dropped_field};
    ghost use Rattle.elf_reloc.specs.Reading.{section_fixes};
    ghost use Rattle.elf_reloc.specs.Views.{Relocated, fixes_in};

    /// Reads the relocations of a section. Only an object's are applied.
    ///
    /// The fault is the first: a section with relocations in another form than with addends, then each relocation in order of
    /// section and entry (its type, whether its field lies in the section, whether its value fits), then two
    /// fields that overlap.
    pub fn new(alloc: Global, placed: &Placed<'_>, section: u32) -> Result<Relocs, RelocFault>
        // The result is what the relocations give, and a fault is the first.
        ensures exact { Relocated result (section_fixes (placing placed.now) section) }
        // What is written lies in the section.
        ensures inside { IfOk result (λ r. AreInside (length (section_bytes (placed_file placed.now) section)) (fixes_in r)) }
    {
        let read = read_relocations(alloc, placed, section)?;
        let mut fixes = read.fixes;
        bring_into_order(&mut fixes)?;
        check_overlap(&fixes)?;
        Ok(Relocs { fixes })
    }

    /// Returns whether nothing is written.
    pub fn is_empty(&self) -> bool
        ensures { result ≡ (length (fixes_in self.now) == 0) }
    {
        self.fixes.is_empty()
    }

    /// Checks that each relocation lies on one of these pointer fields, which rise in place, at its place and
    /// with its width. `Place` names the one of the least place that doesn't.
    pub fn check(&self, fields: &[Field]) -> Result<(), RelocFault>
        requires { AreRising fields.now }
        ensures { result ≡ places_check fields.now (fixes_in self.now) }
    {
        check_places(&self.fixes, fields)
    }

    /// Returns whether a field's relocation names a symbol in a section that is dropped.
    pub fn dropped(&self, field: Field) -> bool
        ensures { result ≡ is_dropped_field (fixes_in self.now) field.place field.width }
    {
        match find_at(&self.fixes, field.place) {
            Some(fix) if width_of(fix.range) == field.width => fix.dropped,
            _ => false,
        }
    }
}

impl Values for Relocs {
    ghost use Rattle.std.specs.Prelude.{◌≡◌, ◌<◌, ◌^◌, ℕ, List, Contains, IfSome, Ok};
    ghost use Rattle.elf_read.specs.Sections.{section_bytes};
    ghost use Rattle.elf_place.specs.Views.{Placing as placing};
    ghost use Rattle.sf_bytes.specs.declared.field.Field.{Field as pointer};
    ghost use Rattle.sf_bytes.specs.Rising.{AreApart};
    ghost use Rattle.elf_reloc.specs.Fields.{bits_in};
    ghost use Rattle.elf_reloc.specs.Order.{places_check};
    ghost use Rattle.elf_reloc.specs.Patched.{AreRaw, FieldHolds};
    ghost use Rattle.elf_reloc.specs.Reading.{section_fixes};
    ghost use Rattle.elf_reloc.specs.Views.{Reads, fixes_in};

    ghost field_bits = { λ r place width raw. bits_in r.fixes.items place width raw };

    fn bits(&self, field: Field) -> Option<u64>
        ensures value { result ≡ bits_in (fixes_in self.now) field.place field.width field.raw }
        ensures fits { IfSome result (λ bits. bits < 256 ^ field.width) }
        // Where these are the relocations of a section, each of which lies on one of its pointer fields, the bits of such a field
        // are the number in a copy of the section in which all known values are written. It has no bits exactly where a
        // relocation lies on it whose value is not known.
        ensures holds { (p : placing) (section : ℕ) (fields : List pointer) → Reads (section_fixes p section) (fixes_in self.now) → AreApart fields → AreRaw (section_bytes p.file section) fields → places_check fields (fixes_in self.now) ≡ Ok tt → Contains fields field → FieldHolds (fixes_in self.now) (section_bytes p.file section) field result }
    {
        match find_at(&self.fixes, field.place) {
            Some(fix) if width_of(fix.range) == field.width => fix_bits(fix),
            _ => Some(field.raw),
        }
    }
}
