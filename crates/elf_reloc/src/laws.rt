//! What the values of fields have to do with a patched section.

ghost use Rattle.std.specs.Prelude.{◌≡◌, ◌⊎◌, ◌↔◌, ℕ, true, List, drop, map, Some, Ok, Err};
ghost use Rattle.std.specs.List.{All};
ghost use Rattle.byteorder.specs.Endian.{little_number};
ghost use Rattle.elf_place.specs.Views.{Placing as placing};
ghost use Rattle.elf_read.specs.Sections.{section_bytes};
ghost use Rattle.sf_bytes.specs.declared.field.Field.{Field as pointer};
ghost use Rattle.elf_reloc.specs.declared.fix.RelocatedField.{RelocatedField as written};
ghost use Rattle.elf_reloc.specs.Fields.{fix_bits, bits_in, is_dropped_field};
ghost use Rattle.sf_bytes.specs.Rising.{AreApart};
ghost use Rattle.elf_reloc.specs.Order.{first_at, place_of, places_check};
ghost use Rattle.elf_reloc.specs.Patched.{patched, AreRaw, FieldHolds, IsFree, IsDropped, IsUnresolved};
ghost use Rattle.elf_reloc.specs.Reading.{section_fixes};
ghost use Rattle.elf_reloc.specs.Table.{width_of};
ghost use Rattle.elf_reloc.specs.Views.{Reads, IsFirstFault};
ghost use Rattle.elf_reloc.specs.Applied.{Slot, applied_by_first, applied_of, applied_to, slot_of};
ghost use Rattle.elf_reloc.specs.declared.fault.RelocFault.{RelocFault as refusal};
ghost use Rattle.elf_reloc.specs.declared.fault.RelocFault.TheVariants.{NoMemory};

/// States, by its contract alone, what the fields hold in a copy of the section in which all known values are written.
pub fn fields_hold_what_is_patched()
    // The bits of a field of a list on which all relocations lie are the number in the copy. It has no bits exactly
    // where a relocation lies on it whose value is not known.
    ensures checked { (p : placing) (section : ℕ) (fixes : List written) (fields : List pointer) → Reads (section_fixes p section) fixes → AreApart fields → AreRaw (section_bytes p.file section) fields → places_check fields fixes ≡ Ok tt → All (λ g. FieldHolds fixes (section_bytes p.file section) g (bits_in fixes g.place g.width g.raw)) fields }
    // Such a field is dropped exactly where a relocation lies on it whose symbol lies in a dropped section.
    ensures dropped { (p : placing) (section : ℕ) (fixes : List written) (fields : List pointer) → Reads (section_fixes p section) fixes → AreApart fields → places_check fields fixes ≡ Ok tt → All (λ g. (is_dropped_field fixes g.place g.width ≡ true) ↔ IsDropped fixes g) fields }
    // A dropped field is unresolved as well.
    ensures unknown { (p : placing) (section : ℕ) (fixes : List written) (g : pointer) → Reads (section_fixes p section) fixes → IsDropped fixes g → IsUnresolved fixes g }
    // A field on which a relocation lies holds its bits.
    ensures written { (p : placing) (section : ℕ) (fixes : List written) (place : ℕ) (f : written) (bits : ℕ) → Reads (section_fixes p section) fixes → first_at place_of place fixes ≡ Some f → fix_bits f ≡ Some bits → little_number (width_of f.range) (drop place (patched fixes (section_bytes p.file section))) ≡ bits }
    // A field that no relocation covers holds its raw number.
    ensures free { (p : placing) (section : ℕ) (fixes : List written) (place width : ℕ) → Reads (section_fixes p section) fixes → IsFree place width fixes → little_number width (drop place (patched fixes (section_bytes p.file section))) ≡ little_number width (drop place (section_bytes p.file section)) }
{}

/// States, by its contract alone, that reading a section's relocations and checking them against its pointer fields comes
/// to what applying them is defined to be: the patched section, or the first fault.
pub fn relocations_are_applied()
    // All were read, and lie on pointer fields.
    ensures applied { (p : placing) (section : ℕ) (fixes : List written) (fields : List pointer) → Reads (section_fixes p section) fixes → places_check fields fixes ≡ Ok tt → (applied_to p section (map slot_of fields) ≡ Ok (applied_of fixes (section_bytes p.file section) (map slot_of fields))) × (applied_by_first p section fields ≡ Ok (applied_of fixes (section_bytes p.file section) (map slot_of fields))) }
    // All were read, and one lies on no pointer field that is the first at its place.
    ensures misplaced { (p : placing) (section : ℕ) (fixes : List written) (fields : List pointer) (e : refusal) → Reads (section_fixes p section) fixes → places_check fields fixes ≡ Err e → applied_by_first p section fields ≡ Err e }
    // Of fields that lie apart each is the first at its place.
    ensures alike { (p : placing) (section : ℕ) (fields : List pointer) → AreApart fields → applied_by_first p section fields ≡ applied_to p section (map slot_of fields) }
    // One was refused as it was read, whatever the pointer fields are.
    ensures refused { (p : placing) (section : ℕ) (slots : List Slot) (e : refusal) → IsFirstFault e (section_fixes p section) → (e ≡ NoMemory) ⊎ (applied_to p section slots ≡ Err e) }
{}
