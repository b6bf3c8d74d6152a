//! What relocations write over the fields of a section.

ghost use Rattle.std.specs.Prelude.{◌≡◌, ◌⊎◌, Ok, Err, IfErr, IfOk, OnOk};
ghost use Rattle.std.specs.Option.{option_map};
ghost use Rattle.elf_place.specs.Views.{placing};
ghost use Rattle.elf_reloc.specs.declared.fault.RelocFault.TheVariants.{NoMemory};
ghost use Rattle.elf_reloc.specs.Fields.{bits_in, is_dropped_field};
ghost use Rattle.elf_reloc.specs.Reading.{section_fixes};
ghost use Rattle.eh_records.specs.Section.{pointer_fields};
ghost use Rattle.eh_records.specs.View.{entries};
ghost use Rattle.elf_reloc.specs.Views.{Reads, fixes_in};
ghost use Rattle.frame_functions.specs.Relocated.{pointer_check, relocations_of};
ghost use Rattle.frame_functions.specs.Views.{AreChecked, IsReadFrom, relocations_by, written_by};

use eh_records::Records;
use elf_place::Placed;
use elf_reloc::{RelocFault, Relocs};
use sf_bytes::{Field, Values};
use std::alloc::Global;

/// What is written over the fields of a section.
#[derive(Drop)]
pub enum Overlay {
    /// Nothing: a bare section's fields stay as they are.
    Unchanged,
    /// What the section's relocations write.
    Relocated(Relocs),
}

// Reads the relocations of a section.
fn read_relocs(alloc: Global, placed: &Placed<'_>, section: u32) -> Result<Relocs, RelocFault>
    ensures read { IfOk result (λ relocs. relocations_of (placing placed.now) section ≡ Ok (fixes_in relocs)) }
    ensures from { IfOk result (λ relocs. Reads (section_fixes (placing placed.now) section) (fixes_in relocs)) }
    ensures fault { IfErr result (λ fault. (fault ≡ NoMemory) ⊎ (relocations_of (placing placed.now) section ≡ Err fault)) }
{
    Relocs::new(alloc, placed, section)
}

// Checks that each of these relocations lies on a pointer field of the records. The fields are listed only if there is
// a relocation.
fn check_fields(alloc: Global, relocs: &Relocs, records: &Records<'_>) -> Result<(), RelocFault>
    ensures lie { OnOk result (pointer_check (pointer_fields (entries records.now)) (fixes_in relocs.now) ≡ Ok tt) }
    ensures checked { OnOk result (AreChecked (pointer_fields (entries records.now)) (fixes_in relocs.now)) }
    ensures fault { IfErr result (λ fault. (fault ≡ NoMemory) ⊎ (pointer_check (pointer_fields (entries records.now)) (fixes_in relocs.now) ≡ Err fault)) }
{
    if relocs.is_empty() {
        return Ok(());
    }
    match records.fields(alloc) {
        Ok(fields) => relocs.check(&fields),
        Err(_) => Err(RelocFault::NoMemory),
    }
}

impl Overlay {
    /// Reads what is written over a section of a file, or of none.
    pub fn new(
        alloc: Global,
        placed: Option<&Placed<'_>>,
        section: u32,
    ) -> Result<Overlay, RelocFault>
        ensures read { IfOk result (λ overlay. relocations_by (option_map (λ p. placing p.now) placed.entry) section ≡ Ok (written_by overlay)) }
        ensures from { IfOk result (λ overlay. IsReadFrom (option_map (λ p. placing p.now) placed.entry) section (written_by overlay)) }
        ensures fault { IfErr result (λ fault. (fault ≡ NoMemory) ⊎ (relocations_by (option_map (λ p. placing p.now) placed.entry) section ≡ Err fault)) }
    {
        match placed {
            None => Ok(Overlay::Unchanged),
            Some(placed) => match read_relocs(alloc, placed, section) {
                Ok(relocs) => Ok(Overlay::Relocated(relocs)),
                Err(fault) => Err(fault),
            },
        }
    }

    /// Checks that each relocation lies on a pointer field of these records.
    #[tactic(auto, using(crate::proofs::Relocating::none_checked))]
    pub fn check(&self, alloc: Global, records: &Records<'_>) -> Result<(), RelocFault>
        ensures lie { OnOk result (pointer_check (pointer_fields (entries records.now)) (written_by self.now) ≡ Ok tt) }
        ensures checked { OnOk result (AreChecked (pointer_fields (entries records.now)) (written_by self.now)) }
        ensures fault { IfErr result (λ fault. (fault ≡ NoMemory) ⊎ (pointer_check (pointer_fields (entries records.now)) (written_by self.now) ≡ Err fault)) }
    {
        match self {
            Overlay::Unchanged => Ok(()),
            Overlay::Relocated(relocs) => check_fields(alloc, relocs, records),
        }
    }

    /// Returns whether a field's relocation names a symbol in a section that is dropped.
    #[inline(always)]
    pub fn dropped(&self, field: Field) -> bool
        ensures { result ≡ is_dropped_field (written_by self.now) field.place field.width }
    {
        match self {
            Overlay::Unchanged => false,
            Overlay::Relocated(relocs) => relocs.dropped(field),
        }
    }
}

impl Values for Overlay {
    ghost field_bits = { λ overlay place width raw. bits_in (written_by overlay) place width raw };

    #[inline(always)]
    fn bits(&self, field: Field) -> Option<u64> {
        match self {
            Overlay::Unchanged => Some(field.raw),
            Overlay::Relocated(relocs) => relocs.bits(field),
        }
    }
}
