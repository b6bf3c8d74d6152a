//! A file whose sections are placed.

ghost use Rattle.std.specs.Prelude.{All};
ghost use Rattle.std.specs.List.Sorted.{IsNonDecreasingBy};
ghost use Rattle.std.proofs.Props.{props};
ghost use Rattle.elf_read.specs.Input.{file as bytes_of_file};
ghost use Rattle.elf_place.specs.Place.{IsEhFrame};
ghost use Rattle.elf_place.specs.Relocations.{target_of, HasAll};

use crate::addresses::{addresses_of, shift_of};
use crate::checks::{check_aligns, check_all_bits};
use crate::dropped::dropped_sections;
use crate::eh_frames::eh_frames_of;
use crate::fault::PlaceFault;
use crate::relocations::{RelocationSection, relocation_sections, with_target};
use elf_read::ElfInput;
use std::alloc::Global;

/// An ELF file with the addresses of its sections.
#[derive(Drop)]
pub struct Placed<'a> {
    elf: ElfInput<'a>,
    shift: u64,
    dropped: Vec<bool>,
    addresses: Vec<Option<u64>>,
    eh_frames: Vec<u32>,
    relocations: Vec<RelocationSection>,
    ghost rising: { IsNonDecreasingBy target_of relocations.items },
    ghost whole: { HasAll (bytes_of_file elf) relocations.items },
    ghost frames: { All (IsEhFrame (bytes_of_file elf)) eh_frames.items } by { Prim.hlevel props },
}

impl<'a> Placed<'a> {
    ghost use Rattle.std.specs.Prelude.{◌≡◌, ◌<◌, ℕ, IfOk, length, map};
    ghost use Rattle.elf_read.specs.Sections.{section_count, section_fields};
    ghost use Rattle.elf_read.specs.Input.{file as file_of};
    ghost use Rattle.elf_place.specs.Dropped as drops;
    ghost use Rattle.elf_place.specs.Place as spec;
    ghost use Rattle.elf_read.specs.Checking.{numbers_below};
    ghost use Rattle.elf_place.specs.Relocations.{numbers_of, relocation_sections as relocation_sections_of};
    ghost use Rattle.elf_place.specs.Views as seen;

    /// Places the sections of a file that is loaded at `base`. `gone` has the numbers of its groups that are
    /// dropped: their members get no address.
    ///
    /// In an object the sections that are loaded follow one another from the base on, each at the least
    /// multiple of its alignment; in another file each lies at its own address, moved by the base.
    pub fn new(
        alloc: Global,
        elf: &ElfInput<'a>,
        base: u64,
        gone: &[u32],
    ) -> Result<Placed<'a>, PlaceFault>
        // The file, and how far its addresses are moved.
        ensures file { IfOk result (λ p. seen.placed_file p ≡ file_of elf.now) }
        ensures shift { IfOk result (λ p. p.shift ≡ spec.shift_of (file_of elf.now) base) }
        // What is dropped, the addresses, and the call frame information.
        ensures dropped { IfOk result (λ p. seen.dropped p ≡ drops.dropped_sections (file_of elf.now) gone.now) }
        ensures addresses { IfOk result (λ p. seen.addresses p ≡ map (spec.address_of (file_of elf.now) (drops.dropped_sections (file_of elf.now) gone.now) base) (numbers_below (section_count (file_of elf.now)))) }
        ensures eh_frames { IfOk result (λ p. seen.eh_frames p ≡ spec.eh_frames_below (file_of elf.now) (drops.dropped_sections (file_of elf.now) gone.now) (section_count (file_of elf.now))) }
        // Each address is below 2^64, and so is each section's last byte.
        ensures memory { IfOk result (λ p. (i : ℕ) → spec.LiesInMemory (seen.address_in p i) (section_fields (file_of elf.now) i).sh_size) }
        // The file is placed exactly where no check fails; else the fault is the first, unless memory ran out.
        ensures exact { spec.Gives result (spec.place_check (file_of elf.now) (drops.dropped_sections (file_of elf.now) gone.now) base) }
    {
        let count = elf.sections();
        let dropped = dropped_sections(alloc, elf, gone)?;
        check_aligns(elf, &dropped, count)?;
        let addresses = addresses_of(alloc, elf, base, &dropped, count)?;
        check_all_bits(elf, &dropped, count)?;
        let eh_frames = eh_frames_of(alloc, elf, &dropped, count)?;
        let relocations = relocation_sections(alloc, elf, count)?;
        Ok(Placed {
            elf: *elf,
            shift: shift_of(elf, base),
            dropped,
            addresses,
            eh_frames,
            relocations,
        })
    }

    /// Returns the address of a section, or none if it is not loaded or is dropped.
    pub fn address(&self, i: u32) -> Option<u64>
        ensures { result ≡ seen.address_in self.now i }
    {
        match self.addresses.get(i as usize) {
            Some(address) => *address,
            None => None,
        }
    }

    /// Returns how far the addresses are from those in the file: the base, or 0 in an object.
    pub fn shift(&self) -> u64
        ensures { result ≡ self.now.shift }
    {
        self.shift
    }

    /// Returns the numbers of the sections with call frame information, in order.
    pub fn eh_frames(&self) -> &[u32]
        ensures { result.now ≡ seen.eh_frames self.now }
    {
        self.eh_frames.as_slice()
    }

    /// Returns the sections with relocations of a section with call frame information, in whatever form, in order of their
    /// numbers, and none for another section. They are found by halves.
    pub fn relocation_sections(&self, target: u32) -> &[RelocationSection]
        ensures { numbers_of result.now ≡ relocation_sections_of (seen.placed_file self.now) target }
    {
        with_target(&self.relocations, target)
    }

    /// Returns the file.
    pub fn elf(&self) -> &ElfInput<'a>
        ensures { file_of result.now ≡ seen.placed_file self.now }
    {
        &self.elf
    }

    /// Returns whether a section is dropped with its group.
    pub fn dropped(&self, i: u32) -> bool
        ensures { result ≡ seen.is_dropped_in self.now i }
    {
        match self.dropped.get(i as usize) {
            Some(dropped) => *dropped,
            None => false,
        }
    }
}
