//! The SFrame section of a file of which all bytes are there.

ghost use Rattle.std.specs.Prelude.{◌≡◌, ◌<◌, IfOk, IfSome};
ghost use Rattle.elf_read.specs.Checking.{verdict};
ghost use Rattle.elf_read.specs.Sections.{section_count};
ghost use Rattle.elf_read.specs.Views.{file};
ghost use Rattle.elf_mapped.specs.Sframe as spec;

use crate::layout::SFRAME;
use elf_read::layout::SHT_NOBITS;
use elf_read::{Elf, ElfFault};

// Returns whether a section is an SFrame section that is loaded from the file.
#[tactic(auto, unfolding(crate::specs::Sframe::is_sframe))]
fn is_sframe(elf: &Elf<'_>, i: u32) -> bool
    ensures { result ≡ spec.is_sframe (file elf.now) i }
{
    elf.is_allocated(i) && elf.is_named(i, SFRAME) && elf.section(i).kind != SHT_NOBITS
}

// Finds the number of the first SFrame section that is loaded from the file.
fn sframe_section(elf: &Elf<'_>) -> Option<u32>
    ensures found { result ≡ spec.sframe_section (file elf.now) }
    ensures within { IfSome result (λ i. i < section_count (file elf.now)) }
{
    for i in 0..elf.sections() {
        if is_sframe(elf, i) {
            return Some(i);
        }
    }
    None
}

/// Returns the number of a file's SFrame section, if there is one.
///
/// # Errors
///
/// `Compressed` with the place of its header if it is compressed.
pub fn sframe_of(elf: &Elf<'_>) -> Result<Option<u32>, ElfFault>
    ensures check { verdict result ≡ spec.sframe_check (file elf.now) (spec.sframe_section (file elf.now)) }
    ensures section { IfOk result (λ section. section ≡ spec.sframe_section (file elf.now)) }
{
    let Some(i) = sframe_section(elf) else {
        return Ok(None);
    };
    if elf.is_compressed(i) {
        return Err(ElfFault::Compressed(elf.header_place(i)));
    }
    Ok(Some(i))
}
