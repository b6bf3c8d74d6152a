//! The sections with call frame information.

ghost use Rattle.std.specs.Prelude.{◌≡◌, All, length, IfOk};
ghost use Rattle.elf_read.specs.Input.{file};
ghost use Rattle.elf_read.specs.Sections.{section_count};
ghost use Rattle.elf_place.specs.Place as spec;

use crate::checks::is_kept_eh_frame;
use elf_read::ElfInput;
use std::alloc::{AllocError, Global};

/// Returns the numbers of the sections with call frame information that are not dropped, in order.
pub fn eh_frames_of(
    alloc: Global,
    elf: &ElfInput<'_>,
    dropped: &[bool],
    count: u32,
) -> Result<Vec<u32>, AllocError>
    requires count { count ≡ length dropped.now }
    requires all { length dropped.now ≡ section_count (file elf.now) }
    ensures all { IfOk result (λ v. All (spec.IsEhFrame (file elf.now)) v.items) }
    ensures numbers { IfOk result (λ v. v.items ≡ spec.eh_frames_below (file elf.now) dropped.now count) }
{
    let mut found = Vec::new(alloc);
    for i in 0..count {
        if is_kept_eh_frame(elf, dropped, i) {
            found.push(i)?;
        }
    }
    Ok(found)
}
