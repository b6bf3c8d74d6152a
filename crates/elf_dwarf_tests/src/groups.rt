//! Which COMDAT groups of files are dropped. What several inputs come to is a case in files.

use crate::same::same;
use crate::samples::{GROUPED, file_of};
use elf_groups::SeenSignatures;
use elf_read::{Elf, ElfInput};
use std::test::*;

#[test]
fn a_group_that_an_earlier_file_has(rt: HostRuntime) -> Result<(), Fail> {
    let bytes = file_of(rt.alloc(), GROUPED, "")?;
    let elf = Elf::parse(&bytes).ok().ok_or("the object is sound")?;
    let mut seen = SeenSignatures::new(rt.alloc());
    let first = seen.dropped_groups(rt.alloc(), &ElfInput::Whole(elf))?;
    same(&rt, &first.len(), &0);
    let second = seen.dropped_groups(rt.alloc(), &ElfInput::Whole(elf))?;
    same(&rt, &second.as_slice(), &[1u32].as_slice());
    Ok(())
}
