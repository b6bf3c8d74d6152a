//! What is seen of whole files. What is wrong with a file is a clause, and whole runs over faulty files are cases in files.

use crate::same::same;
use crate::samples::{AARCH64, GROUPED, file_of};
use base_tests::tables::{prints, row};
use elf_read::{Elf, Kind, Rela, Symbol};
use sf_model::Arch;
use std::alloc::Global;
use std::test::*;

/// The name of each section of `GROUPED`, and the number of its bytes.
const SECTIONS_OF_GROUPED: &str = r#"
    0 => ("", 0)
    1 => (".group", 12)
    2 => (".text", 27)
    3 => (".gcc_except_table", 16)
    4 => (".eh_frame", 72)
    5 => (".rela.eh_frame", 72)
    6 => (".symtab", 144)
    7 => (".strtab", 28)
    8 => (".shstrtab", 83)
"#;

/// The same of `AARCH64`.
const SECTIONS_OF_AARCH64: &str = r#"
    0 => ("", 0)
    1 => (".text", 28)
    2 => (".eh_frame", 60)
    3 => (".rela.eh_frame", 24)
    4 => (".symtab", 48)
    5 => (".strtab", 1)
    6 => (".shstrtab", 58)
"#;

/// Fails unless the sections of a file have the names and the numbers of bytes of the table.
fn expect_sections(alloc: Global, elf: &Elf<'_>, table: &str) -> Result<(), Fail> {
    for line in table.lines() {
        if let Some((i, wanted)) = row(line) {
            let i = i.parse::<u32>()?;
            let name = str::from_utf8(elf.name(i))?;
            prints(alloc, line, &(name, elf.bytes(i).len()), wanted)?;
        }
    }
    Ok(())
}

#[test]
fn names_and_bytes_of_sections(rt: HostRuntime) -> Result<(), Fail> {
    let bytes = file_of(rt.alloc(), GROUPED, "")?;
    let elf = Elf::parse(&bytes).ok().ok_or("the file is sound")?;
    same(&rt, &(elf.kind(), elf.arch()), &(Kind::Rel, Arch::Amd64));
    same(&rt, &(elf.sections(), elf.segments()), &(9, 0));
    expect_sections(rt.alloc(), &elf, SECTIONS_OF_GROUPED)?;
    let bytes = file_of(rt.alloc(), AARCH64, "")?;
    let elf = Elf::parse(&bytes).ok().ok_or("the file is sound")?;
    same(&rt, &(elf.kind(), elf.arch()), &(Kind::Rel, Arch::Aarch64));
    same(&rt, &(elf.sections(), elf.segments()), &(7, 0));
    expect_sections(rt.alloc(), &elf, SECTIONS_OF_AARCH64)
}

/// What makes the addend of the second relocation of `GROUPED` -2.
const NEGATIVE: &str = "@240 fe ff ff ff ff ff ff ff";

#[test]
fn entries_of_an_object(rt: HostRuntime) -> Result<(), Fail> {
    let bytes = file_of(rt.alloc(), GROUPED, NEGATIVE)?;
    let elf = Elf::parse(&bytes).ok().ok_or("the file is sound")?;
    let rela = Rela {
        offset: 0x28,
        symbol: 2,
        kind: 2,
        addend: -2,
    };
    same(&rt, &elf.rela(5, 1), &rela);
    let symbol = Symbol {
        name: 22,
        section: 2,
        value: 0,
    };
    same(&rt, &elf.symbol(6, 5), &symbol);
    let group = elf.group(1).ok_or("section 1 is a group")?;
    same(&rt, &(group.comdat, group.count), &(true, 2));
    same(&rt, &group.signature.bytes(), &b"_Z1fv".as_slice());
    same(&rt, &(elf.member(1, 1), elf.group(2).is_none()), &(3, true));
    Ok(())
}

/// What makes a core file with one segment of `GROUPED`.
const AS_CORE: &str = "@16 04 @32 20 04 @54 38 @56 01 @1056 01 @1064 40 @1088 0c";

#[test]
fn a_segment_of_a_core_file(rt: HostRuntime) -> Result<(), Fail> {
    let bytes = file_of(rt.alloc(), GROUPED, AS_CORE)?;
    let elf = Elf::parse(&bytes).ok().ok_or("the file is sound")?;
    same(
        &rt,
        &(elf.kind(), elf.sections(), elf.segments()),
        &(Kind::Core, 0, 1),
    );
    let segment = elf.segment(0);
    same(
        &rt,
        &(segment.kind, segment.vaddr, segment.place),
        &(1, 0x1c0, 0x40),
    );
    same(
        &rt,
        &segment.bytes,
        &b"\x01\0\0\0\x02\0\0\0\x03\0\0\0".as_slice(),
    );
    Ok(())
}
