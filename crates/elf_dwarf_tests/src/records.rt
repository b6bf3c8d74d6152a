//! Sections, their faults by place, and what is read of them.
ghost use Rattle.std.specs.Prelude.{None};

use crate::same::same;
use base_tests::tables::{prints, put, row};
use eh_records::{RecordFault, Records};
use sf_bytes::{Field, Plain, Values};
use sf_model::{Arch, Key};
use std::alloc::Global;
use std::test::*;

/// A function of 6 bytes at 0x1000, for a section at 0x2000 on AMD64.
const ONE: [u8; 60] = [
    0x14, 0x00, 0x00, 0x00, 0x00, 0x00, 0x00, 0x00, 0x01, 0x7a, 0x52, 0x00, 0x01, 0x78, 0x10, 0x01,
    0x1b, 0x0c, 0x07, 0x08, 0x90, 0x01, 0x00, 0x00, 0x1c, 0x00, 0x00, 0x00, 0x1c, 0x00, 0x00, 0x00,
    0xe0, 0xef, 0xff, 0xff, 0x06, 0x00, 0x00, 0x00, 0x00, 0x41, 0x0e, 0x10, 0x86, 0x02, 0x43, 0x0d,
    0x06, 0x41, 0x0c, 0x07, 0x08, 0x00, 0x00, 0x00, 0x00, 0x00, 0x00, 0x00,
];

/// A function of 28 bytes at 0x1000, for a section at 0x2000 on AArch64, with key B.
const SIGNED: [u8; 60] = [
    0x14, 0x00, 0x00, 0x00, 0x00, 0x00, 0x00, 0x00, 0x01, 0x7a, 0x52, 0x42, 0x00, 0x04, 0x78, 0x1e,
    0x01, 0x1b, 0x0c, 0x1f, 0x00, 0x00, 0x00, 0x00, 0x20, 0x00, 0x00, 0x00, 0x1c, 0x00, 0x00, 0x00,
    0xe0, 0xef, 0xff, 0xff, 0x1c, 0x00, 0x00, 0x00, 0x00, 0x41, 0x2d, 0x41, 0x0e, 0x20, 0x9d, 0x04,
    0x9e, 0x03, 0x43, 0xdd, 0xde, 0x0e, 0x00, 0x41, 0x2d, 0x00, 0x00, 0x00,
];

/// A function with a personality and a language-specific data area, before relocation.
const PERSONAL: [u8; 72] = [
    0x1c, 0x00, 0x00, 0x00, 0x00, 0x00, 0x00, 0x00, 0x01, 0x7a, 0x50, 0x4c, 0x52, 0x00, 0x01, 0x78,
    0x10, 0x07, 0x03, 0x00, 0x00, 0x00, 0x00, 0x03, 0x1b, 0x0c, 0x07, 0x08, 0x90, 0x01, 0x00, 0x00,
    0x24, 0x00, 0x00, 0x00, 0x24, 0x00, 0x00, 0x00, 0x00, 0x00, 0x00, 0x00, 0x1b, 0x00, 0x00, 0x00,
    0x04, 0x00, 0x00, 0x00, 0x00, 0x41, 0x0e, 0x10, 0x86, 0x02, 0x43, 0x0d, 0x06, 0x56, 0x0c, 0x07,
    0x08, 0x00, 0x00, 0x00, 0x00, 0x00, 0x00, 0x00,
];

/// An entry whose code alignment factor has ten bytes that all go on, to the entry's end.
const ENDLESS: [u8; 22] = [
    0x12, 0x00, 0x00, 0x00, 0x00, 0x00, 0x00, 0x00, 0x01, 0x7a, 0x52, 0x00, 0x80, 0x80, 0x80, 0x80,
    0x80, 0x80, 0x80, 0x80, 0x80, 0x80,
];

/// The same with nine.
const CUT: [u8; 21] = [
    0x11, 0x00, 0x00, 0x00, 0x00, 0x00, 0x00, 0x00, 0x01, 0x7a, 0x52, 0x00, 0x80, 0x80, 0x80, 0x80,
    0x80, 0x80, 0x80, 0x80, 0x80,
];

/// Returns a section by its name in the tables.
fn section_of(name: &str) -> &'static [u8] {
    match name {
        "one" => &ONE,
        "personal" => &PERSONAL,
        "signed" => &SIGNED,
        "endless" => &ENDLESS,
        "cut" => &CUT,
        "extended" => b"\xff\xff\xff\xff",
        "three-bytes" => b"\xff\xff\xff",
        _ => &[],
    }
}

/// Fails unless each section, with the bytes of its row written into it, has the fault that the table wants.
fn expect_faults(alloc: Global, arch: Arch, table: &str) -> Result<(), Fail> {
    for line in table.lines() {
        if let Some((given, wanted)) = row(line) {
            let (name, edits) = given.split_once(' ').unwrap_or((given, ""));
            let mut bytes = section_of(name).to_vec(alloc)?;
            put(&mut bytes, edits)?;
            prints(alloc, line, &fault_of(alloc, &bytes, arch)?, wanted)?;
        }
    }
    Ok(())
}

/// Returns the fault of a section.
fn fault_of(alloc: Global, section: &[u8], arch: Arch) -> Result<Option<RecordFault>, Fail> {
    if section.len() > 1000 {
        return Err("a section is short")?;
    }
    Ok(Records::parse(alloc, section, arch).err())
}

/// A section with other bytes, and its fault on AMD64.
const FAULTS: &str = "
    one @0 14 => None
    one @0 00 => None
    one @0 03 => Some(Short(0))
    one @0 38 => None
    one @0 39 => Some(Short(0))
    one @8 02 => Some(CieVersion(8))
    one @9 52 => Some(Augmentation(9))
    one @10 51 => Some(Augmentation(9))
    one @15 08 => None
    one @15 09 => Some(Short(16))
    one @15 00 => Some(Short(16))
    one @16 2b => Some(Encoding(16))
    one @16 9b => Some(Encoding(16))
    one @16 01 => Some(Encoding(16))
    one @24 06 => Some(Short(32))
    one @24 0a => Some(Short(36))
    one @28 20 => Some(CiePointer(28))
    one @28 04 => Some(CiePointer(28))
    one @28 18 => Some(CiePointer(28))
    one @28 00 => Some(CieVersion(32))
    one @40 10 => Some(Short(41))
    one @40 0f => None
    # Its personality.
    personal @18 03 => None
    personal @18 e3 => None
    personal @18 53 => Some(Encoding(18))
    personal @18 05 => Some(Encoding(18))
    personal @17 00 => Some(Short(18))
    personal @17 03 => Some(Short(19))
    personal @17 05 => Some(Short(23))
    personal @11 50 => Some(Augmentation(9))
    # Whole sections.
    extended => Some(Extended(0))
    three-bytes => Some(Short(0))
    empty => None
    endless @0 12 => Some(Leb(12))
    cut @0 11 => Some(Short(12))
    signed @0 14 => Some(Augmentation(9))
";

/// The same on AArch64.
const FAULTS_OF_AARCH64: &str = "
    signed @0 14 => None
";

#[test]
fn faults_of_sections(rt: HostRuntime) -> Result<(), Fail> {
    expect_faults(rt.alloc(), Arch::Amd64, FAULTS)?;
    expect_faults(rt.alloc(), Arch::Aarch64, FAULTS_OF_AARCH64)
}

struct Unknown;

impl Values for Unknown {
    ghost field_bits = { λ _ _ _ _. None };

    fn bits(&self, _field: Field) -> Option<u64> {
        None
    }
}

// Counts the functions of a section.
fn count_of(records: &Records<'_>) -> usize {
    let mut count: usize = 0;
    for _ in records.fdes() {
        count = count.saturating_add(1);
    }
    count
}

#[test]
fn functions(rt: HostRuntime) -> Result<(), Fail> {
    let records = Records::parse(rt.alloc(), &ONE, Arch::Amd64)
        .ok()
        .ok_or("it is right")?;
    same(&rt, &count_of(&records), &1);
    let fde = records.fdes().next().ok_or("it has a function")?;
    let places = (fde.place, fde.begin.place, fde.insns.place, fde.insns.len());
    same(&rt, &places, &(24, 32, 41, 15));
    let factors = (fde.cie.code_alignment_factor, fde.cie.data_alignment_factor);
    same(&rt, &factors, &(1, -8));
    let rest = (fde.cie.return_address_register, fde.cie.insns.place);
    same(&rt, &rest, &(16, 17));
    let low = 0xffff_ffff_ffff_ffe0;
    same(&rt, &fde.span(0x2000, 0, &Plain), &Ok((0x1000, 6)));
    same(
        &rt,
        &fde.span(0x101b, low, &Plain),
        &Err(RecordFault::FunctionEnd(32)),
    );
    same(
        &rt,
        &fde.span(0x101a, low, &Plain),
        &Ok((0xffff_ffff_ffff_fffa, 6)),
    );
    same(
        &rt,
        &fde.span(0x2000, 0, &Unknown),
        &Err(RecordFault::Unresolved(32)),
    );
    let records = Records::parse(rt.alloc(), &SIGNED, Arch::Aarch64)
        .ok()
        .ok_or("it is right")?;
    let fde = records.fdes().next().ok_or("it has a function")?;
    same(&rt, &fde.cie.key, &Key::B);
    Ok(())
}

/// The pointer fields of `PERSONAL`: their places, widths and numbers.
const FIELDS: [(u64, u8, u64); 4] = [(19, 4, 0), (40, 4, 0), (44, 4, 27), (49, 4, 0)];

#[test]
fn pointer_fields(rt: HostRuntime) -> Result<(), Fail> {
    let records = Records::parse(rt.alloc(), &PERSONAL, Arch::Amd64)
        .ok()
        .ok_or("it is right")?;
    let fields = records.fields(rt.alloc()).ok().ok_or("there is memory")?;
    same(&rt, &fields.len(), &FIELDS.len());
    for (field, wanted) in fields.iter().zip(&FIELDS) {
        same(&rt, &(field.place, field.width, field.raw), wanted);
    }
    Ok(())
}
