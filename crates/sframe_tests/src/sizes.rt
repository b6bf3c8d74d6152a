use crate::same::same;
use sf_model::{Base, Content, Ra};
use sf_sizes::{offset_size, row_bytes, row_type};

fn content(cfa: i32, ra: Ra, fp: Option<i32>) -> Content {
    Content {
        base: Base::Sp,
        cfa,
        ra,
        fp,
        signed: false,
    }
}

/// A start, and the number of its width.
const STARTS: [(u32, u8); 6] = [
    (0, 0),
    (0xff, 0),
    (0x100, 1),
    (0xffff, 1),
    (0x1_0000, 2),
    (0xffff_ffff, 2),
];

/// An offset, and the number of its width.
const OFFSETS: [(i32, u8); 10] = [
    (-0x80, 0),
    (0x7f, 0),
    (-0x81, 1),
    (0x80, 1),
    (-0x8000, 1),
    (0x7fff, 1),
    (-0x8001, 2),
    (0x8000, 2),
    (i32::MIN, 2),
    (i32::MAX, 2),
];

#[test]
fn each_width_at_both_its_ends(rt: HostRuntime) {
    for (last, width) in &STARTS {
        same(&rt, &row_type(*last), width);
    }
    for (offset, width) in &OFFSETS {
        let offset = *offset;
        for content in [
            content(offset, Ra::Fixed, None),
            content(8, Ra::At(offset), None),
            content(8, Ra::Fixed, Some(offset)),
        ] {
            same(&rt, &(offset, offset_size(&content)), &(offset, *width));
        }
    }
}

#[test]
fn a_row_has_its_start_its_info_byte_and_its_offsets(rt: HostRuntime) {
    let plain = content(8, Ra::Fixed, None);
    let saved = content(16, Ra::Fixed, Some(-16));
    let wide = content(32, Ra::At(-24), Some(0x8000));
    let sizes = [
        row_bytes(0, &plain),
        row_bytes(1, &saved),
        row_bytes(2, &wide),
    ];
    same(&rt, &sizes, &[3, 5, 17]);
}
