//! Numbers at both ends of their ranges, padded, too long and cut; each read once.
use crate::same::same;
use sf_bytes::{ByteFault, Field, Part, Plain, Values};
use std::test::*;

const UNSIGNED: [(&[u8], Result<u64, ByteFault>); 10] = [
    (&[0x00], Ok(0)),
    (&[0x7f], Ok(127)),
    (&[0x80, 0x01], Ok(128)),
    (&[0xe5, 0x8e, 0x26], Ok(624_485)),
    (&[0x80, 0x80, 0x00], Ok(0)),
    (
        &[0xff, 0xff, 0xff, 0xff, 0xff, 0xff, 0xff, 0xff, 0xff, 0x01],
        Ok(u64::MAX),
    ),
    (
        &[0x80, 0x80, 0x80, 0x80, 0x80, 0x80, 0x80, 0x80, 0x80, 0x02],
        Err(ByteFault::Leb(7)),
    ),
    (
        &[0x80, 0x80, 0x80, 0x80, 0x80, 0x80, 0x80, 0x80, 0x80, 0x80],
        Err(ByteFault::Leb(7)),
    ),
    (
        &[0x80, 0x80, 0x80, 0x80, 0x80, 0x80, 0x80, 0x80, 0x80],
        Err(ByteFault::Short(7)),
    ),
    (&[], Err(ByteFault::Short(7))),
];

#[test]
fn unsigned_numbers(rt: HostRuntime) {
    for (bytes, wanted) in &UNSIGNED {
        let mut part = Part::new(bytes, 7);
        same(&rt, &part.uleb(), wanted);
    }
}

const SIGNED: [(&[u8], Result<i64, ByteFault>); 10] = [
    (&[0x00], Ok(0)),
    (&[0x3f], Ok(63)),
    (&[0x40], Ok(-64)),
    (&[0x80, 0x7f], Ok(-128)),
    (&[0xff, 0xff, 0x7f], Ok(-1)),
    (
        &[0xff, 0xff, 0xff, 0xff, 0xff, 0xff, 0xff, 0xff, 0xff, 0x00],
        Ok(i64::MAX),
    ),
    (
        &[0x80, 0x80, 0x80, 0x80, 0x80, 0x80, 0x80, 0x80, 0x80, 0x7f],
        Ok(i64::MIN),
    ),
    (
        &[0x80, 0x80, 0x80, 0x80, 0x80, 0x80, 0x80, 0x80, 0x80, 0x01],
        Err(ByteFault::Leb(7)),
    ),
    (
        &[0xff, 0xff, 0xff, 0xff, 0xff, 0xff, 0xff, 0xff, 0xff, 0x7e],
        Err(ByteFault::Leb(7)),
    ),
    (&[0xff, 0xff], Err(ByteFault::Short(7))),
];

#[test]
fn signed_numbers(rt: HostRuntime) {
    for (bytes, wanted) in &SIGNED {
        let mut part = Part::new(bytes, 7);
        same(&rt, &part.sleb(), wanted);
    }
}

#[test]
fn fields_in_turn(rt: HostRuntime) -> Result<(), Fail> {
    let bytes: [u8; 37] = [
        0x01, 0x02, 0x03, 0x04, 0x05, 0x06, 0x07, 0x08, 0x09, 0x0a, 0x0b, 0x0c, 0x0d, 0x0e, 0x0f,
        0xff, 0xfe, 0xff, 0xfd, 0xff, 0xff, 0xff, 0xfc, 0xff, 0xff, 0xff, 0xff, 0xff, 0xff, 0xff,
        0x7a, 0x52, 0x00, 0x11, 0x22, 0x33, 0x44,
    ];
    let mut part = Part::new(&bytes, 100);
    same(&rt, &part.get_u8(), &Ok(0x01));
    same(&rt, &part.get_u16(), &Ok(0x0302));
    same(&rt, &part.get_u32(), &Ok(0x0706_0504));
    same(&rt, &part.get_u64(), &Ok(0x0f0e_0d0c_0b0a_0908));
    same(&rt, &part.get_i8(), &Ok(-1));
    same(&rt, &part.get_i16(), &Ok(-2));
    same(&rt, &part.get_i32(), &Ok(-3));
    same(&rt, &part.get_i64(), &Ok(-4));
    same(&rt, &part.text0().ok(), &Some(b"zR".as_slice()));
    let taken = part.take(3)?;
    same(&rt, &(taken.place, taken.len()), &(133, 3));
    same(&rt, &part.get_u16(), &Err(ByteFault::Short(136)));
    same(&rt, &part.text0().err(), &Some(ByteFault::Short(136)));
    same(&rt, &part.place, &136);
    same(&rt, &part.is_empty(), &false);
    Ok(())
}

#[test]
fn plain_fields_give_their_bits(rt: HostRuntime) {
    let field = Field {
        place: 8,
        width: 4,
        raw: 0xffff_ffff,
    };
    same(&rt, &Plain.bits(field), &Some(0xffff_ffff));
}
