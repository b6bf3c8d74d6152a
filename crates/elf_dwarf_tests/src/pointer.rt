//! Encodings of each format and application, and each call once.
use crate::same::same;
use base_tests::tables::{prints, row};
use eh_pointer::{skip, usable, value, width};
use sf_bytes::Part;
use std::test::*;

/// An encoding, the width of its pointers, and the same where it can be used.
const WIDTHS: &str = "
    00 => (Some(8), Some(8))
    1b => (Some(4), Some(4))
    0a => (Some(2), Some(2))
    1c => (Some(8), Some(8))
    01 => (None, None)
    2b => (Some(4), None)
    9b => (Some(4), None)
    50 => (Some(8), None)
    ff => (None, None)
";

#[test]
fn widths(rt: HostRuntime) -> Result<(), Fail> {
    for line in WIDTHS.lines() {
        if let Some((encoding, wanted)) = row(line) {
            let encoding = u8::from_str_radix(encoding, 16)?;
            prints(
                rt.alloc(),
                line,
                &(width(encoding), usable(encoding)),
                wanted,
            )?;
        }
    }
    Ok(())
}

#[test]
#[tactic(auto, unfolding(eh_pointer::specs::Pointer::usable_width, eh_pointer::specs::Pointer::pointer_width))]
fn pointers(rt: HostRuntime) {
    same(&rt, &value(0x1b, 0xffff_efe0, 0x2020), &0x1000);
    same(&rt, &value(0x0a, 0x8000, 7), &0xffff_ffff_ffff_8000);
    same(&rt, &value(0x02, 0x8000, 7), &0x8000);
    same(&rt, &value(0x1c, 0xffff_ffff_ffff_ffff, 0x2020), &0x201f);
}

/// The encoding of a personality, what skipping its pointer comes to, and the place after that.
const PERSONALITIES: &str = "
    03 => (Ok(()), 14)
    9b => (Ok(()), 14)
    01 => (Ok(()), 13)
    69 => (Ok(()), 13)
    72 => (Ok(()), 12)
    00 => (Err(Short), 10)
    53 => (Err(Encoding), 10)
    d3 => (Err(Encoding), 10)
    05 => (Err(Encoding), 10)
";

#[test]
fn personality_pointers(rt: HostRuntime) -> Result<(), Fail> {
    let bytes: [u8; 6] = [0x81, 0x82, 0x03, 0xff, 0xff, 0xff];
    for line in PERSONALITIES.lines() {
        if let Some((encoding, wanted)) = row(line) {
            let mut part = Part::new(&bytes, 10);
            let encoding = u8::from_str_radix(encoding, 16)?;
            if encoding == 0xff {
                return Err("no pointer has this encoding")?;
            }
            let skipped = skip(&mut part, encoding);
            prints(rt.alloc(), line, &(skipped, part.place), wanted)?;
        }
    }
    Ok(())
}
