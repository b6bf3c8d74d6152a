//! What no clause says: that memory suffices for the section of one input, and for what is said at an address.
//! Bytes and contents were found apart from this crate.

use crate::shown::hex_of;
use base_tests::tables::{bytes_of, expect, number, prints, row};
use sf_asm::{Input, InputBytes, assemble, gather, row_at};
use sf_model::{Arch, Content, Key};
use std::alloc::Global;
use std::test::Fail;

/// A common information entry, and the entry of a function of 6 bytes at 0x1000, for the address 0x2000.
const KEPT: &str =
    "14 00*7 01 7a 52 00 01 78 10 01 1b 0c 07 08 90 01 00 00 1c 00 00 00 1c 00 00 00 e0 ef ff ff 06 00*4 41 0e 10 \
    86 02 43 0d 06 41 0c 07 08 00*7";

/// Its section at 0x3000.
const SECTION: &str =
    "e2 de 02 05 03 00 f8 00 01 00 00 00 04 00 00 00 0f 00 00 00 00 00 00 00 14 00 00 00 e4 df ff ff 06 00 00 00 00 00 00 00 \
    04 00 00 00 00 00 00 00 00 03 08 01 05 10 f0 04 04 10 f0 05 05 08 f0";

/// The same for a function of 27 bytes, whose frame address counts from another register from its offset 9 on.
const OMITTED: &str =
    "14 00*7 01 7a 52 00 01 78 10 01 1b 0c 07 08 90 01 00 00 18 00 00 00 1c 00 00 00 e0 ef ff ff 1b 00*4 41 0e 10 \
    86 02 48 0c 0a 00*7";

#[test]
fn the_section_of_one_input(rt: HostRuntime) -> Result<(), Fail> {
    let alloc = rt.alloc();
    let kept = bytes_of(alloc, KEPT)?;
    let bytes = kept.as_slice();
    if bytes.len() >= 1 << 32 {
        return Err("too long")?;
    }
    let input = Input {
        bytes: InputBytes::Section(Arch::Amd64, bytes),
        base: 0x2000,
    };
    let linked = assemble(alloc, &input, 0x3000)?;
    expect("section", hex_of(alloc, &linked.section)?.as_str(), SECTION)?;
    prints(
        alloc,
        "functions",
        &(linked.kept, linked.omitted.len()),
        "(1, 0)",
    )
}

/// What is said at an address, of one input.
fn said(alloc: Global, bytes: &[u8], pc: u64) -> Result<Option<(Content, Key, u64)>, Fail> {
    if bytes.len() >= 1 << 32 {
        return Err("too long")?;
    }
    let inputs = [Input {
        bytes: InputBytes::Section(Arch::Amd64, bytes),
        base: 0x2000,
    }];
    let _gathered = gather(alloc, &inputs, None)?;
    match row_at(alloc, &inputs, pc) {
        Ok(row) => Ok(row),
        Err(_) => Err("memory ran out")?,
    }
}

/// Fails unless what is said of an input at addresses is what the table wants: the content of the row, the key, and the last address of which it
/// says this.
fn expect_said(alloc: Global, input: &str, table: &str) -> Result<(), Fail> {
    let bytes = bytes_of(alloc, input)?;
    for line in table.lines() {
        if let Some((pc, wanted)) = row(line) {
            prints(alloc, line, &said(alloc, &bytes, number(pc)?)?, wanted)?;
        }
    }
    Ok(())
}

const SAID_OF_KEPT: &str = "
    0x1002 => Some((Content { base: Sp, cfa: 16, ra: Fixed, fp: Some(-16), signed: false }, A, 4099))
    0x1005 => Some((Content { base: Sp, cfa: 8, ra: Fixed, fp: Some(-16), signed: false }, A, 4101))
    0x1006 => None
";

const SAID_OF_OMITTED: &str = "
    0x1003 => Some((Content { base: Sp, cfa: 16, ra: Fixed, fp: Some(-16), signed: false }, A, 4104))
    0x1009 => None
";

#[test]
fn what_is_said_at_an_address(rt: HostRuntime) -> Result<(), Fail> {
    expect_said(rt.alloc(), KEPT, SAID_OF_KEPT)?;
    expect_said(rt.alloc(), OMITTED, SAID_OF_OMITTED)
}
