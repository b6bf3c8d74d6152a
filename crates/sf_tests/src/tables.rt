//! A procedure linkage table against bytes from outside.

use crate::shown::hex_of;
use base_tests::tables::{bytes_of, expect, prints};
use sf_asm::{Input, InputBytes};
use sf_model::Arch;
use sf_plt::link_plt;
use std::test::Fail;

/// A common information entry, and the entry of a table of 48 bytes at 0x1000, for the address 0x2000.
const TABLE: &str =
    "14 00*7 01 7a 52 00 01 78 10 01 1b 0c 07 08 90 01 00 00 20 00 00 00 1c 00 00 00 e0 ef ff ff 30 00*4 0e 10 46 \
    0e 18 4a 0f 0b 77 08 80 00 3f 1a 3b 2a 33 24 22 00*4";

/// Its section at 0x3000.
const SECTION: &str =
    "e2 de 02 05 03 00 f8 00 02 00 00 00 04 00 00 00 0c 00 00 00 00 00 00 00 28 00 00 00 e4 df ff ff 10 00 00 00 \
    00 00 00 00 02 00 00 00 00 00 00 00 e0 df ff ff 20 00 00 00 06 00 00 00 02 00 00 00 10 10 00 00 00 03 10 06 \
    03 18 00 03 08 0b 03 10";

#[test]
fn a_table_is_two_functions(rt: HostRuntime) -> Result<(), Fail> {
    let alloc = rt.alloc();
    let table = bytes_of(alloc, TABLE)?;
    let bytes = table.as_slice();
    if bytes.len() >= 1 << 32 {
        return Err("too long")?;
    }
    let input = Input {
        bytes: InputBytes::Section(Arch::Amd64, bytes),
        base: 0x2000,
    };
    let linked = link_plt(alloc, &[input], 0x3000, None)?;
    expect("section", hex_of(alloc, &linked.section)?.as_str(), SECTION)?;
    let counts = (linked.kept, linked.omitted.len(), linked.plts.len());
    prints(alloc, "functions and tables", &counts, "(0, 0, 1)")
}
