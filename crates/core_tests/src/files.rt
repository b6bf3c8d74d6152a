//! Core files as texts.

ghost use Rattle.std.specs.Prelude.{◌<◌, IfOk, length};

use base_tests::tables::put;
use std::alloc::Global;
use std::test::Fail;

/// A file of this many bytes: those of the text, as [`put`] reads it, and 0.
#[derive(Clone, Copy)]
pub struct File {
    pub len: u16,
    pub text: &'static str,
}

/// Two threads on AMD64, 100 and 101, and 32 bytes of memory at 0x7000. The program headers are at 64.
pub const TWO_THREADS: File = File {
    len: 920,
    text: "
        @0 7f 45 4c 46 02 01 01
        @16 04 00 3e 00 01
        @32 40
        @54 38 00 02
        @64 04 00 00 00 00 00 00 00 b0
        @96 c8 02
        @120 01 00 00 00 00 00 00 00 78 03 00 00 00 00 00 00 00 70
        @152 20
        @176 05 00 00 00 50 01 00 00 01 00 00 00 43 4f 52 45
        @228 64
        @340 00 70
        @436 04 10
        @460 f0 6f
        @532 05 00 00 00 50 01 00 00 01 00 00 00 43 4f 52 45
        @584 65
        @792 00 10
        @816 00 90
        @888 10 70 00 00 00 00 00 00 05 10
    ",
};

/// A thread on AArch64, 7, with a mask, and 16 bytes of memory at 0x7000.
pub const MASKED: File = File {
    len: 640,
    text: "
        @0 7f 45 4c 46 02 01 01
        @16 04 00 b7 00 01
        @32 40
        @54 38 00 02
        @64 04 00 00 00 00 00 00 00 b0
        @96 c0 01
        @120 01 00 00 00 00 00 00 00 70 02 00 00 00 00 00 00 00 70
        @152 10
        @176 05 00 00 00 88 01 00 00 01 00 00 00 43 4f 52 45
        @228 07
        @557 70
        @564 08 10
        @588 06 00 00 00 10 00 00 00 06 04 00 00 4c 49 4e 55 58
        @614 7f
        @622 7e
        @624 11 11 00 00 00 00 00 00 14 10 00 00 00 00 2a
    ",
};

/// Returns the bytes of a file, with some of them changed.
pub fn bytes_of(alloc: Global, file: &File, edits: &str) -> Result<Vec<u8>, Fail>
    ensures { IfOk result (λ bytes. length bytes.items < 4096) }
{
    let mut bytes = vec![in alloc; 0u8; usize::from(file.len)]?;
    put(&mut bytes, file.text)?;
    put(&mut bytes, edits)?;
    if bytes.len() >= 4096 {
        return Err("a file is short")?;
    }
    Ok(bytes)
}
