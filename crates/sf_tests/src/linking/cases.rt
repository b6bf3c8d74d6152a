//! Inputs of one small function each, and what linking two of them comes to.

use elf_dwarf_tests::samples::GROUPED;
use sf_model::{Arch, Form};

/// A function of AMD64 of 6 bytes, at 0x1000 where the section lies at 0x2000.
const PUSHES: &str = "14 00 00 00 00 00 00 00 01 7a 52 00 01 78 10 01 1b 0c 07 08 90 01 00 00 \
     1c 00 00 00 1c 00 00 00 e0 ef ff ff 06 00 00 00 00 41 0e 10 86 02 43 0d \
     06 41 0c 07 08 00 00 00 00 00 00 00";

/// A function of AArch64 of 28 bytes, at 0x1000 where the section lies at 0x2000.
const SIGNS: &str = "14 00 00 00 00 00 00 00 01 7a 52 42 00 04 78 1e 01 1b 0c 1f 00 00 00 00 \
     20 00 00 00 1c 00 00 00 e0 ef ff ff 1c 00 00 00 00 41 2d 41 0e 20 9d 04 \
     9e 03 43 dd de 0e 00 41 2d 00 00 00";

/// A function of AMD64 that SFrame can't express: its return address is undefined.
const OUTERMOST: &str = "14 00 00 00 00 00 00 00 01 7a 52 00 01 78 10 01 1b 0c 07 08 90 01 00 00 \
     10 00 00 00 1c 00 00 00 e0 ef ff ff 06 00 00 00 00 07 10 00 00 00 00 00";

/// Returns the form and the bytes of an input by its name in the tables. `grouped` is an object with a group.
pub fn sample_of(name: &str) -> (Form, &'static str) {
    match name {
        "pushes" => (Form::Bare(Arch::Amd64), PUSHES),
        "signs" => (Form::Bare(Arch::Aarch64), SIGNS),
        "outermost" => (Form::Bare(Arch::Amd64), OUTERMOST),
        _ => (Form::Elf, GROUPED),
    }
}

/// Two inputs, each with its base and what is written into it; and the section at 0x3000, or the fault.
pub const PAIRS: &str = "
    # The later input has the lower function.
    pushes@0x2000 @33 6f 00 00; pushes@0x2000 => e2 de 02 05 03 00 f8 00 02 00 00 00 08 00 00 00 1e 00 00 00 00 00 00 00 28 00 00 00 e4 df ff ff 06 00 00 00 00 00 00 00 \
        04 00 00 00 00 00 00 00 d0 5f 00 00 06 00 00 00 0f 00 00 00 04 00 00 00 00 00 00 00 00 03 08 01 05 10 f0 04 04 10 f0 05 05 08 f0 \
        00 03 08 01 05 10 f0 04 04 10 f0 05 05 08 f0
    # Two functions that share one address, and two that touch.
    pushes@0x2000; pushes@0x2000 @32 e5 => Gather(Overlap(4096, 0, 4101, 1))
    pushes@0x2000; pushes@0x2000 @32 e6 => e2 de 02 05 03 00 f8 00 02 00 00 00 08 00 00 00 1e 00 00 00 00 00 00 00 28 00 00 00 e4 df ff ff 06 00 00 00 00 00 00 00 \
        04 00 00 00 00 00 00 00 d6 df ff ff 06 00 00 00 0f 00 00 00 04 00 00 00 00 00 00 00 00 03 08 01 05 10 f0 04 04 10 f0 05 05 08 f0 \
        00 03 08 01 05 10 f0 04 04 10 f0 05 05 08 f0
    # An omitted function shares an address with a kept one.
    outermost@0x2000; pushes@0x2000 @32 e5 => Gather(Overlap(4096, 0, 4101, 1))
    # Functions of one start are named in the order of their inputs.
    pushes@0x2000; pushes@0x2000 => Gather(Overlap(4096, 0, 4096, 1))
    # Two machines come before an overlap, and a faulty input before them.
    pushes@0x2000; signs@0x2000 => Gather(MixedArch(0, 1))
    pushes@0x2000; signs@0x2000 @32 e5 => Gather(MixedArch(0, 1))
    pushes@0x2000; signs@0x2000 @24 ff => Gather(Input(1, Record(0, Short(24))))
    # The last function is out of reach.
    pushes@0x2000; pushes@0x80004030 => OutOfReach(2147495984)
";

/// The same after an item for AMD64: the inputs are numbered from 1 on.
pub const AFTER_AMD64: &str = "
    pushes@0x2000; pushes@0x2000 => Gather(Overlap(4096, 1, 4096, 2))
    pushes@0x2000; signs@0x2000 => Gather(MixedArch(0, 2))
    pushes@0x2000 @24 ff; pushes@0x2000 => Gather(Input(1, Record(0, Short(24))))
";

/// The same after an item for AArch64.
pub const AFTER_AARCH64: &str = "
    pushes@0x2000; pushes@0x2000 @32 e6 => Gather(MixedArch(0, 1))
";

/// The same for a section at 0x600000.
pub const GROUPS: &str = "
    # The later of two COMDAT groups with one signature is dropped.
    grouped@0x400000; grouped@0x500000 => e2 de 02 05 03 00 f8 00 01 00 00 00 04 00 00 00 0f 00 00 00 00 00 00 00 14 00 00 00 \
        e4 ff df ff 1b 00 00 00 00 00 00 00 04 00 00 00 00 00 00 00 00 03 08 01 05 10 f0 04 04 10 f0 1a 05 08 f0
    # Groups without the COMDAT flag stay.
    grouped@0x400000 @64 00; grouped@0x500000 @64 00 => e2 de 02 05 03 00 f8 00 02 00 00 00 08 00 00 00 1e 00 00 00 00 00 00 00 \
        28 00 00 00 e4 ff df ff 1b 00 00 00 00 00 00 00 04 00 00 00 00 00 00 00 d0 ff ef ff 1b 00 00 00 0f 00 00 00 04 00 00 00 \
        00 00 00 00 00 03 08 01 05 10 f0 04 04 10 f0 1a 05 08 f0 00 03 08 01 05 10 f0 04 04 10 f0 1a 05 08 f0
    # A group's member that is no section.
    grouped@0x400000 @72 63 @737 00; grouped@0x500000 => Gather(Input(0, Elf(SymbolIndex(72))))
";
