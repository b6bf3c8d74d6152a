//! Rows of lists of instructions.

use base_tests::tables::{bytes_of, expect, number, row};
use cfa_machine::{CfaRule, DwRow, MachineFault, rows};
use sf_bytes::Part;
use sf_model::Arch;
use std::alloc::Global;
use std::test::Fail;

/// Returns the rows of the instructions.
fn rows_of(
    alloc: Global,
    arch: Arch,
    cie: &[u8],
    fde: &[u8],
    size: u64,
) -> Result<Result<Vec<DwRow>, MachineFault>, Fail> {
    if cie.len() >= 100 || fde.len() >= 100 {
        return Err("a list is short")?;
    }
    let code = match arch {
        Arch::Amd64 => 1,
        Arch::Aarch64 => 4,
    };
    let (cie, fde) = (Part::new(cie, 100), Part::new(fde, 200));
    Ok(rows(alloc, arch, code, -8, cie, fde, size))
}

/// Returns a row as a text: its start, the register and the offset of its CFA, the rules of the stack pointer, the frame pointer, the return
/// address and the signature, and whether the return address is signed.
fn text_of(alloc: Global, row: &DwRow) -> Result<String, Fail> {
    let DwRow {
        start,
        cfa,
        sp,
        fp,
        ra,
        sign,
        signed,
    } = row;
    let (register, offset) = match cfa {
        CfaRule::Reg { register, offset } => (*register, *offset),
        CfaRule::Missing | CfaRule::Expression => (0, 0),
    };
    let columns = format!(in alloc; "{sp:?} {fp:?} {ra:?} {sign:?} {signed}")?;
    Ok(format!(in alloc; "{start} {register}+{offset} {columns}; ")?)
}

/// Returns rows, or why there are none.
fn texts_of(alloc: Global, rows: Result<Vec<DwRow>, MachineFault>) -> Result<String, Fail> {
    let mut text = String::new(alloc);
    match rows {
        Ok(rows) => {
            for row in &rows {
                text.push_str(&text_of(alloc, row)?)?;
            }
        }
        Err(fault) => text.push_str(&format!(in alloc; "{fault:?}")?)?,
    }
    Ok(text)
}

/// The function's size, the instructions of the common information entry, at 100, and of the function, at 200; its rows on AMD64, or its fault.
/// The initial instructions put the CFA at rsp+8 and the return address at -8 from it.
const AMD64: &str = "
    # Rows start where advances arrive.
    27: 0c 07 08 90 01: 41 0e 10 86 02 48 0c 0a 00 => 0 7+8 Missing Missing Offset(-8) Missing false; 1 7+16 Missing Offset(-16) Offset(-8) Missing false; 9 10+0 Missing Offset(-16) Offset(-8) Missing false;
    # An advance of zero and one to the function's end start no row.
    6: 0c 07 08 90 01: 0e 10 40 0e 18 46 0e 08 => 0 7+24 Missing Missing Offset(-8) Missing false;
    # A whole row is remembered.
    6: 0c 07 08 90 01: 0a 0e 10 86 02 41 0b => 0 7+16 Missing Offset(-16) Offset(-8) Missing false; 1 7+8 Missing Missing Offset(-8) Missing false;
    # A function without bytes has no row.
    0: 0c 07 08 90 01: 41 =>
    # Operands of two bytes.
    6: 0c 07 08 90 01: 0e 90 01 86 80 01 46 => 0 7+144 Missing Offset(-1024) Offset(-8) Missing false;
    # A row is restored that was not remembered.
    0: 0c 07 08 90 01: 00 0b => StateEmpty(201)
    # 65 rows are remembered.
    6: 0c 07 08 90 01: 0a*65 => StateDepth(264)
    # An unknown opcode.
    6: 0c 07 08 90 01: 48 01 => Insn(Opcode(201, 1))
    # AMD64 has no sign state.
    6: 0c 07 08 90 01: 2d => Insn(Opcode(200, 45))
    # An offset without a register.
    6: : 00 0e 10 => NoCfaRegister(201)
";

/// The same on AArch64.
const AARCH64: &str = "
    # Signed rows.
    28: 0c 1f 00: 41 2d 41 0e 20 9d 04 9e 03 43 dd de 0e 00 41 2d => 0 31+0 Missing Missing Missing Missing false; 4 31+0 Missing Missing Missing Missing true; 8 31+32 Missing Offset(-32) Offset(-24) Missing true; 20 31+0 Missing Missing Missing Missing true; 24 31+0 Missing Missing Missing Missing false;
    # The common information entry's fault is the first.
    6: 0d 1d: 01 => NoCfaRegister(100)
    # An advance in the common information entry.
    6: 00 41: 01 => CieInstruction(101)
";

/// Fails unless the instructions have the rows, or the fault, that the table wants.
fn expect_rows(alloc: Global, arch: Arch, table: &str) -> Result<(), Fail> {
    for line in table.lines() {
        if let Some((given, wanted)) = row(line) {
            let (size, insns) = given.split_once(':').ok_or("a size")?;
            let (cie, fde) = insns.split_once(':').ok_or("two lists")?;
            let (cie, fde) = (bytes_of(alloc, cie)?, bytes_of(alloc, fde)?);
            let found = rows_of(alloc, arch, &cie, &fde, number(size)?)?;
            expect(line, texts_of(alloc, found)?.trim(), wanted)?;
        }
    }
    Ok(())
}

#[test]
fn rows_or_the_first_instruction_that_cannot_be_run(rt: HostRuntime) -> Result<(), Fail> {
    expect_rows(rt.alloc(), Arch::Amd64, AMD64)?;
    expect_rows(rt.alloc(), Arch::Aarch64, AARCH64)
}
