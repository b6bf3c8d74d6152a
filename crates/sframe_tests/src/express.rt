ghost use Rattle.std.specs.Prelude.{◌≡◌, false};

use crate::same::same;
use cfa_machine::{CfaRule, DwRow, Rule};
use sf_express::{ExpressFault, content, express};
use sf_model::{Arch, Base, Content, FdeFacts, Key, Omission, Ra, Reason, Row};
use std::test::Fail;

// A row of AMD64 that counts from the stack pointer, with the return address at -8.
fn amd64_row(start: u64, offset: i128, fp: Rule) -> DwRow
    ensures start { result.start ≡ start }
    ensures signed { result.signed ≡ false }
{
    DwRow {
        start,
        cfa: CfaRule::Reg {
            register: 7,
            offset,
        },
        sp: Rule::Missing,
        fp,
        ra: Rule::Offset(-8),
        sign: Rule::Missing,
        signed: false,
    }
}

// An unsigned row of AArch64 that counts from the stack pointer.
fn aarch64_row(fp: Rule, ra: Rule, sign: Rule) -> DwRow {
    DwRow {
        start: 0,
        cfa: CfaRule::Reg {
            register: 31,
            offset: 16,
        },
        sp: Rule::ValOffset(0),
        fp,
        ra,
        sign,
        signed: false,
    }
}

fn amd64_content(cfa: i32, fp: Option<i32>) -> Content {
    Content {
        base: Base::Sp,
        cfa,
        ra: Ra::Fixed,
        fp,
        signed: false,
    }
}

#[test]
fn contents_and_reasons_of_rows(rt: HostRuntime) {
    let saved = amd64_row(0, 2147483647, Rule::Offset(-128));
    let most = Ok(amd64_content(2147483647, Some(-128)));
    same(&rt, &content(Arch::Amd64, &saved), &most);
    let far = amd64_row(0, 2147483648, Rule::Missing);
    same(&rt, &content(Arch::Amd64, &far), &Err(Reason::CfaOffset));
    let moved = amd64_row(0, 8, Rule::Register(3));
    same(&rt, &content(Arch::Amd64, &moved), &Err(Reason::FpRule));
    let alone = aarch64_row(Rule::Offset(-32), Rule::Same, Rule::Undefined);
    same(
        &rt,
        &content(Arch::Aarch64, &alone),
        &Err(Reason::FpWithoutRa),
    );
    let sign = aarch64_row(Rule::Missing, Rule::Offset(-24), Rule::Undefined);
    same(&rt, &content(Arch::Aarch64, &sign), &Err(Reason::SignState));
}

fn facts(size: u64, column: u64, signal: bool) -> FdeFacts
    ensures { result.size ≡ size }
{
    FdeFacts {
        start: 0x1000,
        size,
        column,
        signal,
        key: Key::A,
    }
}

#[test]
fn rows_with_the_same_content_are_one(rt: HostRuntime) -> Result<(), Fail> {
    let rows = [
        amd64_row(0, 8, Rule::Missing),
        amd64_row(1, 8, Rule::Same),
        amd64_row(5, 16, Rule::Missing),
    ];
    let kept = express(rt.alloc(), Arch::Amd64, &facts(6, 16, false), &rows)?;
    let expected = [
        Row {
            start: 0,
            content: amd64_content(8, None),
        },
        Row {
            start: 5,
            content: amd64_content(16, None),
        },
    ];
    same(&rt, &kept.rows.as_slice(), &expected.as_slice());
    Ok(())
}

/// Returns the fault of an omitted function.
fn omits(reason: Reason, offset: Option<u32>) -> ExpressFault {
    ExpressFault::Omit(Omission { reason, offset })
}

#[test]
fn omissions(rt: HostRuntime) {
    let rows = [
        amd64_row(0, 8, Rule::Missing),
        amd64_row(4, 2147483648, Rule::Missing),
    ];
    let late = express(rt.alloc(), Arch::Amd64, &facts(6, 16, false), &rows).err();
    same(&rt, &late, &Some(omits(Reason::CfaOffset, Some(4))));
    let signal = express(rt.alloc(), Arch::Amd64, &facts(6, 16, true), &rows).err();
    same(&rt, &signal, &Some(omits(Reason::SignalFrame, None)));
    let empty = express(rt.alloc(), Arch::Amd64, &facts(0, 3, true), &[]).err();
    same(&rt, &empty, &Some(omits(Reason::EmptyRange, None)));
}
