ghost use Rattle.std.specs.Prelude.{[]};

use crate::same::same;
use sf_model::{Arch, Base, Content, Key, Memory, Ra, Recovered, Regs, Row, Rows, fits, recover};
use std::test::Fail;

/// A memory that holds nothing.
pub struct Empty;

impl Memory for Empty {
    ghost regions = { λ _. [] };

    #[tactic(auto, using(sf_model::proofs::Recoveries::read_nowhere))]
    fn read8(&self, _address: u64) -> Option<u64> {
        None
    }
}

#[test]
fn rows_are_appended(rt: HostRuntime) -> Result<(), Fail> {
    let content = Content {
        base: Base::Sp,
        cfa: 8,
        ra: Ra::Fixed,
        fp: None,
        signed: false,
    };
    let mut rows = Rows::new(rt.alloc());
    rows.push(Row { start: 0, content })?;
    rows.push(Row { start: 4, content })?;
    same(&rt, &rows.as_slice().len(), &2);
    let fit = (fits(Arch::Amd64, &content), fits(Arch::Aarch64, &content));
    same(&rt, &fit, &(true, false));
    Ok(())
}

#[test]
fn values_are_recovered_or_unreadable(rt: HostRuntime) -> Result<(), Fail> {
    let regs = Regs {
        sp: 0x9000,
        fp: 0x7000,
        lr: 0x1014,
    };
    let pushed = Content {
        base: Base::Sp,
        cfa: 8,
        ra: Ra::Fixed,
        fp: None,
        signed: false,
    };
    let leaf = Content {
        base: Base::Fp,
        cfa: -16,
        ra: Ra::Link,
        fp: None,
        signed: true,
    };
    let saved = Recovered {
        cfa: 0x9008,
        ra: None,
        fp: Some(0x7000),
        signed: None,
    };
    let linked = Recovered {
        cfa: 0x6ff0,
        ra: Some(0x1014),
        fp: Some(0x7000),
        signed: Some(Key::B),
    };
    same(
        &rt,
        &recover(Arch::Amd64, &pushed, Key::A, &regs, &Empty),
        &saved,
    );
    same(
        &rt,
        &recover(Arch::Aarch64, &leaf, Key::B, &regs, &Empty),
        &linked,
    );
    Ok(())
}
