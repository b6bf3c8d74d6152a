//! What a found row recovers, and how many starts a search reads. Which row is found is a case in files.
ghost use Rattle.std.specs.Prelude.{◌≡◌, ◌+◌, ◌<◌, ◌≤◌, [], length};
ghost use Rattle.sf_lookup.specs.Starts.{NeverFall};

use crate::model::Empty;
use crate::same::same;
use crate::samples::PUSHING;
use base_tests::tables::{number, prints, row};
use sf_decode::View;
use sf_lookup::{Starts, Steps, last_start, recover_at, starts_never_fall};
use sf_model::{Memory, Recovered, Regs};
use std::marker::Brand;
use std::sync::ledger::{Blank, Ledger};
use std::test::Fail;

// Three functions by rising start that share a row: at 0x3000, without bytes at 0x3010, and at 0x3010.
const THREE: [u8; 91] = *b"\
    \xe2\xde\x02\x01\x03\x00\xf8\x00\x03\x00\x00\x00\x03\x00\x00\x00\x03\x00\x00\x00\x00\x00\x00\x00\
    \x3c\x00\x00\x00\x00\x00\x00\x00\x10\x00\x00\x00\x00\x00\x00\x00\x01\x00\x00\x00\x00\x00\x00\x00\
    \x10\x00\x00\x00\x00\x00\x00\x00\x00\x00\x00\x00\x01\x00\x00\x00\x00\x00\x00\x00\
    \x10\x00\x00\x00\x20\x00\x00\x00\x00\x00\x00\x00\x01\x00\x00\x00\x00\x00\x00\x00\x00\x03\x08\
";

#[test]
fn a_found_row_is_recovered_by(rt: HostRuntime) -> Result<(), Fail> {
    let regs = Regs {
        sp: 0x9000,
        fp: 0x7000,
        lr: 0,
    };
    let entered = Recovered {
        cfa: 0x9008,
        ra: None,
        fp: Some(0x7000),
        signed: None,
    };
    let view = View::parse(&PUSHING, 0x3000).ok().ok_or("a section")?;
    same(
        &rt,
        &recover_at(&view, 0x1000, &regs, &Empty),
        &Some(entered),
    );
    same(&rt, &recover_at(&view, 0x1006, &regs, &Empty), &None);
    Ok(())
}

/// Of three starts at most two are read.
#[tactic(auto, using(crate::proofs::Worked::two_of_three))]
fn last_of_three<L: Ledger, S: Starts<L>>(starts: &S, pc: u64, steps: &mut Steps<L>) -> Option<u32>
    requires sorted { NeverFall (S.starts starts.now) }
    requires three { length (S.starts starts.now) ≡ 3 }
    ensures { steps.new ≤ steps.old + 2 }
{
    last_start(starts, pc, steps)
}

/// The number of the last of three functions that starts at the address or before; none in another section.
fn last_function<L: Ledger>(view: &View<'_>, pc: u64, blank: Blank) -> Option<u32>
    requires name { blank.name ≡ L.name }
    requires parts { blank.parts ≡ L.parts }
    requires some { 0 < blank.parts }
{
    if view.flags() % 2 != 1 || view.len() != 3 {
        return None;
    }
    starts_never_fall(view);
    last_of_three(view, pc, &mut Steps::<L>::new(blank))
}

/// The same, with a count of steps that is dropped.
fn last_at(view: &View<'_>, pc: u64) -> Option<u32> {
    last_function::<Brand>(view, pc, Blank::new(1))
}

/// An address, and the number of the last function that starts there or before.
const LAST: &str = "
    0 => None
    0x2fff => None
    0x3000 => Some(0)
    0x300f => Some(0)
    0x3010 => Some(2)
    0xffffffffffffffff => Some(2)
";

#[test]
fn the_last_start_is_found(rt: HostRuntime) -> Result<(), Fail> {
    let view = View::parse(&THREE, 0x3000).ok().ok_or("a section")?;
    for line in LAST.lines() {
        if let Some((pc, wanted)) = row(line) {
            prints(rt.alloc(), line, &last_at(&view, number(pc)?), wanted)?;
        }
    }
    Ok(())
}
