//! Lists of functions joined. What sections are merged into, and why they can't be, are cases in files.
ghost use Rattle.std.specs.Prelude.{◌≡◌, ◌<◌, ◌≤◌, ◌+◌};

use base_tests::tables::expect;
use sf_merge::join;
use sf_model::{Func, Key, Rows, Shape};
use std::alloc::Global;
use std::test::Fail;

/// Returns a function of 16 bytes without rows.
fn function(alloc: Global, start: u64) -> Func
    ensures start { result.start ≡ start }
    ensures size { result.size ≡ 16 }
{
    Func {
        start,
        size: 16,
        shape: Shape::Plain,
        key: Key::A,
        rows: Rows::new(alloc),
    }
}

/// Joins two lists: of the first and the last function, and of the one between.
fn joined(alloc: Global, first: Func, between: Func, last: Func) -> Result<Vec<Func>, Fail>
    requires first { 0 < first.size }
    requires between { 0 < between.size }
    requires last { 0 < last.size }
    requires before { first.start + first.size ≤ between.start }
    requires behind { between.start + between.size ≤ last.start }
{
    let mut part = Vec::new(alloc);
    part.push(first)?;
    part.push(last)?;
    let mut other = Vec::new(alloc);
    other.push(between)?;
    let mut parts = Vec::new(alloc);
    parts.push(part)?;
    parts.push(other)?;
    Ok(join(alloc, parts).ok().ok_or("memory")?)
}

#[test]
fn lists_are_joined_by_rising_start(rt: HostRuntime) -> Result<(), Fail> {
    let alloc = rt.alloc();
    let (first, between, last) = (
        function(alloc, 0x1000),
        function(alloc, 0x1010),
        function(alloc, 0x9000),
    );
    let mut starts = String::new(alloc);
    for func in joined(alloc, first, between, last)? {
        starts.push_str(&format!(in alloc; "{:x} ", func.start)?)?;
    }
    expect("starts", starts.as_str(), "1000 1010 9000 ")
}
