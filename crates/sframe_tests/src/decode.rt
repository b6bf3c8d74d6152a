//! What is wrong with a section once some of its bytes are others. What a section says is a case in files, and so is each of its fronts.
use crate::same::same;
use crate::samples::{FALLING, PUSHING};
use base_tests::tables::{number, prints, put, row};
use sf_decode::{LentSection, OwnedSection, View};
use std::alloc::Global;
use std::test::*;

/// Fails unless a section has as many functions, or the first fault, as the table wants where the bytes of each row are written into it. Its
/// address is the one before them, or this one.
fn expect_counts(alloc: Global, section: &[u8], at: &str, table: &str) -> Result<(), Fail> {
    for line in table.lines() {
        if let Some((given, wanted)) = row(line) {
            let (at, edits) = given.split_once(':').unwrap_or((at, given));
            let mut bytes = section.to_vec(alloc)?;
            put(&mut bytes, edits)?;
            let count = View::parse(&bytes, number(at)?).map(|view| view.len());
            prints(alloc, line, &count, wanted)?;
        }
    }
    Ok(())
}

/// What the bytes of `PUSHING` are changed to, and how many functions it has then or its first fault.
const FAULTS: &str = "
    => Ok(1)
    @0 00 => Err(Magic(0))
    @1 00 => Err(Magic(0))
    @2 01 => Err(Version(2))
    @3 0d => Err(Flags(3))
    @3 07 => Ok(1)
    @4 01 => Err(Abi(4))
    @5 01 => Err(FixedOffset(5))
    @6 00 => Err(FixedOffset(6))
    @4 02 => Err(FixedOffset(6))
    @7 24 => Err(Short(63))
    @7 23 => Err(Layout(20))
    # The limits come before the layout.
    @8 01 @10 20 => Err(TooManyFunctions(8))
    @8 00 @10 20 => Err(Layout(20))
    @12 01 @15 01 => Err(TooManyRows(12))
    @12 00 @15 01 => Err(Count(12))
    @20 10 => Err(Layout(20))
    @24 15 => Err(Layout(24))
    @16 10 => Err(Layout(24))
    @12 05 => Err(Count(12))
    @40 03 => Err(Count(12))
    # The entry: its width, its bits, its key, its repeat size, its start.
    @44 03 => Err(RowType(28))
    @44 cf => Err(RowType(28))
    @44 40 => Err(Reserved(28))
    @44 80 => Err(Reserved(28))
    @44 20 => Err(Reserved(28))
    @44 50 => Err(Reserved(28))
    @44 10 => Err(RepeatZero(28))
    @44 10 01 => Ok(1)
    @28 00 00 00 80 => Err(AddressRange(28))
    @31 80 @44 10 => Err(RepeatZero(28))
    @45 09 09 09 => Ok(1)
    # The rows: where they lie, the width before the number, bit 7, the order.
    @36 0e => Err(Layout(62))
    @36 ff @39 ff => Err(Layout(4278190383))
    @49 63 => Err(OffsetSize(48))
    @49 60 => Err(OffsetSize(48))
    @49 01 => Err(OffsetCount(48))
    @49 07 => Err(OffsetCount(48))
    @49 81 => Err(OffsetCount(48))
    @60 25 => Err(Layout(59))
    @60 a5 => Err(Layout(59))
    @49 83 => Err(Reserved(48))
    @51 00 85 => Err(Reserved(51))
    @51 00 => Err(RowOrder(51))
    @55 01 => Err(RowOrder(55))
    @59 04 => Err(RowOrder(59))
    # Where an entry's rows begin isn't looked at where it has none.
    @12 00 @40 00 @36 ff => Ok(1)
";

#[test]
fn the_first_fault_is_named(rt: HostRuntime) -> Result<(), Fail> {
    expect_counts(rt.alloc(), &PUSHING, "0x3000", FAULTS)
}

/// The same of `FALLING`.
const SORTED: &str = "
    => Ok(2)
    @3 01 => Err(Unsorted(48))
    @3 05 => Err(Unsorted(48))
    @3 01 @49 01 => Err(Overlap(48))
    @3 01 @48 0f 01 => Err(Overlap(48))
    @3 01 @48 10 01 => Ok(2)
    # A function of size 0 inside another one, and at its end.
    @3 01 @48 05 01 @52 00 => Err(Overlap(48))
    @3 01 @48 10 01 @52 00 => Ok(2)
";

#[test]
fn sorted_functions_are_apart(rt: HostRuntime) -> Result<(), Fail> {
    expect_counts(rt.alloc(), &FALLING, "0x3000", SORTED)
}

/// The same of `PUSHING` at these addresses.
const ADDRESSES: &str = "
    # A start that counts from the field, whose own address passes the last one at the end.
    0x2000: => Ok(1)
    0x1fff: => Err(AddressRange(28))
    0xffffffffffffffff: => Ok(1)
    # One that counts from the section.
    0: @3 01 @28 00 00 00 00 => Ok(1)
    0xfffffffffffffffa: @3 01 @28 00 00 00 00 => Ok(1)
    0xfffffffffffffffb: @3 01 @28 00 00 00 00 => Err(AddressRange(28))
    # One byte after the section.
    0xfffffffffffffffe: @3 01 @28 01 00 00 00 00 => Ok(1)
    0xffffffffffffffff: @3 01 @28 01 00 00 00 00 => Err(AddressRange(28))
";

#[test]
fn starts_are_addresses(rt: HostRuntime) -> Result<(), Fail> {
    expect_counts(rt.alloc(), &PUSHING, "0x3000", ADDRESSES)
}

#[test]
fn kept_sections_lend_their_view(rt: HostRuntime) -> Result<(), Fail> {
    let bytes = PUSHING.to_vec(rt.alloc())?;
    let owned = OwnedSection::parse(bytes, 0x3000).ok().ok_or("a section")?;
    same(&rt, &owned.view().len(), &1);
    same(&rt, &owned.into_bytes().len(), &63);
    let lent = LentSection::open(&PUSHING, 0x3000).ok().ok_or("a section")?;
    same(&rt, &lent.view().map(|view| view.len()), &Some(1));
    same(&rt, &LentSection::closed().view().is_none(), &true);
    let fault = LentSection::open(&PUSHING, 0x1fff)
        .err()
        .ok_or("no section")?;
    same(&rt, &(fault.number(), fault.place()), &(17, 28));
    Ok(())
}
