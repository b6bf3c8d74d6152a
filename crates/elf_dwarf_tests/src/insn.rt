use crate::same::same;
use base_tests::tables::{bytes_of, expect, row};
use cfa_insn::{Insn, InsnFault, Insns};
use sf_bytes::Part;
use std::alloc::Global;
use std::test::Fail;

// Returns an item of the iterator as a place, a kind and its operands.
fn shown(item: Result<(u64, Insn<'_>), InsnFault>) -> (u64, &'static str, u64, i64) {
    match item {
        Ok((place, Insn::AdvanceLoc(n))) => (place, "advance_loc", u64::from(n), 0),
        Ok((place, Insn::Offset(r, n))) => (place, "offset", n, i64::from(r)),
        Ok((place, Insn::Restore(r))) => (place, "restore", u64::from(r), 0),
        Ok((place, Insn::AdvanceLocN(n))) => (place, "advance_loc_n", u64::from(n), 0),
        Ok((place, Insn::DefCfaOffset(n))) => (place, "def_cfa_offset", n, 0),
        Ok((place, Insn::DefCfaSf(r, n))) => (place, "def_cfa_sf", r, n),
        Ok((place, Insn::ValExpression(r, block))) => {
            (place, "val_expression", r, block.len() as i64)
        }
        Ok((place, Insn::NegateRaState)) => (place, "negate_ra_state", 0, 0),
        Ok((place, Insn::Nop)) => (place, "nop", 0, 0),
        Ok((place, _)) => (place, "other", 0, 0),
        Err(InsnFault::Opcode(place, opcode)) => (place, "opcode", u64::from(opcode), 0),
        Err(InsnFault::Short(place)) => (place, "short", 0, 0),
        Err(InsnFault::Leb(place)) => (place, "leb", 0, 0),
    }
}

/// Returns the instructions in bytes at 100, up to their end or to the first that can't be read.
fn listed(alloc: Global, bytes: &[u8]) -> Result<String, Fail> {
    if bytes.len() >= 100 {
        return Err("a list is short")?;
    }
    let mut text = String::new(alloc);
    for item in Insns::new(Part::new(bytes, 100)) {
        text.push_str(&format!(in alloc; "{:?} ", shown(item))?)?;
    }
    Ok(text)
}

/// Bytes, and the instructions in them.
const CASES: &str = r#"
    =>
    # A signed frame that saves x29 and x30 and restores both.
    41 2d 0e 20 9d 04 de 00 => (100, "advance_loc", 1, 0) (101, "negate_ra_state", 0, 0) (102, "def_cfa_offset", 32, 0) (104, "offset", 4, 29) (106, "restore", 30, 0) (107, "nop", 0, 0)
    # Advances of two and four bytes, a signed operand, a block.
    03 00 01 04 ff ff ff ff 12 07 7f 16 03 02 80 01 => (100, "advance_loc_n", 256, 0) (103, "advance_loc_n", 4294967295, 0) (108, "def_cfa_sf", 7, -1) (111, "val_expression", 3, 2)
    # The first instruction that can't be read ends the list.
    00 01 00 => (100, "nop", 0, 0) (101, "opcode", 1, 0)
    0c 07 => (100, "short", 0, 0)
    0f 03 00 => (100, "short", 0, 0)
    00 0e 80*10 => (100, "nop", 0, 0) (101, "leb", 0, 0)
"#;

#[test]
fn lists_instructions_up_to_the_end_or_the_first_fault(rt: HostRuntime) -> Result<(), Fail> {
    for line in CASES.lines() {
        if let Some((given, wanted)) = row(line) {
            let bytes = bytes_of(rt.alloc(), given)?;
            expect(line, listed(rt.alloc(), &bytes)?.trim(), wanted)?;
        }
    }
    Ok(())
}

const FREQUENT: [u8; 14] = [
    0x7f, 0x0e, 0x7f, 0xbf, 0x02, 0x00, 0xc0, 0x0e, 0x90, 0x01, 0x86, 0x82, 0x00, 0x0e,
];

/// Returns which of the frequent instructions is taken, if any is.
fn taken(insns: &mut Insns<'_>) -> [bool; 4] {
    [
        insns.next_advance_loc().is_some(),
        insns.next_def_cfa_offset().is_some(),
        insns.next_offset().is_some(),
        insns.next_nop(),
    ]
}

/// What is left of `FREQUENT` after the first four.
const OTHERS: [(u64, &str, u64, i64); 5] = [
    (106, "restore", 0, 0),
    (107, "def_cfa_offset", 144, 0),
    (110, "offset", 2, 6),
    (113, "short", 0, 0),
    (0, "none", 0, 0),
];

#[test]
fn takes_a_frequent_instruction_or_nothing(rt: HostRuntime) {
    let mut insns = Insns::new(Part::new(&FREQUENT, 100));
    let others = (
        insns.next_def_cfa_offset(),
        insns.next_offset(),
        insns.next_nop(),
    );
    same(&rt, &others, &(None, None, false));
    let advances = (insns.next_advance_loc(), insns.next_advance_loc());
    same(&rt, &advances, &(Some(63), None));
    let rest = (
        insns.next_def_cfa_offset(),
        insns.next_offset(),
        insns.next_nop(),
    );
    same(&rt, &rest, &(Some((101, 127)), Some((63, 2)), true));
    // Any other is left for `next`, also where an operand has two bytes.
    for item in &OTHERS {
        same(&rt, &taken(&mut insns), &[false; 4]);
        let found = insns.next().map_or((0, "none", 0, 0), shown);
        same(&rt, &found, item);
    }
}
