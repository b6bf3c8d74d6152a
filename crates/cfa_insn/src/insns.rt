//! The iterator over the instructions of one entry.

use crate::fault::InsnFault;
use crate::insn::Insn;
use crate::opcodes::{
    DW_CFA_ADVANCE_LOC, DW_CFA_DEF_CFA_OFFSET, DW_CFA_NOP, DW_CFA_OFFSET, DW_CFA_RESTORE,
};
use crate::read::{first_byte, first_of, short_uleb};
use sf_bytes::Part;

/// The instructions of a part with their places. The iterator ends after a fault.
#[derive(Clone, Copy)]
pub struct Insns<'a> {
    part: Part<'a>,
}

impl<'a> Insns<'a> {
    ghost use Rattle.std.specs.Prelude.{◌≡◌};
    ghost use Rattle.std.specs.Option.{option_map};
    ghost use Rattle.sf_bytes.specs.Cursor.{cursor};
    ghost use Rattle.cfa_insn.specs.Instruction.{advance_loc, def_cfa_offset, nop, offset};
    ghost use Rattle.cfa_insn.specs.Frequent.{advance_loc_front, def_cfa_offset_front, nop_front, offset_front};
    ghost use Rattle.cfa_insn.specs.Listing.{listing};
    ghost use Rattle.cfa_insn.specs.Remaining.{Takes, TakesIf, bytes_left, items_left, place_left};

    /// Creates the iterator over the instructions in the part's bytes.
    #[inline(always)]
    pub fn new(part: Part<'a>) -> Insns<'a>
        ensures { items_left result ≡ listing (cursor part.entry) }
    {
        Insns { part }
    }

    /// Takes a `DW_CFA_advance_loc`, and returns its advance. Returns `None` and takes nothing if another instruction
    /// is next.
    #[inline(always)]
    pub fn next_advance_loc(&mut self) -> Option<u8>
        ensures is { result ≡ advance_loc_front (bytes_left self.old) }
        ensures takes { Takes advance_loc self.old self.new result }
    {
        let (opcode, rest) = first_byte(self.part)?;
        if opcode < DW_CFA_ADVANCE_LOC || opcode >= DW_CFA_OFFSET {
            return None;
        }
        self.part = rest;
        Some(opcode % 64)
    }

    /// Takes a `DW_CFA_def_cfa_offset` with an operand of one byte, and returns its place and the offset in bytes.
    /// Returns `None` and takes nothing if another instruction or a longer operand is next.
    #[inline(always)]
    pub fn next_def_cfa_offset(&mut self) -> Option<(u64, u8)>
        ensures is { result ≡ option_map (λ n. (place_left self.old, n)) (def_cfa_offset_front (bytes_left self.old)) }
        ensures takes { Takes (λ x. def_cfa_offset x.1) self.old self.new result }
    {
        let place = self.part.place;
        let (opcode, operand) = first_byte(self.part)?;
        if opcode != DW_CFA_DEF_CFA_OFFSET {
            return None;
        }
        let (offset, rest) = short_uleb(operand)?;
        self.part = rest;
        Some((place, offset))
    }

    /// Takes a `DW_CFA_offset` with an operand of one byte, and returns the register and the factored offset. Returns
    /// `None` and takes nothing if another instruction or a longer operand is next.
    #[inline(always)]
    pub fn next_offset(&mut self) -> Option<(u8, u8)>
        ensures is { result ≡ offset_front (bytes_left self.old) }
        ensures takes { Takes (λ x. offset x.0 x.1) self.old self.new result }
    {
        let (opcode, operand) = first_byte(self.part)?;
        if opcode < DW_CFA_OFFSET || opcode >= DW_CFA_RESTORE {
            return None;
        }
        let (factored, rest) = short_uleb(operand)?;
        self.part = rest;
        Some((opcode % 64, factored))
    }

    /// Takes a `DW_CFA_nop`, and returns whether it did. Takes nothing if another instruction is next.
    #[inline(always)]
    pub fn next_nop(&mut self) -> bool
        ensures is { result ≡ nop_front (bytes_left self.old) }
        ensures takes { TakesIf nop self.old self.new result }
    {
        match first_byte(self.part) {
            Some((DW_CFA_NOP, rest)) => {
                self.part = rest;
                true
            }
            _ => false,
        }
    }
}

impl<'a> Iterator for Insns<'a> {
    ghost use Rattle.std.specs.Iterator.{YieldsFirstBy, item_count};
    ghost use Rattle.cfa_insn.specs.Listing.{item};
    ghost use Rattle.cfa_insn.specs.Remaining.{items_left};

    type Item = Result<(u64, Insn<'a>), InsnFault>;

    ghost next_gives = { YieldsFirstBy item items_left };

    ghost remaining = { item_count items_left };

    #[inline(always)]
    fn next(&mut self) -> Option<Result<(u64, Insn<'a>), InsnFault>> {
        let (item, rest) = first_of(self.part)?;
        self.part = rest;
        Some(item)
    }
}
