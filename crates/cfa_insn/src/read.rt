//! One instruction: its opcode and the operands that the table gives for it.

ghost use Rattle.std.specs.Prelude.{◌≡◌, ◌<◌, Some, length};
ghost use Rattle.std.specs.Option.{option_map};
ghost use Rattle.sf_bytes.specs.Cursor.{Reads, cursor};
ghost use Rattle.cfa_insn.specs.Instruction.{instruction};
ghost use Rattle.cfa_insn.specs.Table.{placed, block_at, extended_at, operands_at, instruction_at};
ghost use Rattle.cfa_insn.specs.Listing.{GivesFirst, listing};
ghost use Rattle.cfa_insn.specs.Frequent.{GivesByte, GivesShort};

use crate::fault::InsnFault;
use crate::insn::Insn;
use crate::opcodes::{
    DW_CFA_AARCH64_NEGATE_RA_STATE, DW_CFA_ADVANCE_LOC, DW_CFA_ADVANCE_LOC1, DW_CFA_ADVANCE_LOC2,
    DW_CFA_ADVANCE_LOC4, DW_CFA_DEF_CFA, DW_CFA_DEF_CFA_EXPRESSION, DW_CFA_DEF_CFA_OFFSET,
    DW_CFA_DEF_CFA_OFFSET_SF, DW_CFA_DEF_CFA_REGISTER, DW_CFA_DEF_CFA_SF, DW_CFA_EXPRESSION,
    DW_CFA_GNU_ARGS_SIZE, DW_CFA_NOP, DW_CFA_OFFSET, DW_CFA_OFFSET_EXTENDED,
    DW_CFA_OFFSET_EXTENDED_SF, DW_CFA_REGISTER, DW_CFA_REMEMBER_STATE, DW_CFA_RESTORE,
    DW_CFA_RESTORE_EXTENDED, DW_CFA_RESTORE_STATE, DW_CFA_SAME_VALUE, DW_CFA_UNDEFINED,
    DW_CFA_VAL_EXPRESSION, DW_CFA_VAL_OFFSET, DW_CFA_VAL_OFFSET_SF,
};
use sf_bytes::{ByteFault, Part};

// Reads a block: its length and that many bytes.
#[tactic(auto, unfolding(crate::specs::Table::block_at))]
#[inline(never)]
fn block<'a>(part: &mut Part<'a>) -> Result<&'a [u8], ByteFault>
    ensures { Reads (λ b. b.now) part.new result (block_at (cursor part.old)) }
{
    let len = part.uleb()?;
    let run = part.take(len)?;
    Ok(run.bytes)
}

// Reads the instruction of an opcode below `DW_CFA_ADVANCE_LOC`, or none for an opcode that the table doesn't
// have.
#[tactic(auto, unfolding(crate::specs::Table::extended_at))]
#[inline(always)]
fn extended<'a>(opcode: u8, part: &mut Part<'a>) -> Result<Option<Insn<'a>>, ByteFault>
    ensures { Reads (option_map instruction) part.new result (extended_at opcode (cursor part.old)) }
{
    match opcode {
        DW_CFA_NOP => Ok(Some(Insn::Nop)),
        DW_CFA_ADVANCE_LOC1 => Ok(Some(Insn::AdvanceLocN(u32::from(part.get_u8()?)))),
        DW_CFA_ADVANCE_LOC2 => Ok(Some(Insn::AdvanceLocN(u32::from(part.get_u16()?)))),
        DW_CFA_ADVANCE_LOC4 => Ok(Some(Insn::AdvanceLocN(part.get_u32()?))),
        DW_CFA_OFFSET_EXTENDED => Ok(Some(Insn::OffsetExtended(part.uleb()?, part.uleb()?))),
        DW_CFA_RESTORE_EXTENDED => Ok(Some(Insn::RestoreExtended(part.uleb()?))),
        DW_CFA_UNDEFINED => Ok(Some(Insn::Undefined(part.uleb()?))),
        DW_CFA_SAME_VALUE => Ok(Some(Insn::SameValue(part.uleb()?))),
        DW_CFA_REGISTER => Ok(Some(Insn::Register(part.uleb()?, part.uleb()?))),
        DW_CFA_REMEMBER_STATE => Ok(Some(Insn::RememberState)),
        DW_CFA_RESTORE_STATE => Ok(Some(Insn::RestoreState)),
        DW_CFA_DEF_CFA => Ok(Some(Insn::DefCfa(part.uleb()?, part.uleb()?))),
        DW_CFA_DEF_CFA_REGISTER => Ok(Some(Insn::DefCfaRegister(part.uleb()?))),
        DW_CFA_DEF_CFA_OFFSET => Ok(Some(Insn::DefCfaOffset(part.uleb()?))),
        DW_CFA_DEF_CFA_EXPRESSION => Ok(Some(Insn::DefCfaExpression(block(part)?))),
        DW_CFA_EXPRESSION => Ok(Some(Insn::Expression(part.uleb()?, block(part)?))),
        DW_CFA_OFFSET_EXTENDED_SF => Ok(Some(Insn::OffsetExtendedSf(part.uleb()?, part.sleb()?))),
        DW_CFA_DEF_CFA_SF => Ok(Some(Insn::DefCfaSf(part.uleb()?, part.sleb()?))),
        DW_CFA_DEF_CFA_OFFSET_SF => Ok(Some(Insn::DefCfaOffsetSf(part.sleb()?))),
        DW_CFA_VAL_OFFSET => Ok(Some(Insn::ValOffset(part.uleb()?, part.uleb()?))),
        DW_CFA_VAL_OFFSET_SF => Ok(Some(Insn::ValOffsetSf(part.uleb()?, part.sleb()?))),
        DW_CFA_VAL_EXPRESSION => Ok(Some(Insn::ValExpression(part.uleb()?, block(part)?))),
        DW_CFA_AARCH64_NEGATE_RA_STATE => Ok(Some(Insn::NegateRaState)),
        DW_CFA_GNU_ARGS_SIZE => Ok(Some(Insn::GnuArgsSize(part.uleb()?))),
        _ => Ok(None),
    }
}

// Reads the instruction of any opcode, or none for an opcode that the table doesn't have.
#[tactic(auto, unfolding(crate::specs::Table::operands_at))]
#[inline(always)]
fn operands<'a>(opcode: u8, part: &mut Part<'a>) -> Result<Option<Insn<'a>>, ByteFault>
    ensures { Reads (option_map instruction) part.new result (operands_at opcode (cursor part.old)) }
{
    if opcode < DW_CFA_ADVANCE_LOC {
        return extended(opcode, part);
    }
    if opcode < DW_CFA_OFFSET {
        return Ok(Some(Insn::AdvanceLoc(opcode % 64)));
    }
    if opcode < DW_CFA_RESTORE {
        return Ok(Some(Insn::Offset(opcode % 64, part.uleb()?)));
    }
    Ok(Some(Insn::Restore(opcode % 64)))
}

// Returns a fault of a field, at the instruction's place.
#[inline(always)]
fn placed_at(place: u64, fault: ByteFault) -> InsnFault
    ensures { result ≡ placed place fault }
{
    match fault {
        ByteFault::Short(_) => InsnFault::Short(place),
        ByteFault::Leb(_) => InsnFault::Leb(place),
    }
}

/// Reads the instruction at the front. On a fault nothing is claimed of what is left of the part.
#[tactic(auto, unfolding(crate::specs::Table::instruction_at))]
#[inline(always)]
pub fn instruction_of<'a>(part: &mut Part<'a>) -> Result<Insn<'a>, InsnFault>
    ensures { Reads instruction part.new result (instruction_at (cursor part.old)) }
{
    let place = part.place;
    let opcode = match part.get_u8() {
        Ok(opcode) => opcode,
        Err(fault) => return Err(placed_at(place, fault)),
    };
    match operands(opcode, part) {
        Ok(Some(insn)) => Ok(insn),
        Ok(None) => Err(InsnFault::Opcode(place, opcode)),
        Err(fault) => Err(placed_at(place, fault)),
    }
}

// Returns the first item of bytes that aren't empty, and the part after it, which is empty after a fault.
#[inline(always)]
fn item_of<'a>(part: Part<'a>) -> (Result<(u64, Insn<'a>), InsnFault>, Part<'a>)
    requires { 0 < length part.bytes.now }
    ensures { GivesFirst (Some result) (listing (cursor part.entry)) }
{
    let place = part.place;
    let mut rest = part;
    match instruction_of(&mut rest) {
        Ok(insn) => (Ok((place, insn)), rest),
        Err(fault) => {
            let (none, _) = part.bytes.split_at(0);
            (Err(fault), Part::new(none, place))
        }
    }
}

/// Returns the first item of a part and the part after it, which is empty after a fault. `None` at the end.
#[inline(always)]
pub fn first_of<'a>(part: Part<'a>) -> Option<(Result<(u64, Insn<'a>), InsnFault>, Part<'a>)>
    ensures { GivesFirst result (listing (cursor part.entry)) }
{
    if part.is_empty() {
        return None;
    }
    Some(item_of(part))
}

/// Returns the byte at the front, and the part after it. `None` at the end.
#[inline(always)]
pub fn first_byte<'a>(part: Part<'a>) -> Option<(u8, Part<'a>)>
    ensures { GivesByte result (cursor part.entry) }
{
    let (byte, rest) = part.bytes.split_first()?;
    Some((*byte, Part::new(rest, part.place + 1)))
}

/// Returns the unsigned LEB128 number of one byte at the front, and the part after it, or `None` if a longer
/// number or none is there.
#[inline(always)]
pub fn short_uleb<'a>(part: Part<'a>) -> Option<(u8, Part<'a>)>
    ensures { GivesShort result (cursor part.entry) }
{
    let (byte, rest) = first_byte(part)?;
    if byte >= 128 {
        return None;
    }
    Some((byte, rest))
}
