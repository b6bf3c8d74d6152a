//! The instructions of a plain lazy procedure linkage table.

ghost use Rattle.std.specs.Prelude.{◌≡◌};
ghost use Rattle.sf_bytes.specs.Cursor.{cursor};
ghost use Rattle.cfa_insn.specs.Instruction.{instruction};
ghost use Rattle.cfa_insn.specs.Listing.{listing};
ghost use Rattle.sf_plt.specs.Plt as plt;
ghost use Rattle.sf_plt.specs.Text as text;

use cfa_insn::{Insn, Insns};
use sf_bytes::Part;

/// The expression of such a table: `DW_OP_breg7 8, DW_OP_breg16 0, DW_OP_lit15, DW_OP_and, DW_OP_lit11, DW_OP_ge,
/// DW_OP_lit3, DW_OP_shl, DW_OP_plus`.
const PLT_EXPRESSION: [u8; 11] = [
    0x77, 0x08, 0x80, 0x00, 0x3f, 0x1a, 0x3b, 0x2a, 0x33, 0x24, 0x22,
];

/// The number of instructions of a plain lazy procedure linkage table, `DW_CFA_nop` not counted.
const TEXT_LEN: usize = 5;

/// Returns whether an instruction is `DW_CFA_nop`.
fn is_nop(insn: Insn<'_>) -> bool
    ensures { result ≡ text.is_nop_instruction (instruction insn.entry) }
{
    match insn {
        Insn::Nop => true,
        _ => false,
    }
}

/// Returns whether an instruction is `DW_CFA_def_cfa_offset` with this offset.
fn is_cfa_offset(offset: u64, insn: Insn<'_>) -> bool
    ensures { result ≡ text.is_cfa_offset offset (instruction insn.entry) }
{
    match insn {
        Insn::DefCfaOffset(n) => n == offset,
        _ => false,
    }
}

/// Returns whether an instruction is `DW_CFA_advance_loc` with this delta.
fn is_advance(delta: u8, insn: Insn<'_>) -> bool
    ensures { result ≡ text.is_advance delta (instruction insn.entry) }
{
    match insn {
        Insn::AdvanceLoc(n) => n == delta,
        _ => false,
    }
}

/// Returns whether an instruction is `DW_CFA_def_cfa_expression` with the expression of such a table.
fn is_expression(insn: Insn<'_>) -> bool
    ensures { result ≡ text.is_expression (instruction insn.entry) }
{
    match insn {
        Insn::DefCfaExpression(bytes) => bytes == PLT_EXPRESSION.as_slice(),
        _ => false,
    }
}

/// Returns whether an instruction is that of the text at a place.
fn is_at(place: usize, insn: Insn<'_>) -> bool
    ensures { result ≡ text.is_text_at place (instruction insn.entry) }
{
    match place {
        0 => is_cfa_offset(16, insn),
        1 => is_advance(6, insn),
        2 => is_cfa_offset(24, insn),
        3 => is_advance(10, insn),
        4 => is_expression(insn),
        _ => false,
    }
}

/// Returns whether the instructions, without `DW_CFA_nop`, are those of the text, one by one.
fn follows(own: Part<'_>) -> bool
    ensures { result ≡ text.follows 0 (plt.without_nops (listing (cursor own.entry))) }
{
    let mut place = 0;
    for item in Insns::new(own) {
        let insn = match item {
            Ok((_, insn)) => insn,
            Err(_) => return false,
        };
        if is_nop(insn) {
            continue;
        }
        if !is_at(place, insn) {
            return false;
        }
        place += 1;
    }
    place == TEXT_LEN
}

/// Returns whether the instructions, without `DW_CFA_nop`, are those of a plain lazy procedure linkage table.
pub fn is_plt_text(own: Part<'_>) -> bool
    ensures { result ≡ plt.is_plt_text (plt.without_nops (listing (cursor own.entry))) }
{
    follows(own)
}
