//! The section `.eh_frame` (LSB).

ghost use Rattle.std.specs.Prelude.{◌≡◌, ◌≤◌, ◌++◌, OnOk};
ghost use Rattle.sf_gen.specs.Frames as spec;

use crate::kinds::{instructions_of, kind_of, next};
use crate::layout::{
    CIE_LEN, DW_CFA_DEF_CFA, DW_CFA_OFFSET, DW_EH_PE_PCREL, DW_EH_PE_SDATA4, FDE_LEN, FUNCTION_LEN,
    REGISTER_RSP, RETURN_ADDRESS, WORD_LEN,
};
use crate::number::push_word;
use std::alloc::AllocError;

/// Appends the section for `n` functions.
pub(crate) fn push_eh_frame(bytes: &mut Vec<u8>, n: u32) -> Result<(), AllocError>
    requires { n ≤ 100000 }
    ensures { OnOk result (bytes.new.items ≡ bytes.old.items ++ spec.eh_frame n) }
{
    push_cie(bytes)?;
    let mut state = n;
    for i in 0..n {
        let after = next(state);
        push_fde(bytes, i, kind_of(after))?;
        state = after;
    }
    Ok(())
}

/// Appends the common information entry.
#[tactic(auto, unfolding(crate::specs::Frames::cie))]
fn push_cie(bytes: &mut Vec<u8>) -> Result<(), AllocError>
    ensures { OnOk result (bytes.new.items ≡ bytes.old.items ++ spec.cie) }
{
    push_word(bytes, CIE_LEN - WORD_LEN)?;
    push_word(bytes, 0)?;
    bytes.extend_from_slice(&[
        1,
        b'z',
        b'R',
        0,
        1,
        0x78,
        RETURN_ADDRESS,
        1,
        DW_EH_PE_PCREL | DW_EH_PE_SDATA4,
        DW_CFA_DEF_CFA,
        REGISTER_RSP,
        8,
        DW_CFA_OFFSET + RETURN_ADDRESS,
        1,
        0,
        0,
    ])
}

/// Appends the frame description entry of function `i`.
#[tactic(auto, unfolding(crate::specs::Frames::fde))]
fn push_fde(bytes: &mut Vec<u8>, i: u32, kind: u32) -> Result<(), AllocError>
    requires { i ≤ 100000 }
    ensures { OnOk result (bytes.new.items ≡ bytes.old.items ++ spec.fde i kind) }
{
    push_word(bytes, FDE_LEN - WORD_LEN)?;
    push_word(bytes, CIE_LEN + WORD_LEN + FDE_LEN * i)?;
    push_word(bytes, 0)?;
    push_word(bytes, FUNCTION_LEN)?;
    bytes.push(0)?;
    bytes.extend_from_slice(&instructions_of(kind))
}
