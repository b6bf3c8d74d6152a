//! The kinds of the made functions.

ghost use Rattle.std.specs.Prelude.{◌≡◌, ◌<◌, ◌^◌};
ghost use Rattle.sf_gen.specs.Pattern as spec;
ghost use Rattle.sf_gen.specs.Instruction.{filled, instructions};

use crate::layout::{
    DW_CFA_ADVANCE_LOC, DW_CFA_DEF_CFA, DW_CFA_DEF_CFA_OFFSET, DW_CFA_DEF_CFA_REGISTER,
    DW_CFA_OFFSET, INSTRUCTIONS_LEN, REGISTER_R10, REGISTER_RBP, REGISTER_RSP,
};

/// Returns the generator's next state (ISO C, the example of `rand`).
#[tactic(auto, unfolding(crate::specs::Pattern::next))]
pub(crate) fn next(state: u32) -> u32
    requires { state < 2 ^ 31 }
    ensures value { result ≡ spec.next state }
    ensures below { result < 2 ^ 31 }
{
    ((u64::from(state) * 1_103_515_245 + 12_345) % (1 << 31)) as u32
}

/// Returns the kind that a state of the generator picks.
#[tactic(auto, unfolding(crate::specs::Pattern::state_kind))]
pub(crate) fn kind_of(state: u32) -> u32
    ensures value { result ≡ spec.state_kind state }
    ensures most { result < 4 }
{
    state / 0x1_0000 % 4
}

/// `rbp` is saved and becomes the frame's base; the last byte of the function returns.
const FRAME_POINTER: [u8; INSTRUCTIONS_LEN] = [
    DW_CFA_ADVANCE_LOC + 1,
    DW_CFA_DEF_CFA_OFFSET,
    16,
    DW_CFA_OFFSET + REGISTER_RBP,
    2,
    DW_CFA_ADVANCE_LOC + 3,
    DW_CFA_DEF_CFA_REGISTER,
    REGISTER_RBP,
    DW_CFA_ADVANCE_LOC + 27,
    DW_CFA_DEF_CFA,
    REGISTER_RSP,
    8,
    0,
    0,
    0,
];

/// The stack pointer moves by 40 and back.
const LOCALS: [u8; INSTRUCTIONS_LEN] = [
    DW_CFA_ADVANCE_LOC + 4,
    DW_CFA_DEF_CFA_OFFSET,
    48,
    DW_CFA_ADVANCE_LOC + 27,
    DW_CFA_DEF_CFA_OFFSET,
    8,
    0,
    0,
    0,
    0,
    0,
    0,
    0,
    0,
    0,
];

/// The frame's base is `r10`. SFrame has no row by that base.
const OTHER_REGISTER: [u8; INSTRUCTIONS_LEN] = [
    DW_CFA_ADVANCE_LOC + 5,
    DW_CFA_DEF_CFA,
    REGISTER_R10,
    0,
    0,
    0,
    0,
    0,
    0,
    0,
    0,
    0,
    0,
    0,
    0,
];

/// Returns the instructions of a function of this kind, with DW_CFA_nop after them.
pub(crate) fn instructions_of(kind: u32) -> [u8; INSTRUCTIONS_LEN]
    ensures { result ≡ filled 15 (instructions kind) }
{
    match kind {
        0 => [0; INSTRUCTIONS_LEN],
        1 => FRAME_POINTER,
        2 => LOCALS,
        _ => OTHER_REGISTER,
    }
}
