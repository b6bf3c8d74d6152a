//! The DWARF numbers of the registers that a row keeps (System V AMD64 psABI, figure 3.36; DWARF for the
//! Arm 64-bit Architecture, section 4.1).

ghost use Rattle.std.specs.Prelude.{◌≡◌};
ghost use Rattle.cfa_machine.specs.Registers.{stack_pointer, frame_pointer, return_address, is_sign_state};

use sf_model::Arch;

/// Returns the number of the stack pointer: rsp, or sp.
#[inline(always)]
pub fn stack_pointer_of(arch: Arch) -> u64
    ensures { result ≡ stack_pointer arch }
{
    match arch {
        Arch::Amd64 => 7,
        Arch::Aarch64 => 31,
    }
}

/// Returns the number of the frame pointer: rbp, or x29.
#[inline(always)]
pub fn frame_pointer_of(arch: Arch) -> u64
    ensures { result ≡ frame_pointer arch }
{
    match arch {
        Arch::Amd64 => 6,
        Arch::Aarch64 => 29,
    }
}

/// Returns the number of the return address: the return column 16, or x30.
#[inline(always)]
pub fn return_address_of(arch: Arch) -> u64
    ensures { result ≡ return_address arch }
{
    match arch {
        Arch::Amd64 => 16,
        Arch::Aarch64 => 30,
    }
}

/// Returns whether this is the register of the sign state, which AArch64 alone has.
#[inline(always)]
pub fn is_sign_state_of(arch: Arch, register: u64) -> bool
    ensures { result ≡ is_sign_state arch register }
{
    match arch {
        Arch::Amd64 => false,
        Arch::Aarch64 => register == 34,
    }
}
