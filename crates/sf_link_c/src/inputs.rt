//! Inputs of call frame information, as C has them.

ghost use Rattle.std.specs.Prelude.{◌≡◌, ◌↔◌, ◌<◌, ◌^◌, All, IfOk, IsTrue, length, map};
ghost use Rattle.sf_asm.specs.Functions.{object_of};
ghost use Rattle.sf_link_c.specs.Inputs.{AreFit, IsFit, form_by, object_of_input};

use sf_asm::{Input, InputBytes};
use sf_base::NoMemory;
use sf_model::{Arch, Form};
use std::alloc::Global;

/// The greatest number of inputs.
const MOST_INPUTS: usize = 512;

/// An input at its load address.
#[repr(C)]
#[derive(Clone, Copy)]
pub struct KiblawenInput<'a> {
    /// All its bytes.
    pub bytes: &'a [u8],
    /// The address at which it is loaded.
    pub base: u64,
    /// What its bytes are: 0 an ELF file, 1 a bare `.eh_frame` of AMD64, 2 one of AArch64.
    pub kind: u32,
}

// Returns what the bytes of an input are, by the header's number.
fn form_by(kind: u32) -> Form
    ensures { result ≡ form_by kind }
{
    match kind {
        0 => Form::Elf,
        1 => Form::Bare(Arch::Amd64),
        _ => Form::Bare(Arch::Aarch64),
    }
}

// Returns whether an input has a kind of the header's and fewer than 2^32 bytes.
fn is_fit(input: &KiblawenInput<'_>) -> bool
    ensures { IsTrue result ↔ IsFit input.now }
{
    input.kind <= 2 && input.bytes.len() <= 0xffff_ffff
}

// Returns whether each input is fit.
fn each_is_fit(inputs: &[KiblawenInput<'_>]) -> bool
    ensures { IsTrue result ↔ All IsFit inputs.now }
{
    for input in inputs {
        if !is_fit(input) {
            return false;
        }
    }
    true
}

/// Returns whether inputs can be linked at all.
pub fn are_fit(inputs: &[KiblawenInput<'_>]) -> bool
    ensures { IsTrue result ↔ AreFit inputs.now }
{
    !inputs.is_empty() && inputs.len() <= MOST_INPUTS && each_is_fit(inputs)
}

/// Returns inputs as they are linked. Their bytes are not copied.
///
/// # Errors
///
/// `NoMemory` where memory runs out.
pub fn inputs_of<'a>(
    alloc: Global,
    inputs: &[KiblawenInput<'a>],
) -> Result<Vec<Input<'a>>, NoMemory>
    requires { All IsFit inputs.now }
    ensures objects { IfOk result (λ all. map object_of all.items ≡ map object_of_input inputs.now) }
    ensures small { IfOk result (λ all. All (λ input. length (object_of input).bytes < 2 ^ 32) all.items) }
{
    let mut all = Vec::new(alloc);
    for input in inputs {
        all.push(Input {
            bytes: InputBytes::whole(form_by(input.kind), input.bytes),
            base: input.base,
        })?;
    }
    Ok(all)
}
