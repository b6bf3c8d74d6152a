//! What is linked.

ghost use Rattle.std.specs.Prelude.{◌≡◌};
ghost use Rattle.sf_asm.specs.Functions.{bytes_of, form_of};

use elf_read::LinkedElf;
use sf_model::{Arch, Form};

/// The bytes of an input.
#[derive(Clone, Copy)]
pub enum InputBytes<'a> {
    /// All the bytes of a bare `.eh_frame` section of this machine.
    Section(Arch, &'a [u8]),
    /// All the bytes of an ELF file.
    File(&'a [u8]),
    /// An executable or a shared object that was checked by its parts.
    Linked(&'a LinkedElf),
}

/// An input at its load address.
#[derive(Clone, Copy)]
pub struct Input<'a> {
    /// Its bytes.
    pub bytes: InputBytes<'a>,
    /// The address at which it is loaded: that of a bare section's first byte, of an object's first section,
    /// and what is added to the addresses of another file.
    pub base: u64,
}

impl<'a> InputBytes<'a> {
    /// Takes these as all the bytes of an input of this form.
    pub fn whole(form: Form, bytes: &'a [u8]) -> InputBytes<'a>
        ensures form { form_of result ≡ form }
        ensures bytes { bytes_of result ≡ bytes.now }
    {
        match form {
            Form::Bare(arch) => InputBytes::Section(arch, bytes),
            Form::Elf => InputBytes::File(bytes),
        }
    }
}
