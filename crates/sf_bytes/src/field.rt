//! Pointer fields and their values after relocation.

ghost use Rattle.std.specs.Prelude.{◌≡◌, ◌<◌, ◌^◌, ℕ, Option, Some, IfSome, IsTrue};
ghost use Rattle.sf_bytes.specs.Field.{is_field_width};

/// A field that holds a pointer: its place in bytes, its width in bytes (2, 4 or 8), and the number in it.
#[derive(Clone, Copy, PartialEq, Eq)]
pub struct Field {
    pub place: u64,
    pub width: u8,
    pub raw: u64,
    ghost wide: { IsTrue (is_field_width width) },
    ghost fits: { raw < 256 ^ width },
}

/// The values of pointer fields after relocations were applied.
pub trait Values {
    /// The bits of the field at a place, of a width, that holds a raw number.
    ghost field_bits: { Self → ℕ → ℕ → ℕ → Option ℕ };

    /// Returns the field's bits, or `None` if its relocation can't be resolved.
    fn bits(&self, field: Field) -> Option<u64>
        ensures value { result ≡ field_bits self.now field.place field.width field.raw }
        ensures fits { IfSome result (λ bits. bits < 256 ^ field.width) };
}

/// Fields as they are in the file, with no relocation.
#[derive(Clone, Copy)]
pub struct Plain;

impl Values for Plain {
    ghost field_bits = { λ _ _ _ raw. Some raw };

    fn bits(&self, field: Field) -> Option<u64> {
        Some(field.raw)
    }
}
