//! A function's start and size.

ghost use Rattle.std.specs.Prelude.{◌≡◌, ◌≤◌, ◌+◌, ◌^◌, IfOk};
ghost use Rattle.eh_records.specs.Span.{span_of};

use crate::fault::RecordFault;
use crate::fde::Fde;
use eh_pointer::{size, value};
use sf_bytes::Values;

impl Fde<'_> {
    /// Returns the function's start and size, once its fields have values. `address` is the section's
    /// address minus `shift`, modulo 2^64; the start has the shift added back.
    ///
    /// `Unresolved` if the start or the size field has no value, `FunctionEnd` if the start plus the size
    /// is above 2^64, both with the place of the start field.
    #[inline(always)]
    pub fn span<V: Values>(
        &self,
        address: u64,
        shift: u64,
        values: &V,
    ) -> Result<(u64, u64), RecordFault>
        ensures exact { result ≡ span_of self.now.cie.encoding self.now.begin.place address shift (V.field_bits values.now self.now.begin.place self.now.begin.width self.now.begin.raw) (V.field_bits values.now self.now.range.place self.now.range.width self.now.range.raw) }
        ensures end { IfOk result (λ s. s.0 + s.1 ≤ 2 ^ 64) }
    {
        let place = self.begin.place as u32;
        let (Some(begin), Some(range)) = (values.bits(self.begin), values.bits(self.range)) else {
            return Err(RecordFault::Unresolved(place));
        };
        let field = address.wrapping_add(self.begin.place);
        let start = value(self.cie.encoding, begin, field).wrapping_add(shift);
        let len = size(self.cie.encoding, range);
        if u128::from(start) + u128::from(len) > 1 << 64 {
            return Err(RecordFault::FunctionEnd(place));
        }
        Ok((start, len))
    }
}
