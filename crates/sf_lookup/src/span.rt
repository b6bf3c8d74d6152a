//! Spans of addresses. Where they overlap, the first one decides.

ghost use Rattle.std.specs.Prelude.{◌≡◌};
ghost use Rattle.sf_lookup.specs.Span as spec;

/// Addresses, and what is there: `size` of them from `start` on, up to 2^64 at most. A span of size 0 has none.
#[derive(Clone, Copy)]
pub struct Span<A> {
    /// The first address.
    pub start: u64,
    /// How many there are.
    pub size: u64,
    /// What is there.
    pub leads_to: A,
}

/// Returns whether a span has an address.
#[inline(always)]
pub fn covers<A>(span: &Span<A>, pc: u64) -> bool
    ensures { result ≡ spec.covers pc span.now }
{
    span.start <= pc && pc - span.start < span.size
}
