//! What a row says of the caller's frame.

ghost use Rattle.std.specs.Prelude.{◌≡◌};
ghost use Rattle.sample_walk.specs.Step as spec;

use sf_model::{Base, Content, Ra};

/// What a row says of the caller's frame (SFrame Version 2, frame row entries).
#[derive(Clone, Copy)]
pub struct Rule {
    /// The register that the canonical frame address counts from.
    pub base: Base,
    /// The canonical frame address's offset from that register, in bytes.
    pub cfa: i32,
    /// The return address's offset from the canonical frame address, or none if it is in the link register.
    pub ra: Option<i32>,
    /// The frame pointer's offset from the canonical frame address, or none if it has its present value.
    pub fp: Option<i32>,
    /// Whether the return address is signed.
    pub signed: bool,
}

// Returns the offset at which the return address is saved, or none if it is in the link register.
fn saved_return(ra: Ra) -> Option<i32>
    ensures { result ≡ spec.saved_return ra }
{
    match ra {
        Ra::Fixed => Some(-8),
        Ra::Link => None,
        Ra::At(offset) => Some(offset),
    }
}

/// Returns what a row's content says of the caller's frame.
pub fn rule_of(content: &Content) -> Rule
    ensures { result ≡ spec.content_rule content.now }
{
    Rule {
        base: content.base,
        cfa: content.cfa,
        ra: saved_return(content.ra),
        fp: content.fp,
        signed: content.signed,
    }
}
