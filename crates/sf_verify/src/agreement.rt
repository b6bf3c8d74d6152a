//! The test whether a section and call frame information recover the same caller's frame.

ghost use Rattle.std.specs.Prelude.{◌≡◌, IsTrue, FitsSigned, false};
ghost use Rattle.std.specs.Int.{w32};
ghost use Rattle.sf_model.specs.Content.{OffsetsInRange, PointerInRange, ReturnInRange, content_fits};
ghost use Rattle.sf_verify.specs.Agreement as spec;
ghost use Rattle.sf_verify.specs.Agreement.{RecoverSameFrame};

use frame_functions::KeyedContent;
use sf_express::is_same;
use sf_model::{Arch, Content, Key, Ra};

/// Returns whether two keys are the same.
#[inline(always)]
fn same_key(ours: Key, theirs: Key) -> bool
    ensures { result ≡ spec.same_key ours theirs }
{
    match ours {
        Key::A => match theirs {
            Key::A => true,
            Key::B => false,
        },
        Key::B => match theirs {
            Key::A => false,
            Key::B => true,
        },
    }
}

/// Returns whether the contents are the same, and also the keys if the return address is signed.
#[inline(always)]
fn agree(ours: KeyedContent, theirs: KeyedContent) -> bool
    ensures { result ≡ spec.agree ours theirs }
{
    is_same(ours.content, theirs.content)
        && (!ours.content.signed || same_key(ours.key, theirs.key))
}

/// Shows that an offset has 32 signed bits.
#[inline(always)]
fn number_in_range(_number: i32)
    ensures { FitsSigned w32 _number }
{}

/// Shows that the offset of a return address has 32 signed bits.
#[inline(always)]
fn return_in_range(ra: Ra)
    ensures { ReturnInRange ra }
{
    match ra {
        Ra::Fixed => (),
        Ra::Link => (),
        Ra::At(offset) => number_in_range(offset),
    }
}

/// Shows that the offset of a frame pointer has 32 signed bits.
#[inline(always)]
fn pointer_in_range(fp: Option<i32>)
    ensures { PointerInRange fp }
{
    match fp {
        None => (),
        Some(offset) => number_in_range(offset),
    }
}

/// Shows that all offsets of a content have 32 signed bits.
#[inline(always)]
fn offsets_in_range(content: &Content)
    ensures { OffsetsInRange content.now }
{
    number_in_range(content.cfa);
    return_in_range(content.ra);
    pointer_in_range(content.fp);
}

/// Returns whether two contents with their keys recover the same caller's frame, for all registers and memory.
pub fn recover_alike(arch: Arch, ours: KeyedContent, theirs: KeyedContent) -> bool
    requires ours { IsTrue (content_fits arch ours.content) }
    requires theirs { IsTrue (content_fits arch theirs.content) }
    ensures alike { IsTrue result → RecoverSameFrame ours theirs }
    ensures differ { result ≡ false → RecoverSameFrame ours theirs → ⊥ }
{
    offsets_in_range(&ours.content);
    offsets_in_range(&theirs.content);
    agree(ours, theirs)
}
