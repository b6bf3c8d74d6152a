//! All bytes of a file of which parts were read, as clauses see them.

ghost use Rattle.std.specs.Prelude.{◌≡◌, length, IfSome};
ghost use Rattle.sf_bytes.specs.Parts.{AreParts};
ghost use Rattle.sf_parts.specs.Image.{image, known_or_read};

use crate::file_parts::FileParts;
use boxcar::tag::{Names, Tag};
use sf_base::Files;

// The open file, and the parts of it that were read.
#[derive(Drop)]
struct Opened<'a, F: Files> {
    files: &'a F,
    parts: &'a FileParts,
}

// How a tag is read off these.
struct Whole;

impl<'a, F: Files> Names<Opened<'a, F>> for Whole {
    ghost numbers = { λ opened. known_or_read ((F.seen opened.files.now).contents) (F.whole opened.files.now) (image opened.parts.now.len opened.parts.now.parts.items) };
}

/// Returns all bytes of the open file, of which these parts were read, for clauses: what it holds, if that is known, and
/// else what the parts say.
pub fn whole_of<F: Files>(files: &F, parts: &FileParts) -> Tag
    requires len { IfSome ((F.seen files.now).contents) (λ _. parts.now.len ≡ length (F.whole files.now)) }
    requires parts { IfSome ((F.seen files.now).contents) (λ _. AreParts (F.whole files.now) parts.now.parts.items) }
    ensures known { IfSome ((F.seen files.now).contents) (λ _. result.numbers ≡ F.whole files.now) }
    ensures len { length result.numbers ≡ parts.now.len }
    ensures parts { AreParts result.numbers parts.now.parts.items }
{
    Tag::of::<Opened<'_, F>, Whole>(&Opened { files, parts })
}
