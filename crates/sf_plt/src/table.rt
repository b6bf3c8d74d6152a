//! The check that a function is a plain lazy procedure linkage table.

ghost use Rattle.std.specs.Prelude.{◌≡◌, ◌==◌, ◌%◌, ◌&&◌, nat_lt, is_none, None, if◌then◌else◌};
ghost use Rattle.sf_express.specs.Expressed.{reason_of};
ghost use Rattle.frame_functions.specs.Kept.{facts_of};
ghost use Rattle.frame_functions.specs.Descriptions.{described_function};
ghost use Rattle.sf_plt.specs.Plt as plt;

use crate::text::is_plt_text;
use frame_functions::Description;
use sf_express::content_at;
use sf_model::{Arch, Base, Content};

/// The number of bytes of an entry.
const ENTRY_LEN: u64 = 16;

/// The column of the return address on AMD64.
const RETURN_COLUMN: u64 = 16;

/// The limit of a function's size: the first number that is too large.
const SIZE_LIMIT: u64 = 1 << 32;

/// Returns the content of the row before a function's own instructions, if SFrame can express it.
fn initial_content(description: &Description<'_>) -> Option<Content>
    ensures { result ≡ plt.initial_content (described_function description.now) }
{
    content_at(description.arch, &description.row).ok()
}

/// Returns whether a function is of AMD64, has no reason against it as a whole, begins at a multiple of 16, has
/// more than 16 bytes, and advances by bytes.
fn has_form(description: &Description<'_>) -> bool
    ensures { let f = described_function description.now in result ≡ (plt.is_amd64 f.arch && is_none (reason_of f.arch (facts_of f)) && (f.start % 16 == 0) && nat_lt 16 f.size && (f.code == 1)) }
{
    let facts = description.facts;
    match description.arch {
        Arch::Amd64 => {
            facts.size < SIZE_LIMIT
                && facts.column == RETURN_COLUMN
                && !facts.signal
                && facts.start % ENTRY_LEN == 0
                && facts.size > ENTRY_LEN
                && description.code == 1
        }
        Arch::Aarch64 => false,
    }
}

/// Returns the content of the row before a function's own instructions, if the function is a plain lazy procedure
/// linkage table.
pub fn table_content(description: &Description<'_>) -> Option<Content>
    ensures { result ≡ (if plt.is_plt (described_function description.now) then plt.initial_content (described_function description.now) else None) }
{
    if !has_form(description) || !is_plt_text(description.own) {
        return None;
    }
    let content = initial_content(description)?;
    match content.base {
        Base::Sp => Some(content),
        Base::Fp => None,
    }
}
