//! The two functions that are made of a procedure linkage table.

ghost use Rattle.std.specs.Prelude.{◌≡◌, ◌<◌, ◌^◌, [], ◌∷◌, IfOk};
ghost use Rattle.frame_functions.specs.Descriptions.{described_function};
ghost use Rattle.sf_plt.specs.Written as written;

use frame_functions::Description;
use sf_base::NoMemory;
use sf_model::{Content, Func, Row, Rows, Shape};
use std::alloc::Global;

/// The number of bytes of an entry.
const ENTRY_LEN: u8 = 16;

/// Makes two rows of this content, at 0 and at the offset `next`. Their canonical frame addresses are `first` and
/// `second` bytes from the stack pointer.
fn two_rows(
    alloc: Global,
    content: Content,
    first: u8,
    next: u8,
    second: u8,
) -> Result<Rows, NoMemory>
    ensures { IfOk result (λ rows. rows ≡ written.row_saying 0 first content ∷ written.row_saying next second content ∷ []) }
{
    let mut rows = Rows::new(alloc);
    rows.push(Row {
        start: 0,
        content: Content {
            cfa: i32::from(first),
            ..content
        },
    })?;
    rows.push(Row {
        start: u32::from(next),
        content: Content {
            cfa: i32::from(second),
            ..content
        },
    })?;
    Ok(rows)
}

/// Makes the function of the first entry of a table with this content.
pub fn first_entry(
    alloc: Global,
    description: &Description<'_>,
    content: Content,
) -> Result<Func, NoMemory>
    ensures { IfOk result (λ func. func ≡ written.first_entry (described_function description.now) content) }
{
    Ok(Func {
        start: description.facts.start,
        size: u32::from(ENTRY_LEN),
        shape: Shape::Plain,
        key: description.facts.key,
        rows: two_rows(alloc, content, 16, 6, 24)?,
    })
}

/// Makes the function of the entries after the first one, each a block of 16 bytes.
pub fn later_entries(
    alloc: Global,
    description: &Description<'_>,
    content: Content,
) -> Result<Func, NoMemory>
    requires { (16 < description.now.facts.size) × (description.now.facts.size < 2 ^ 32) }
    ensures { IfOk result (λ func. func ≡ written.later_entries (described_function description.now) content) }
{
    Ok(Func {
        start: description.facts.start + u64::from(ENTRY_LEN),
        size: (description.facts.size - u64::from(ENTRY_LEN)) as u32,
        shape: Shape::Repeat(ENTRY_LEN),
        key: description.facts.key,
        rows: two_rows(alloc, content, 8, 11, 16)?,
    })
}
