//! Function descriptor entries (SFrame Version 2).

ghost use Rattle.std.specs.Prelude.{◌≡◌, ◌≤◌, ◌^◌, ◌*◌, ◌++◌, Some, None, length, All, IsTrue, OnOk, IfErr, true, if◌then◌else◌};
ghost use Rattle.std.specs.List.{list_all};
ghost use Rattle.sf_write.specs.Entry.{entry_info, entry_bytes, repeat_size};
ghost use Rattle.sf_write.specs.Reach.{is_in_reach, Refuses};
ghost use Rattle.sf_write.specs.Room.{head_fits};
ghost use Rattle.sf_write.specs.Stored.{first_stored_out_of_reach, stored_entries, stored_fits, stored_len, HasWidth};

use crate::fault::WriteFault;
use crate::list::StoredList;
use crate::number::{push_signed_word, push_word};
use crate::reach::start_field;
use crate::stored::StoredFunction;
use sf_decode::layout::{FUNCTION_TYPE, KEY};
use sf_model::{FuncHead, Key, Shape};

/// Appends the entries of all functions of a section at `at`.
pub(crate) fn push_entries<L: StoredList>(
    bytes: &mut Vec<u8>,
    at: u64,
    functions: &L,
) -> Result<(), WriteFault>
    requires count { length (L.listed functions.now) ≤ 2 ^ 21 }
    requires len { stored_len (L.listed functions.now) ≤ 17 * 2 ^ 24 }
    requires widths { All HasWidth (L.listed functions.now) }
    ensures ok { OnOk result (bytes.new.items ≡ bytes.old.items ++ stored_entries at 0 0 (L.listed functions.now)) }
    ensures fits { OnOk result (IsTrue (list_all stored_fits (L.listed functions.now))) }
    ensures in_reach { OnOk result (first_stored_out_of_reach at 0 (L.listed functions.now) ≡ None) }
    ensures fault { IfErr result (λ e. Refuses e (first_stored_out_of_reach at 0 (L.listed functions.now))) }
{
    let mut place = 0;
    for number in 0..functions.len() {
        let stored = functions.function(number);
        push_entry(bytes, at, number as u32, place, stored)?;
        place += stored.len;
    }
    Ok(())
}

/// Appends the entry with this number. Its rows begin at this place among all rows.
#[tactic(auto, unfolding(crate::specs::Entry::entry_bytes, crate::specs::Room::head_fits))]
#[inline(always)]
fn push_entry(
    bytes: &mut Vec<u8>,
    at: u64,
    number: u32,
    place: u32,
    stored: &StoredFunction,
) -> Result<(), WriteFault>
    requires count { number ≤ 2 ^ 21 }
    requires width { HasWidth stored.now }
    ensures ok { OnOk result (bytes.new.items ≡ bytes.old.items ++ entry_bytes at number place stored.now.width stored.now.head) }
    ensures fits { OnOk result (IsTrue (stored_fits stored.now)) }
    ensures in_reach { OnOk result (is_in_reach at number stored.now.head.start ≡ true) }
    ensures fault { IfErr result (λ e. Refuses e (if is_in_reach at number stored.now.head.start then None else Some stored.now.head.start)) }
{
    let head = &stored.head;
    let start = start_field(at, number, head.start).ok_or(WriteFault::OutOfReach(head.start))?;
    push_signed_word(bytes, start)?;
    push_word(bytes, head.size)?;
    push_word(bytes, place)?;
    push_word(bytes, head.rows)?;
    bytes.extend_from_slice(&[
        info_of(head, stored.width),
        repeat_size_of(head.shape),
        0,
        0,
    ])?;
    Ok(())
}

/// Returns the info byte of an entry, by the width of its row starts.
#[tactic(auto, unfolding(crate::specs::Entry::entry_info))]
#[inline(always)]
fn info_of(head: &FuncHead, width: u8) -> u8
    requires { width ≤ 2 }
    ensures { result ≡ entry_info width head.now }
{
    let shape = match head.shape {
        Shape::Plain => 0,
        Shape::Repeat(_) => 1,
    };
    let key = match head.key {
        Key::A => 0,
        Key::B => 1,
    };
    width + FUNCTION_TYPE * shape + KEY * key
}

/// Returns the repeat size, 0 for a plain function.
#[inline(always)]
fn repeat_size_of(shape: Shape) -> u8
    ensures { result ≡ repeat_size shape }
{
    match shape {
        Shape::Plain => 0,
        Shape::Repeat(size) => size,
    }
}
