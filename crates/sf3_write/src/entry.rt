//! Function descriptor entries of the index (SFrame Version 3).

ghost use Rattle.std.specs.Prelude.{◌≡◌, ◌≤◌, ◌<◌, ◌^◌, ◌*◌, ◌+◌, ◌++◌, length, All, IsTrue, OnOk};
ghost use Rattle.std.specs.List.{list_all};
ghost use Rattle.sf_write.specs.Room.{head_fits};
ghost use Rattle.sf_write.specs.Stored.{stored_fits, stored_len};
ghost use Rattle.sf3_write.specs.Entry.{distance_from, entry_bytes, field_address, long_bytes};
ghost use Rattle.sf3_write.specs.Stored.{stored_entries};

use crate::attributes::repeat_size_of;
use crate::layout::{ATTRIBUTES_LEN, FUNCTION_ENTRY_LEN, HEADER_LEN};
use sf_model::FuncHead;
use sf_write::{StoredList, push_word};
use std::alloc::AllocError;

/// Appends the entries of all functions of a section at `at`.
pub(crate) fn push_entries<L: StoredList>(
    bytes: &mut Vec<u8>,
    at: u64,
    functions: &L,
) -> Result<(), AllocError>
    requires count { length (L.listed functions.now) ≤ 2 ^ 21 }
    requires len { stored_len (L.listed functions.now) ≤ 17 * 2 ^ 24 }
    ensures ok { OnOk result (bytes.new.items ≡ bytes.old.items ++ stored_entries at 0 0 (L.listed functions.now)) }
    ensures fits { OnOk result (IsTrue (list_all stored_fits (L.listed functions.now))) }
{
    let mut place = 0;
    for number in 0..functions.len() {
        let stored = functions.function(number);
        push_entry(bytes, at, number as u32, place, &stored.head)?;
        place += ATTRIBUTES_LEN + stored.len;
    }
    Ok(())
}

/// Appends the entry with this number. Its data begin at this place among those of all functions.
#[tactic(auto, unfolding(crate::specs::Entry::entry_bytes, sf_write::specs::Room::head_fits))]
#[inline(always)]
fn push_entry(
    bytes: &mut Vec<u8>,
    at: u64,
    number: u32,
    place: u32,
    head: &FuncHead,
) -> Result<(), AllocError>
    requires { number ≤ 2 ^ 21 }
    ensures ok { OnOk result (bytes.new.items ≡ bytes.old.items ++ entry_bytes at number place head.now.start head.now.size) }
    ensures fits { OnOk result (IsTrue (head_fits head.now)) }
{
    // The head is that of a function in memory: its repeat size is a byte.
    let _repeat_size = repeat_size_of(head.shape);
    push_long(bytes, distance(field(at, number), head.start))?;
    push_word(bytes, head.size)?;
    push_word(bytes, place)
}

/// Returns the address of the start field of the entry with this number.
#[inline(always)]
fn field(at: u64, number: u32) -> u64
    requires { number ≤ 2 ^ 21 }
    ensures { result ≡ field_address at number }
{
    at.wrapping_add(u64::from(HEADER_LEN + FUNCTION_ENTRY_LEN * number))
}

/// Returns a start, counted from an address.
#[tactic(auto, unfolding(crate::specs::Entry::distance_from))]
#[inline(always)]
fn distance(origin: u64, start: u64) -> u64
    ensures { result ≡ distance_from origin start }
{
    start.wrapping_sub(origin)
}

/// Appends a number's eight bytes.
#[tactic(auto, unfolding(crate::specs::Entry::long_bytes))]
#[inline(always)]
fn push_long(bytes: &mut Vec<u8>, number: u64) -> Result<(), AllocError>
    ensures { OnOk result (bytes.new.items ≡ bytes.old.items ++ long_bytes number) }
{
    bytes.extend_from_slice(&number.to_le_bytes())
}
