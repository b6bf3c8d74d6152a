//! The note on mapped files of a core file (Linux core files, NT_FILE).

ghost use Rattle.std.specs.Prelude.{◌≡◌, ◌+◌, ◌*◌, ◌<◌, ◌≤◌, ℕ, IfOk, IsErrOf, OnOk, drop, length, map, true};
ghost use Rattle.std.specs.List.{position};
ghost use Rattle.std.specs.Option.{option_map};
ghost use Rattle.sf_bytes.specs.Cursor.{cursor};
ghost use Rattle.elf_read.specs.Checking.{each_below};
ghost use Rattle.core_notes.specs.Listing.{notes_in, whole_notes};
ghost use Rattle.core_notes.specs.Thread.{file_note_in};
ghost use Rattle.core_parts.specs.Input.{input_file};
ghost use Rattle.sf_modules.specs.declared.fault.ModuleFault.TheVariants.{Unread};
ghost use Rattle.sf_modules.specs.Entry.{mapping_view};
ghost use Rattle.sf_modules.specs.Fault.{FollowsCheck, OnlyRefuses, verdict};
ghost use Rattle.sf_modules.specs.Note as spec;
ghost use Rattle.sf_modules.specs.TextsRead.{text_front};

use crate::entry::Entry;
use crate::fault::ModuleFault;
use crate::layout::{
    DELETED, FILE_COUNT, FILE_END, FILE_ENTRY_LEN, FILE_NOTE_HEADER_LEN, FILE_OFFSET,
    FILE_PAGE_SIZE,
};
use core_parts::CoreInput;
use elf_read::u64_at;
use sf_bytes::Part;
use std::alloc::Global;

// Finds the place of the first zero byte.
fn text_len(bytes: &[u8]) -> Option<usize>
    ensures { result ≡ position spec.is_zero_byte bytes.now }
{
    bytes.iter().position(|byte| *byte == 0)
}

// Takes the text up to the first zero byte, and the bytes after that.
#[tactic(auto, unfolding(crate::specs::TextsRead::text_front))]
fn text_front(bytes: &[u8]) -> Option<(&[u8], &[u8])>
    ensures { option_map (λ t. (t.0.now, t.1.now)) result ≡ text_front bytes.now }
{
    let len = text_len(bytes)?;
    let (text, _) = bytes.split_at(len);
    let (_, later) = bytes.split_at(len + 1);
    Some((text, later))
}

// Returns whether the bytes have `count` texts, each ended by a zero byte.
fn has_texts(bytes: &[u8], count: u64) -> bool
    ensures { result ≡ spec.has_file_names count bytes.now }
{
    let mut rest = bytes;
    for passed in 0..count {
        let Some((_, later)) = text_front(rest) else {
            return false;
        };
        rest = later;
    }
    true
}

// Returns the bytes after the numbers of `count` entries.
fn names_part(note: &[u8], count: u64) -> &[u8]
    requires { 24 * count + 16 ≤ length note.now }
    ensures { result.now ≡ drop (24 * count + 16) note.now }
{
    let (_, names) = note.split_at((FILE_ENTRY_LEN * count + FILE_NOTE_HEADER_LEN) as usize);
    names
}

/// The content of a note before its entries.
#[derive(Clone, Copy)]
struct Header {
    // The number of entries.
    count: u64,
    page: u64,
}

// Reads the content of a note before its entries. The note has the bytes and the names of its entries.
#[tactic(auto, unfolding(crate::specs::Note::file_header_check))]
fn read_header(note: &Part<'_>) -> Result<Header, ModuleFault>
    ensures check { verdict result ≡ spec.file_header_check (cursor note.now) }
    ensures refusal { OnlyRefuses result }
    ensures count { IfOk result (λ h. h.count ≡ spec.file_entry_count note.now.bytes.now) }
    ensures page { IfOk result (λ h. h.page ≡ spec.page_size note.now.bytes.now) }
    ensures some { IfOk result (λ h. 0 < h.page) }
    ensures within { IfOk result (λ h. 24 * h.count + 16 ≤ length note.now.bytes.now) }
    ensures names { OnOk result (spec.has_file_names (spec.file_entry_count note.now.bytes.now) (spec.names_part note.now.bytes.now) ≡ true) }
{
    let len = note.bytes.len() as u64;
    if len < FILE_NOTE_HEADER_LEN {
        return Err(ModuleFault::FileNote(note.place));
    }
    let count = u64_at(note.bytes, FILE_COUNT);
    if count > (len - FILE_NOTE_HEADER_LEN) / FILE_ENTRY_LEN {
        return Err(ModuleFault::FileNote(note.place));
    }
    if !has_texts(names_part(note.bytes, count), count) {
        return Err(ModuleFault::FileNote(note.place));
    }
    let page = u64_at(note.bytes, FILE_PAGE_SIZE);
    if !page.is_power_of_two() {
        return Err(ModuleFault::FileNote(note.place + FILE_PAGE_SIZE));
    }
    Ok(Header { count, page })
}

// Returns a name without the ` (deleted)` at its end.
#[tactic(auto, unfolding(crate::specs::Note::pathname_in))]
fn pathname_in(text: &[u8]) -> &[u8]
    ensures { result.now ≡ spec.pathname_in text.now }
{
    let (name, end) = text.split_at(text.len().saturating_sub(DELETED.len()));
    if end == DELETED { name } else { text }
}

// Reads the entry of a number, which has the name in this text.
#[tactic(auto, unfolding(crate::specs::Note::file_entry_check))]
fn entry_at<'a>(
    note: &Part<'_>,
    k: u64,
    page: u64,
    text: &'a [u8],
) -> Result<Entry<'a>, ModuleFault>
    requires within { 24 * k + 40 ≤ length note.now.bytes.now }
    requires page { page ≡ spec.page_size note.now.bytes.now }
    ensures check { verdict result ≡ spec.file_entry_check (cursor note.now) k }
    ensures refusal { OnlyRefuses result }
    ensures value { IfOk result (λ e. mapping_view e ≡ spec.numbered_entry note.now.bytes.now k text.now) }
{
    let place = FILE_ENTRY_LEN * k + FILE_NOTE_HEADER_LEN;
    let start = u64_at(note.bytes, place);
    let end = u64_at(note.bytes, place + FILE_END);
    let pages = u64_at(note.bytes, place + FILE_OFFSET);
    match pages.checked_mul(page) {
        Some(offset) if start <= end => Ok(Entry {
            start,
            end,
            offset,
            name: pathname_in(text),
        }),
        _ => Err(ModuleFault::FileNote(note.place + place)),
    }
}

// Reads the entries, in order.
fn take_entries<'a>(
    alloc: Global,
    note: &Part<'a>,
    header: &Header,
) -> Result<Vec<Entry<'a>>, ModuleFault>
    requires count { header.now.count ≡ spec.file_entry_count note.now.bytes.now }
    requires page { header.now.page ≡ spec.page_size note.now.bytes.now }
    requires within { 24 * header.now.count + 16 ≤ length note.now.bytes.now }
    requires names { spec.has_file_names (spec.file_entry_count note.now.bytes.now) (spec.names_part note.now.bytes.now) ≡ true }
    ensures check { FollowsCheck (each_below (spec.file_entry_count note.now.bytes.now) (spec.file_entry_check (cursor note.now))) result }
    ensures read { (address : ℕ) → IsErrOf result (ModuleFault.Unread address) → ⊥ }
    ensures value { IfOk result (λ entries. spec.AreEntries note.now.bytes.now (spec.page_size note.now.bytes.now) (map mapping_view entries.items)) }
{
    let mut entries = Vec::with_capacity(alloc, header.count as usize)?;
    let mut rest = names_part(note.bytes, header.count);
    for k in 0..header.count {
        let (text, later) = match text_front(rest) {
            Some(front) => front,
            None => unreachable!(),
        };
        let entry = entry_at(note, k, header.page, text)?;
        entries.push(entry)?;
        rest = later;
    }
    Ok(entries)
}

// Reads the page size and the entries of a note.
#[tactic(auto, unfolding(crate::specs::Note::file_note_check))]
fn read_note<'a>(alloc: Global, note: &Part<'a>) -> Result<(u64, Vec<Entry<'a>>), ModuleFault>
    ensures sound { IfOk result (λ r. spec.AreEntries note.now.bytes.now r.0 (map mapping_view r.1.items)) }
    ensures exact { FollowsCheck (spec.file_note_check (cursor note.now)) result }
    ensures read { (address : ℕ) → IsErrOf result (ModuleFault.Unread address) → ⊥ }
    ensures page { IfOk result (λ r. 0 < r.0) }
{
    let header = read_header(note)?;
    let entries = take_entries(alloc, note, &header)?;
    Ok((header.page, entries))
}

/// Reads the page size, and the files that a core file's process had mapped, in the order of its first note on them.
///
/// # Errors
///
/// `NoFileNote` if there is no such note. `FileNote` if the note ends too early, its page size is no power of two, or an
/// entry ends before it starts or has an offset that is no number of eight bytes: the first of these, with its place in the
/// core file. `NoMemory` if out of memory.
pub fn entries<'a>(
    alloc: Global,
    core: &CoreInput<'a>,
) -> Result<(u64, Vec<Entry<'a>>), ModuleFault>
    // What was read is the content of the note.
    ensures sound { IfOk result (λ r. spec.HasEntries (file_note_in (whole_notes (notes_in (input_file core.now)))) r.0 (map mapping_view r.1.items)) }
    // It is read where no check fails; else the fault is that of the first that does.
    ensures exact { FollowsCheck (spec.file_entries_check (file_note_in (whole_notes (notes_in (input_file core.now))))) result }
    // No part is missing that it needs.
    ensures read { (address : ℕ) → IsErrOf result (ModuleFault.Unread address) → ⊥ }
    ensures page { IfOk result (λ r. 0 < r.0) }
{
    match core.file_note() {
        Some(note) => read_note(alloc, &note),
        None => Err(ModuleFault::NoFileNote),
    }
}
