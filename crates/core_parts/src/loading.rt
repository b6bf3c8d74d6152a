//! Reads the parts of a core file that its checks and its threads need, or else the whole file.

ghost use Rattle.std.specs.Prelude.{◌≡◌, ◌+◌, ◌<◌, ◌≤◌, ℕ, true, Some, length, IsTrue, IsErrOf, IfErr, IfOk, IfSome, OnOk};
ghost use Rattle.sf_base.specs.Contents.{contents_of};
ghost use Rattle.sf_base.specs.Faults.{Rose};
ghost use Rattle.sf_base.specs.Reading.{StaysOpen, StopsReading};
ghost use Rattle.sf_base.specs.Seen.{OnlyReads};
ghost use Rattle.sf_base.specs.declared.loading.LoadFault.TheVariants.{Read, TooLong};
ghost use Rattle.core_parts.specs.Loaded.{core_read_bytes, is_whole, parts_count, read_count};
ghost use Rattle.core_parts.specs.Partial.{partial_file, parts_of_core};
ghost use Rattle.core_parts.specs.Whole.{IsWholeOf};

use crate::core_file::core_of;
use crate::header::{e_phnum, e_phoff};
use crate::partial_core::PartialCore;
use crate::plan::windows_of;
use crate::reading::read_window;
use crate::segment::PT_NOTE;
use crate::table::head_at;
use elf_read::layout::{FILE_HEADER_LEN, PROGRAM_HEADER_LEN};
use sf_base::{Files, LoadFault, load_rest};
use sf_parts::{FileParts, Window};
use std::alloc::Global;

// How many windows of the memory are read, at most: each part is compared with all others when it is added.
const MAX_WINDOWS: usize = 1 << 13;

/// What is to be read of a core file.
#[derive(Clone, Copy)]
pub enum Wanted<'a> {
    /// What its checks and its threads need, and of its memory what there is from the threads' stack pointers on, where
    /// mapped files begin, and at these addresses.
    Memory(&'a [u64]),
    /// All of it.
    Whole,
}

/// What was read of a core file: parts of it, or all.
#[derive(Drop)]
pub enum CoreRead {
    /// Parts with which it passes every check of the whole file.
    Parts(PartialCore),
    /// All of it.
    Whole(Vec<u8>),
}

// Returns where the program headers are, by the file header.
fn program_headers(header: &[u8]) -> Window {
    Window {
        place: e_phoff(header),
        size: PROGRAM_HEADER_LEN * u64::from(e_phnum(header)),
    }
}

// Returns where the first segment of notes is, by the file header and the program headers.
fn notes(header: &[u8], table: &[u8]) -> Option<Window> {
    for i in 0..e_phnum(header) {
        let head = head_at(table, i);
        if head.kind == PT_NOTE {
            return Some(Window {
                place: head.place,
                size: head.size,
            });
        }
    }
    None
}

// Returns the bytes of the part that was read as the one of this number.
fn bytes_of(parts: &FileParts, number: usize) -> &[u8] {
    match parts.parts.get(number) {
        Some(part) => &part.bytes,
        None => &[],
    }
}

// Reads the file header, the program headers and the first segment of notes of the open file, of which `left` more bytes may
// be read, and returns whether all were added to the parts. Nothing is stated of where they are: where that is wrong, the file
// doesn't pass as a core file.
fn read_planned<F: Files>(
    alloc: Global,
    files: &mut F,
    parts: &mut FileParts,
    left: &mut u64,
) -> Result<bool, LoadFault>
    requires opened { IsTrue (F.opened files.old) }
    requires whole { IfSome ((F.seen files.old).contents) (λ _. IsWholeOf parts.old (F.whole files.old)) }
    ensures whole { OnOk result (IfSome ((F.seen files.old).contents) (λ _. IsWholeOf parts.new (F.whole files.old))) }
    ensures counted { OnOk result (parts_count parts.new.parts.items + left.new ≡ parts_count parts.old.parts.items + left.old) }
    ensures len { parts.new.len ≡ parts.old.len }
    ensures open { OnOk result (StaysOpen F.Files files.old files.new) }
    ensures stops { IfErr result (StopsReading F.Files files.old files.new) }
{
    let header = Window {
        place: 0,
        size: FILE_HEADER_LEN,
    };
    if !read_window(alloc, files, parts, left, header)? {
        return Ok(false);
    }
    let table = program_headers(bytes_of(parts, 0));
    if !read_window(alloc, files, parts, left, table)? {
        return Ok(false);
    }
    match notes(bytes_of(parts, 0), bytes_of(parts, 1)) {
        Some(notes) => read_window(alloc, files, parts, left, notes),
        None => Ok(false),
    }
}

// Reads the parts of the open file, of this length, that its checks and its threads need, and what the memory has from the
// threads' stack pointers on, where mapped files begin, and at these addresses: `most` bytes at most. Nothing if it isn't
// clear that these are enough, or if not all of them can be read.
fn parts_of<F: Files>(
    alloc: Global,
    files: &mut F,
    len: u64,
    most: u64,
    addresses: &[u64],
) -> Result<Option<PartialCore>, LoadFault>
    requires opened { IsTrue (F.opened files.old) }
    requires len { IfSome ((F.seen files.old).contents) (λ _. len ≡ length (F.whole files.old)) }
    ensures whole { IfOk result (λ found. IfSome found (λ core. IfSome ((F.seen files.old).contents) (λ _.
        partial_file core ≡ F.whole files.old))) }
    ensures len { IfOk result (λ found. IfSome found (λ core. length (partial_file core) ≡ len)) }
    ensures few { IfOk result (λ found. IfSome found (λ core. parts_count (parts_of_core core) ≤ most)) }
    ensures open { OnOk result (StaysOpen F.Files files.old files.new) }
    ensures stops { IfErr result (StopsReading F.Files files.old files.new) }
{
    let mut parts = FileParts::new(alloc, len);
    let mut left = most;
    if !read_planned(alloc, files, &mut parts, &mut left)? {
        return Ok(None);
    }
    let Some(mut core) = core_of(alloc, parts)? else {
        return Ok(None);
    };
    let windows = windows_of(alloc, &core, left, addresses)?;
    if windows.len() > MAX_WINDOWS {
        return Ok(None);
    }
    if !core.read_windows(alloc, files, &mut left, &windows)? {
        return Ok(None);
    }
    Ok(Some(PartialCore::new(files, core)))
}

// Reads the whole file of this name, as `load` does. Nothing is read of a file that has more than `limit` bytes by its length.
fn load_whole<F: Files>(
    alloc: Global,
    files: &mut F,
    name: &str,
    limit: u64,
) -> Result<Vec<u8>, LoadFault>
    requires { IsTrue (F.may_open files.old name.now) }
    ensures within { IfOk result (λ bytes. length bytes.items ≤ limit) }
    ensures bytes { IfOk result (λ bytes. IfSome ((F.seen files.old).contents) (λ told.
        bytes.items ≡ contents_of told name.now)) }
    ensures read { IsErrOf result LoadFault.Read →
        Rose ((F.seen files.old).read_faults) ((F.seen files.new).read_faults) }
    ensures failed_name { IsErrOf result LoadFault.Read →
        IfSome ((F.seen files.new).failed_name) (λ failed. failed ≡ name.now) }
    ensures too_long { (n : ℕ) → IsErrOf result (LoadFault.TooLong n) → n ≡ limit }
    ensures longer { (n : ℕ) → IsErrOf result (LoadFault.TooLong n) → IfSome ((F.seen files.old).contents) (λ told.
        limit < length (contents_of told name.now)) }
    ensures may_open { F.may_open files.new ≡ F.may_open files.old }
    ensures may_create { F.may_create files.new ≡ F.may_create files.old }
    ensures reads { OnlyReads (F.seen files.old) (F.seen files.new) }
    ensures same { OnOk result (F.seen files.new ≡ F.seen files.old) }
{
    files.open_file(name)?;
    if let Some(len) = files.len() {
        if len > limit {
            return Err(LoadFault::TooLong(limit));
        }
    }
    load_rest(alloc, files, limit)
}

/// Reads of the core file of this name what is wanted, if the file has at most `limit` bytes, it is clear that these parts are
/// enough for its checks and its threads, and they have at most `most` bytes. Else it reads the whole file, as
/// [`load`](sf_base::load) does, which then may have at most `most` bytes; a pipe is not opened twice.
///
/// # Errors
///
/// `Read` if a call of `files` failed, `TooLong` if the file has more than `limit` bytes, or more than `most` and would have to
/// be read whole, and `NoMemory`.
pub fn load_core<F: Files>(
    alloc: Global,
    files: &mut F,
    name: &str,
    limit: u64,
    most: u64,
    wanted: Wanted<'_>,
) -> Result<CoreRead, LoadFault>
    requires open { IsTrue (F.may_open files.old name.now) }
    requires most { most ≤ limit }
    ensures file { IfOk result (λ read. IfSome ((F.seen files.old).contents) (λ told.
        core_read_bytes read ≡ contents_of told name.now)) }
    ensures within { IfOk result (λ read. length (core_read_bytes read) ≤ limit) }
    // At most `most` bytes of it are read.
    ensures few { IfOk result (λ read. read_count read ≤ most) }
    ensures all { IfOk result (λ read. wanted.entry ≡ Wanted.Whole → is_whole read ≡ true) }
    ensures read { IsErrOf result LoadFault.Read →
        Rose ((F.seen files.old).read_faults) ((F.seen files.new).read_faults) }
    ensures failed_name { IsErrOf result LoadFault.Read →
        IfSome ((F.seen files.new).failed_name) (λ failed. failed ≡ name.now) }
    ensures too_long { (n : ℕ) → IsErrOf result (LoadFault.TooLong n) → n ≡ most }
    ensures longer { (n : ℕ) → IsErrOf result (LoadFault.TooLong n) → IfSome ((F.seen files.old).contents) (λ told.
        most < length (contents_of told name.now)) }
    ensures may_open { F.may_open files.new ≡ F.may_open files.old }
    ensures may_create { F.may_create files.new ≡ F.may_create files.old }
    ensures reads { OnlyReads (F.seen files.old) (F.seen files.new) }
    ensures same { OnOk result (F.seen files.new ≡ F.seen files.old) }
{
    let Wanted::Memory(addresses) = wanted else {
        return Ok(CoreRead::Whole(load_whole(alloc, files, name, most)?));
    };
    files.open_file(name)?;
    let Some(len) = files.len() else {
        return Ok(CoreRead::Whole(load_rest(alloc, files, most)?));
    };
    if len <= limit {
        if let Some(core) = parts_of(alloc, files, len, most, addresses)? {
            return Ok(CoreRead::Parts(core));
        }
    }
    Ok(CoreRead::Whole(load_whole(alloc, files, name, most)?))
}
