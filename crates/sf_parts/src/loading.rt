//! Reads the parts of a file that a command needs, or else the whole file.

ghost use Rattle.std.specs.Prelude.{◌≡◌, ◌<◌, ◌≤◌, ℕ, Some, length, IsTrue, IsErrOf, IfErr, IfOk, IfSome, OnOk};
ghost use Rattle.sf_base.specs.Contents.{contents_of};
ghost use Rattle.sf_base.specs.Faults.{Rose};
ghost use Rattle.sf_base.specs.Reading.{StaysOpen, StopsReading};
ghost use Rattle.sf_base.specs.Seen.{OnlyReads};
ghost use Rattle.sf_base.specs.declared.loading.LoadFault.TheVariants.{Read, TooLong};
ghost use Rattle.elf_read.specs.Linked.{linked_file};
ghost use Rattle.sf_bytes.specs.Parts.{AreParts};
ghost use Rattle.sf_parts.specs.Read.{file_of};

use crate::file_parts::{FileParts, are_apart};
use crate::file_read::FileRead;
use crate::in_order::linked_parts;
use crate::known::whole_of;
use crate::plan::{self, Window};
use elf_read::{LinkedElf, linked_of};
use sf_base::{Files, LoadFault, load, load_rest, read_part};
use std::alloc::Global;

/// A file of this many bytes or more is read whole.
pub const MOST_BYTES: u64 = 1 << 32;

/// Reads a window of the open file, and returns whether it was added to the parts.
///
/// # Errors
///
/// `Read` if a call of `files` failed, and `NoMemory`.
pub fn read_window<F: Files>(
    alloc: Global,
    files: &mut F,
    parts: &mut FileParts,
    window: Window,
) -> Result<bool, LoadFault>
    requires opened { IsTrue (F.opened files.old) }
    requires parts { IfSome ((F.seen files.old).contents) (λ _. AreParts (F.whole files.old) parts.old.parts.items) }
    ensures parts { OnOk result (IfSome ((F.seen files.old).contents) (λ _. AreParts (F.whole files.old) parts.new.parts.items)) }
    ensures len { parts.new.len ≡ parts.old.len }
    ensures open { OnOk result (StaysOpen F.Files files.old files.new) }
    ensures stops { IfErr result (StopsReading F.Files files.old files.new) }
{
    // No seek goes past the end, which some machines refuse.
    if window.place > parts.len || window.size > parts.len - window.place {
        return Ok(false);
    }
    // No byte is read for two parts.
    if !are_apart(&parts.parts, window.place, window.place + window.size) {
        return Ok(false);
    }
    match read_part(alloc, files, window.place, window.size as usize)? {
        None => Ok(false),
        Some(bytes) => Ok(parts.add(window.place, bytes)?),
    }
}

/// Returns the bytes of the part that was read as the one of this number.
pub fn bytes_of(parts: &FileParts, number: usize) -> &[u8] {
    match parts.parts.get(number) {
        Some(part) => &part.bytes,
        None => &[],
    }
}

/// Reads the file header, the section headers, their names and the first section with call frame information of the open
/// file, and returns whether all were added to the parts, in this order. Nothing is stated of where they are: where that is
/// wrong, the file doesn't pass as a linked one.
///
/// # Errors
///
/// `Read` if a call of `files` failed, and `NoMemory`.
pub fn read_linked_parts<F: Files>(
    alloc: Global,
    files: &mut F,
    parts: &mut FileParts,
) -> Result<bool, LoadFault>
    requires opened { IsTrue (F.opened files.old) }
    requires parts { IfSome ((F.seen files.old).contents) (λ _. AreParts (F.whole files.old) parts.old.parts.items) }
    ensures parts { OnOk result (IfSome ((F.seen files.old).contents) (λ _. AreParts (F.whole files.old) parts.new.parts.items)) }
    ensures len { parts.new.len ≡ parts.old.len }
    ensures open { OnOk result (StaysOpen F.Files files.old files.new) }
    ensures stops { IfErr result (StopsReading F.Files files.old files.new) }
{
    if !read_window(alloc, files, parts, plan::file_header())? {
        return Ok(false);
    }
    let Some(headers) = plan::section_headers(bytes_of(parts, 0)) else {
        return Ok(false);
    };
    if !read_window(alloc, files, parts, headers)? {
        return Ok(false);
    }
    let names = plan::names(bytes_of(parts, 0), bytes_of(parts, 1));
    if !read_window(alloc, files, parts, names)? {
        return Ok(false);
    }
    match plan::eh_frame(bytes_of(parts, 0), bytes_of(parts, 1), bytes_of(parts, 2)) {
        None => Ok(false),
        Some(section) => read_window(alloc, files, parts, section),
    }
}

// Returns the executable or shared object whose parts were read of the open file, if it passes every check by them.
fn linked<F: Files>(files: &F, parts: FileParts) -> Option<LinkedElf>
    requires len { IfSome ((F.seen files.now).contents) (λ _. parts.len ≡ length (F.whole files.now)) }
    requires parts { IfSome ((F.seen files.now).contents) (λ _. AreParts (F.whole files.now) parts.parts.items) }
    ensures whole { IfSome result (λ elf. IfSome ((F.seen files.now).contents) (λ _. linked_file elf ≡ F.whole files.now)) }
    ensures len { IfSome result (λ elf. length (linked_file elf) ≡ parts.len) }
{
    let whole = whole_of(files, &parts);
    let len = parts.len;
    if len >= MOST_BYTES {
        return None;
    }
    linked_of(len, whole, linked_parts(parts)?)
}

// Reads the parts of the open file, of this length, that an executable or a shared object needs. Nothing if the file is
// none, or doesn't pass every check by them.
fn load_linked<F: Files>(
    alloc: Global,
    files: &mut F,
    len: u64,
) -> Result<Option<LinkedElf>, LoadFault>
    requires opened { IsTrue (F.opened files.old) }
    requires len { IfSome ((F.seen files.old).contents) (λ _. len ≡ length (F.whole files.old)) }
    ensures whole { IfOk result (λ linked. IfSome linked (λ elf. IfSome ((F.seen files.old).contents) (λ _.
        linked_file elf ≡ F.whole files.old))) }
    ensures len { IfOk result (λ linked. IfSome linked (λ elf. length (linked_file elf) ≡ len)) }
    ensures open { OnOk result (StaysOpen F.Files files.old files.new) }
    ensures stops { IfErr result (StopsReading F.Files files.old files.new) }
{
    let mut parts = FileParts::new(alloc, len);
    if !read_linked_parts(alloc, files, &mut parts)? {
        return Ok(None);
    }
    Ok(linked(files, parts))
}

/// Reads what is needed of the file of this name. Of an executable or a shared object that has at most `limit` bytes and
/// passes every check by its parts, these are its header, its section headers, their names and the one section with call
/// frame information. Else the whole file is read, as [`load`](sf_base::load) does; a pipe is not opened twice.
///
/// # Errors
///
/// `Read` if a call of `files` failed, `TooLong(limit)` if the file has more than `limit` bytes, and `NoMemory`.
pub fn load_parts<F: Files>(
    alloc: Global,
    files: &mut F,
    name: &str,
    limit: u64,
) -> Result<FileRead, LoadFault>
    requires { IsTrue (F.may_open files.old name.now) }
    ensures file { IfOk result (λ read. IfSome ((F.seen files.old).contents) (λ told.
        file_of read ≡ contents_of told name.now)) }
    ensures within { IfOk result (λ read. length (file_of read) ≤ limit) }
    ensures read { IsErrOf result LoadFault.Read →
        Rose ((F.seen files.old).read_faults) ((F.seen files.new).read_faults) }
    ensures failed_name { IsErrOf result LoadFault.Read →
        IfSome ((F.seen files.new).failed_name) (λ failed. failed ≡ name.now) }
    ensures too_long { (n : ℕ) → IsErrOf result (LoadFault.TooLong n) → n ≡ limit }
    ensures longer { (n : ℕ) → IsErrOf result (LoadFault.TooLong n) → IfSome ((F.seen files.old).contents) (λ told.
        limit < length (contents_of told name.now)) }
    ensures may_open { F.may_open files.new ≡ F.may_open files.old }
    ensures may_create { F.may_create files.new ≡ F.may_create files.old }
    ensures reads { OnlyReads (F.seen files.old) (F.seen files.new) }
    ensures same { OnOk result (F.seen files.new ≡ F.seen files.old) }
{
    files.open_file(name)?;
    let Some(len) = files.len() else {
        return Ok(FileRead::Whole(load_rest(alloc, files, limit)?));
    };
    if len <= limit {
        if let Some(elf) = load_linked(alloc, files, len)? {
            return Ok(FileRead::Linked(elf));
        }
    }
    Ok(FileRead::Whole(load(alloc, files, name, limit)?))
}
