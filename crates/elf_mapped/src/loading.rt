//! Reads the parts of a file that a walk of a process needs, or else the whole file.

ghost use Rattle.std.specs.Prelude.{◌≡◌, ◌<◌, ◌≤◌, ℕ, Some, length, IsTrue, IsErrOf, IfErr, IfOk, IfSome, OnOk};
ghost use Rattle.sf_base.specs.Contents.{contents_of};
ghost use Rattle.sf_base.specs.Faults.{Rose};
ghost use Rattle.sf_base.specs.Reading.{StaysOpen, StopsReading};
ghost use Rattle.sf_base.specs.Seen.{OnlyReads};
ghost use Rattle.sf_base.specs.declared.loading.LoadFault.TheVariants.{Read, TooLong};
ghost use Rattle.sf_bytes.specs.Parts.{AreParts};
ghost use Rattle.elf_mapped.specs.Mapped.{mapped_file};
ghost use Rattle.elf_mapped.specs.Read.{mapped_bytes};

use crate::building::mapped_of;
use crate::mapped_elf::MappedElf;
use crate::mapped_read::MappedRead;
use crate::plan;
use sf_base::{Files, LoadFault, NoMemory, load, load_rest};
use sf_parts::{FileParts, MOST_BYTES, bytes_of, read_linked_parts, read_window, whole_of};
use std::alloc::Global;

// A file with more PT_NOTE segments is read whole.
const MOST_NOTES: usize = 16;

// The program headers are read as the part of this number, before the notes.
const TABLE: usize = 4;

// Reads the notes of a segment of the open file, if it is a PT_NOTE, and returns whether they were added to the parts.
fn read_note<F: Files>(
    alloc: Global,
    files: &mut F,
    parts: &mut FileParts,
    i: u16,
) -> Result<bool, LoadFault>
    requires opened { IsTrue (F.opened files.old) }
    requires parts { IfSome ((F.seen files.old).contents) (λ _. AreParts (F.whole files.old) parts.old.parts.items) }
    ensures parts { OnOk result (IfSome ((F.seen files.old).contents) (λ _. AreParts (F.whole files.old) parts.new.parts.items)) }
    ensures len { parts.new.len ≡ parts.old.len }
    ensures open { OnOk result (StaysOpen F.Files files.old files.new) }
    ensures stops { IfErr result (StopsReading F.Files files.old files.new) }
{
    let Some(window) = plan::notes(bytes_of(parts, TABLE), i) else {
        return Ok(true);
    };
    if parts.parts.len() > TABLE + MOST_NOTES {
        return Ok(false);
    }
    read_window(alloc, files, parts, window)
}

// Reads the notes of each PT_NOTE segment of the open file, and returns whether all were added to the parts.
fn read_notes<F: Files>(
    alloc: Global,
    files: &mut F,
    parts: &mut FileParts,
) -> Result<bool, LoadFault>
    requires opened { IsTrue (F.opened files.old) }
    requires parts { IfSome ((F.seen files.old).contents) (λ _. AreParts (F.whole files.old) parts.old.parts.items) }
    ensures parts { OnOk result (IfSome ((F.seen files.old).contents) (λ _. AreParts (F.whole files.old) parts.new.parts.items)) }
    ensures len { parts.new.len ≡ parts.old.len }
    ensures open { OnOk result (StaysOpen F.Files files.old files.new) }
    ensures stops { IfErr result (StopsReading F.Files files.old files.new) }
{
    for i in 0..plan::header_count(bytes_of(parts, 0)) {
        if !read_note(alloc, files, parts, i)? {
            return Ok(false);
        }
    }
    Ok(true)
}

// Reads the parts of the open file that a walk needs, and returns whether all were added to the parts. Nothing is stated of
// where they are: where that is wrong, the file is read whole.
fn read_planned<F: Files>(
    alloc: Global,
    files: &mut F,
    parts: &mut FileParts,
) -> Result<bool, LoadFault>
    requires opened { IsTrue (F.opened files.old) }
    requires parts { IfSome ((F.seen files.old).contents) (λ _. AreParts (F.whole files.old) parts.old.parts.items) }
    ensures parts { OnOk result (IfSome ((F.seen files.old).contents) (λ _. AreParts (F.whole files.old) parts.new.parts.items)) }
    ensures len { parts.new.len ≡ parts.old.len }
    ensures open { OnOk result (StaysOpen F.Files files.old files.new) }
    ensures stops { IfErr result (StopsReading F.Files files.old files.new) }
{
    if !read_linked_parts(alloc, files, parts)? {
        return Ok(false);
    }
    let table = plan::program_headers(bytes_of(parts, 0));
    if !read_window(alloc, files, parts, table)? {
        return Ok(false);
    }
    if !read_notes(alloc, files, parts)? {
        return Ok(false);
    }
    match plan::sframe(bytes_of(parts, 0), bytes_of(parts, 1), bytes_of(parts, 2)) {
        None => Ok(true),
        Some(section) => read_window(alloc, files, parts, section),
    }
}

// Returns the executable or shared object whose parts were read of the open file, if it passes every check by them.
fn mapped<F: Files>(
    alloc: Global,
    files: &F,
    parts: FileParts,
) -> Result<Option<MappedElf>, NoMemory>
    requires len { IfSome ((F.seen files.now).contents) (λ _. parts.len ≡ length (F.whole files.now)) }
    requires parts { IfSome ((F.seen files.now).contents) (λ _. AreParts (F.whole files.now) parts.parts.items) }
    ensures whole { IfOk result (λ found. IfSome found (λ elf. IfSome ((F.seen files.now).contents) (λ _.
        mapped_file elf ≡ F.whole files.now))) }
    ensures len { IfOk result (λ found. IfSome found (λ elf. length (mapped_file elf) ≡ parts.len)) }
{
    let whole = whole_of(files, &parts);
    let FileParts { len, parts } = parts;
    if len >= MOST_BYTES {
        return Ok(None);
    }
    mapped_of(alloc, len, whole, parts)
}

// Reads the parts of the open file, of this length, that a walk needs of an executable or a shared object. Nothing if the
// file is none, or doesn't pass every check by them.
fn parts_of<F: Files>(
    alloc: Global,
    files: &mut F,
    len: u64,
) -> Result<Option<MappedElf>, LoadFault>
    requires opened { IsTrue (F.opened files.old) }
    requires len { IfSome ((F.seen files.old).contents) (λ _. len ≡ length (F.whole files.old)) }
    ensures whole { IfOk result (λ found. IfSome found (λ elf. IfSome ((F.seen files.old).contents) (λ _.
        mapped_file elf ≡ F.whole files.old))) }
    ensures len { IfOk result (λ found. IfSome found (λ elf. length (mapped_file elf) ≡ len)) }
    ensures open { OnOk result (StaysOpen F.Files files.old files.new) }
    ensures stops { IfErr result (StopsReading F.Files files.old files.new) }
{
    let mut parts = FileParts::new(alloc, len);
    if !read_planned(alloc, files, &mut parts)? {
        return Ok(None);
    }
    Ok(mapped(alloc, files, parts)?)
}

/// Reads what a walk of a process needs of the file of this name. Of an executable or a shared object that has at most
/// `limit` bytes and passes every check by its parts, these are its header, its section headers, their names, the one
/// section with call frame information, its program headers, its notes and its SFrame section. Else the whole file is read,
/// as [`load`](sf_base::load) does; a pipe is not opened twice.
///
/// # Errors
///
/// `Read` if a call of `files` failed, `TooLong(limit)` if the file has more than `limit` bytes, and `NoMemory`.
pub fn load_mapped<F: Files>(
    alloc: Global,
    files: &mut F,
    name: &str,
    limit: u64,
) -> Result<MappedRead, LoadFault>
    requires { IsTrue (F.may_open files.old name.now) }
    ensures file { IfOk result (λ read. IfSome ((F.seen files.old).contents) (λ told.
        mapped_bytes read ≡ contents_of told name.now)) }
    ensures within { IfOk result (λ read. length (mapped_bytes read) ≤ limit) }
    ensures read { IsErrOf result LoadFault.Read →
        Rose ((F.seen files.old).read_faults) ((F.seen files.new).read_faults) }
    ensures failed_name { IsErrOf result LoadFault.Read →
        IfSome ((F.seen files.new).failed_name) (λ failed. failed ≡ name.now) }
    ensures too_long { (n : ℕ) → IsErrOf result (LoadFault.TooLong n) → n ≡ limit }
    ensures longer { (n : ℕ) → IsErrOf result (LoadFault.TooLong n) → IfSome ((F.seen files.old).contents) (λ told.
        limit < length (contents_of told name.now)) }
    ensures may_open { F.may_open files.new ≡ F.may_open files.old }
    ensures may_create { F.may_create files.new ≡ F.may_create files.old }
    ensures reads { OnlyReads (F.seen files.old) (F.seen files.new) }
    ensures same { OnOk result (F.seen files.new ≡ F.seen files.old) }
{
    files.open_file(name)?;
    let Some(len) = files.len() else {
        return Ok(MappedRead::Whole(load_rest(alloc, files, limit)?));
    };
    if len <= limit {
        if let Some(elf) = parts_of(alloc, files, len)? {
            return Ok(MappedRead::Parts(elf));
        }
    }
    Ok(MappedRead::Whole(load(alloc, files, name, limit)?))
}
