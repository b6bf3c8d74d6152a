// Reading a file, or a part of it, into memory.
ghost use Rattle.std.specs.Prelude.{◌≡◌, ◌<◌, ◌≤◌, ◌++◌, ◌+◌, ℕ, length, take, drop, [], vec_len, IsTrue, IsErrOf, IfErr, IfOk, IfSome, OnOk, Some};
ghost use Rattle.sf_base.specs.Contents.{contents_of};
ghost use Rattle.sf_base.specs.declared.loading.LoadFault.TheVariants.{Read, NoMemory};
ghost use Rattle.sf_base.specs.Faults.{Rose};
ghost use Rattle.sf_base.specs.Reading.{StaysOpen, StopsReading};
ghost use Rattle.sf_base.specs.Seen.{OnlyReads};

use crate::{Failed, Files, NoMemory};
use std::alloc::{AllocError, Global};

/// Why a file was not loaded.
#[derive(Clone, Copy, Debug, PartialEq, Eq)]
pub enum LoadFault {
    /// The file could not be opened or read.
    Read,
    /// The file has more bytes than this limit.
    TooLong(u64),
    /// Memory ran out.
    NoMemory,
}

impl From<Failed> for LoadFault {
    ghost from_gives = { λ _ fault. fault ≡ Read };

    fn from(_: Failed) -> LoadFault {
        LoadFault::Read
    }
}

impl From<NoMemory> for LoadFault {
    ghost from_gives = { λ _ fault. fault ≡ NoMemory };

    fn from(_: NoMemory) -> LoadFault {
        LoadFault::NoMemory
    }
}

impl From<AllocError> for LoadFault {
    ghost from_gives = { λ _ fault. fault ≡ NoMemory };

    fn from(_: AllocError) -> LoadFault {
        LoadFault::NoMemory
    }
}

// The most bytes that one read asks for.
const CHUNK: u64 = 1 << 16;

// The most zero bytes that are stored at once. A longer fill is one instruction of the machine, which each page that is
// touched for the first time would interrupt.
const FILL: usize = 1 << 10;

/// Reads the whole file of this name, if it has at most `limit` bytes. Nothing is read past the first bytes that pass
/// the limit. Which file is open afterwards is not specified.
///
/// # Errors
///
/// `Read` if a call of `files` failed, `TooLong(limit)` if the file has more than `limit` bytes, and `NoMemory`.
pub fn load<F: Files>(
    alloc: Global,
    files: &mut F,
    name: &str,
    limit: u64,
) -> Result<Vec<u8>, LoadFault>
    requires { IsTrue (F.may_open files.old name.now) }
    ensures within { IfOk result (λ bytes. vec_len bytes ≤ limit) }
    ensures bytes { IfOk result (λ bytes. IfSome ((F.seen files.old).contents) (λ told.
        bytes.items ≡ contents_of told name.now)) }
    ensures read { IsErrOf result LoadFault.Read →
        Rose ((F.seen files.old).read_faults) ((F.seen files.new).read_faults) }
    ensures failed_name { IsErrOf result LoadFault.Read →
        IfSome ((F.seen files.new).failed_name) (λ failed. failed ≡ name.now) }
    ensures too_long { (n : ℕ) → IsErrOf result (LoadFault.TooLong n) → n ≡ limit }
    ensures longer { (n : ℕ) → IsErrOf result (LoadFault.TooLong n) → IfSome ((F.seen files.old).contents) (λ told.
        limit < length (contents_of told name.now)) }
    ensures may_open { F.may_open files.new ≡ F.may_open files.old }
    ensures may_create { F.may_create files.new ≡ F.may_create files.old }
    ensures reads { OnlyReads (F.seen files.old) (F.seen files.new) }
    ensures same { OnOk result (F.seen files.new ≡ F.seen files.old) }
{
    files.open_file(name)?;
    load_rest(alloc, files, limit)
}

/// Reads what is left of the open file, as [`load`] reads a file by its name.
///
/// # Errors
///
/// Those of [`load`], with what is left in place of the file.
pub fn load_rest<F: Files>(alloc: Global, files: &mut F, limit: u64) -> Result<Vec<u8>, LoadFault>
    requires { IsTrue (F.opened files.old) }
    ensures within { IfOk result (λ bytes. vec_len bytes ≤ limit) }
    ensures bytes { IfOk result (λ bytes. IfSome ((F.seen files.old).contents) (λ _.
        bytes.items ≡ F.rest files.old)) }
    ensures read { IsErrOf result LoadFault.Read →
        Rose ((F.seen files.old).read_faults) ((F.seen files.new).read_faults) }
    ensures failed_name { IsErrOf result LoadFault.Read →
        IfSome ((F.seen files.new).failed_name) (λ failed. F.opened_name files.old ≡ Some failed) }
    ensures too_long { (n : ℕ) → IsErrOf result (LoadFault.TooLong n) → n ≡ limit }
    ensures longer { (n : ℕ) → IsErrOf result (LoadFault.TooLong n) → IfSome ((F.seen files.old).contents) (λ _.
        limit < length (F.rest files.old)) }
    ensures may_open { F.may_open files.new ≡ F.may_open files.old }
    ensures may_create { F.may_create files.new ≡ F.may_create files.old }
    ensures reads { OnlyReads (F.seen files.old) (F.seen files.new) }
    ensures same { OnOk result (F.seen files.new ≡ F.seen files.old) }
{
    let mut bytes = Vec::new(alloc);
    loop {
        // One byte past the limit shows that there are more.
        let room = (limit - bytes.len() as u64).min(CHUNK - 1) + 1;
        let n = read_more(files, &mut bytes, room as usize)?;
        if bytes.len() as u64 > limit {
            return Err(LoadFault::TooLong(limit));
        }
        if n == 0 {
            return Ok(bytes);
        }
    }
}

/// Reads `size` bytes of the open file from a place on, or those that there are. Nothing if the file can't be read from
/// there, which is no fault.
///
/// # Errors
///
/// `Read` if a call of `files` failed, and `NoMemory`.
pub fn read_part<F: Files>(
    alloc: Global,
    files: &mut F,
    place: u64,
    size: usize,
) -> Result<Option<Vec<u8>>, LoadFault>
    requires { IsTrue (F.opened files.old) }
    ensures bytes { IfOk result (λ part. IfSome part (λ bytes. IfSome ((F.seen files.old).contents) (λ _.
        bytes.items ≡ take size (drop place (F.whole files.old))))) }
    ensures within { IfOk result (λ part. IfSome part (λ bytes. vec_len bytes ≤ size)) }
    ensures open { OnOk result (StaysOpen F.Files files.old files.new) }
    ensures stops { IfErr result (StopsReading F.Files files.old files.new) }
{
    if !files.seek(place) {
        return Ok(None);
    }
    let mut bytes = Vec::new(alloc);
    while bytes.len() < size {
        let room = (size - bytes.len()).min(CHUNK as usize);
        if read_more(files, &mut bytes, room)? == 0 {
            break;
        }
    }
    Ok(Some(bytes))
}

// Appends zero bytes, up to a length of `end`.
fn fill_up(bytes: &mut Vec<u8>, end: usize) -> Result<(), AllocError>
    requires { vec_len bytes.old ≤ end }
    ensures len { OnOk result (vec_len bytes.new ≡ end) }
    ensures front { OnOk result (take (vec_len bytes.old) bytes.new.items ≡ bytes.old.items) }
{
    while bytes.len() < end {
        let step = (end - bytes.len()).min(FILL);
        bytes.resize(bytes.len() + step, 0)?;
    }
    Ok(())
}

// Reads once, for at most `room` bytes, appends what was read, and returns how many bytes that was.
fn read_more<F: Files>(files: &mut F, bytes: &mut Vec<u8>, room: usize) -> Result<usize, LoadFault>
    requires opened { IsTrue (F.opened files.old) }
    requires room { 0 < room }
    ensures len { IfOk result (λ n. vec_len bytes.new ≡ vec_len bytes.old + n) }
    ensures within { IfOk result (λ n. n ≤ room) }
    ensures moved { OnOk result (IfSome ((F.seen files.old).contents) (λ _.
        bytes.old.items ++ F.rest files.old ≡ bytes.new.items ++ F.rest files.new)) }
    ensures end { IfOk result (λ n. IfSome ((F.seen files.old).contents) (λ _.
        n ≡ 0 → F.rest files.old ≡ [])) }
    ensures opened { OnOk result (IsTrue (F.opened files.new)) }
    ensures whole { OnOk result (F.whole files.new ≡ F.whole files.old) }
    ensures read { IsErrOf result LoadFault.Read →
        Rose ((F.seen files.old).read_faults) ((F.seen files.new).read_faults) }
    ensures opened_name { OnOk result (F.opened_name files.new ≡ F.opened_name files.old) }
    ensures failed_name { IsErrOf result LoadFault.Read →
        IfSome ((F.seen files.new).failed_name) (λ failed. F.opened_name files.old ≡ Some failed) }
    ensures not_long { (n : ℕ) → IsErrOf result (LoadFault.TooLong n) → ⊥ }
    ensures may_open { F.may_open files.new ≡ F.may_open files.old }
    ensures may_create { F.may_create files.new ≡ F.may_create files.old }
    ensures reads { OnlyReads (F.seen files.old) (F.seen files.new) }
    ensures same { OnOk result (F.seen files.new ≡ F.seen files.old) }
{
    let filled = bytes.len();
    let end = filled.checked_add(room).ok_or(NoMemory)?;
    bytes.reserve(room)?;
    fill_up(bytes, end)?;
    let n = files.read(&mut bytes[filled..])?;
    bytes.truncate(filled + n);
    Ok(n)
}
