//! Runs in which a call of a file or of a stream fails, and runs past a limit, over files and streams in memory.
//! Whole runs of the program are cases in files, tried with the program.

ghost use Rattle.std.specs.Prelude.{◌<◌};

mod worked;

use base_tests::tables::{bytes_of, expect, number, prints};
use sf_fakes::{MemFiles, MemSink};
use sf_run::{Status, run};
use std::alloc::{AllocError, Global};
use std::test::Fail;
use worked::{WORKED, Worked, read_of, worked_of};

/// How a run ends whose call fails: its status, its line, and what it leaves in `o`.
#[derive(Drop)]
struct End {
    status: Status,
    line: String,
    section: Option<Vec<u8>>,
}

/// A run that ended.
#[derive(Drop)]
struct Ended {
    status: Status,
    files: MemFiles,
    out: MemSink,
    err: MemSink,
}

/// The words of a command line.
fn words_of(alloc: Global, line: &str) -> Result<Vec<String>, AllocError> {
    let mut words = Vec::new(alloc);
    for word in line.split_whitespace() {
        words.push(String::from_str(alloc, word)?)?;
    }
    Ok(words)
}

/// Runs the words over these files.
fn run_over(
    alloc: Global,
    words: &str,
    mut files: MemFiles,
    mut out: MemSink,
    mut err: MemSink,
) -> Result<Ended, Fail> {
    let words = words_of(alloc, words)?;
    let status = run(alloc, &words, &mut files, &mut out, &mut err);
    Ok(Ended {
        status,
        files,
        out,
        err,
    })
}

/// Runs a command over its files. Their calls with these numbers fail.
fn run_worked(
    alloc: Global,
    worked: &Worked<'_>,
    most: usize,
    fails: Vec<u64>,
    out: MemSink,
) -> Result<Ended, Fail>
    requires { 0 < most }
{
    let mut files = MemFiles::new(alloc, most, fails);
    for read in worked.reads.split(';') {
        if let Some((name, bytes, _)) = read_of(read) {
            let put = files.put(name, bytes_of(alloc, bytes)?);
            put.ok().ok_or("memory")?;
        }
    }
    let err = MemSink::new(alloc, 16, Vec::new(alloc));
    run_over(alloc, worked.words, files, out, err)
}

/// The section that a run leaves.
fn section_of(alloc: Global, worked: &Worked<'_>) -> Result<Option<Vec<u8>>, Fail> {
    match worked.section {
        Some(section) => Ok(Some(bytes_of(alloc, section)?)),
        None => Ok(None),
    }
}

/// How a run ends of which no call fails.
fn done_of(alloc: Global, worked: &Worked<'_>) -> Result<End, Fail> {
    Ok(End {
        status: Status::Done,
        line: String::new(alloc),
        section: section_of(alloc, worked)?,
    })
}

/// How a run ends of which a call of this file fails.
fn unread(alloc: Global, name: &str) -> Result<End, Fail> {
    Ok(End {
        status: Status::Read,
        line: format!(in alloc; "read {name}\n")?,
        section: None,
    })
}

/// Appends how a run ends for each read that it takes to read `len` bytes of this file, where that call fails.
fn push_reads(
    alloc: Global,
    name: &str,
    len: usize,
    most: usize,
    ends: &mut Vec<End>,
) -> Result<(), Fail>
    requires { 0 < most }
{
    for _ in 0..len.div_ceil(most) {
        ends.push(unread(alloc, name)?)?;
    }
    Ok(())
}

/// Appends how a run ends for each call of a file that it reads by parts, after the file is opened, where that call fails: its
/// length is asked for, and each part is moved to and read. Where there is no length or no move, the file is read whole.
fn push_parts(
    alloc: Global,
    worked: &Worked<'_>,
    name: &str,
    parts: &str,
    most: usize,
    ends: &mut Vec<End>,
) -> Result<(), Fail>
    requires { 0 < most }
{
    ends.push(done_of(alloc, worked)?)?;
    for size in parts.split_whitespace() {
        ends.push(done_of(alloc, worked)?)?;
        push_reads(alloc, name, number(size)? as usize, most, ends)?;
    }
    Ok(())
}

/// Appends how a run ends for each call of a file that it reads where that call fails: the file is opened, and read by parts, or up
/// to its end and once more.
fn push_read(
    alloc: Global,
    worked: &Worked<'_>,
    read: &str,
    most: usize,
    ends: &mut Vec<End>,
) -> Result<(), Fail>
    requires { 0 < most }
{
    let Some((name, bytes, parts)) = read_of(read) else {
        return Ok(());
    };
    ends.push(unread(alloc, name)?)?;
    if parts.is_empty() {
        push_reads(alloc, name, bytes_of(alloc, bytes)?.len(), most, ends)?;
        ends.push(unread(alloc, name)?)?;
        return Ok(());
    }
    push_parts(alloc, worked, name, parts, most, ends)
}

/// How a run ends for each call of the files that it reads, in their order, where that call fails.
fn ends_of_reads(alloc: Global, worked: &Worked<'_>, most: usize) -> Result<Vec<End>, Fail>
    requires { 0 < most }
{
    let mut ends = Vec::new(alloc);
    for read in worked.reads.split(';') {
        push_read(alloc, worked, read, most, &mut ends)?;
    }
    Ok(ends)
}

/// Appends how a run ends for each call of the section's file where that call fails: it is created and written.
fn push_writes(
    alloc: Global,
    worked: &Worked<'_>,
    most: usize,
    ends: &mut Vec<End>,
) -> Result<(), Fail>
    requires { 0 < most }
{
    if let Some(section) = section_of(alloc, worked)? {
        let line = String::from_str(alloc, "write file o\n")?;
        ends.push(End {
            status: Status::Write,
            line: line.clone()?,
            section: None,
        })?;
        let mut written = Vec::new(alloc);
        for range in section.chunks(most) {
            ends.push(End {
                status: Status::Write,
                line: line.clone()?,
                section: Some(written.clone()?),
            })?;
            written.extend_from_slice(range)?;
        }
    }
    Ok(())
}

/// Returns whether a run ended so, with this text.
fn is_end(ended: &Ended, end: &End, text: &[u8]) -> bool {
    ended.status == end.status
        && ended.err.bytes() == end.line.as_bytes()
        && ended.out.bytes() == text
        && ended.files.get("o") == end.section.as_deref()
}

/// Fails unless a run ended so, and names the call that failed in it.
fn expect_end(words: &str, number: u64, ended: &Ended, end: &End, text: &[u8]) -> Result<(), Fail> {
    if is_end(ended, end, text) {
        return Ok(());
    }
    Err(Fail::new(format_args!("{words}: call {number}")))
}

/// Fails unless each call of the files that fails ends a run as it has to, where these are the ends for those that read, and
/// there is no call after the last of them.
fn expect_calls(
    alloc: Global,
    worked: &Worked<'_>,
    most: usize,
    mut ends: Vec<End>,
) -> Result<(), Fail>
    requires { 0 < most }
{
    push_writes(alloc, worked, most, &mut ends)?;
    ends.push(done_of(alloc, worked)?)?;
    for (number, end) in (1u64..).zip(&ends) {
        let out = MemSink::new(alloc, 16, Vec::new(alloc));
        let ended = run_worked(alloc, worked, most, vec![in alloc; number]?, out)?;
        let text = if end.status == Status::Done {
            worked.text
        } else {
            ""
        };
        expect_end(worked.words, number, &ended, end, text.as_bytes())?;
    }
    Ok(())
}

/// Fails unless each call of the files that fails ends each run as it has to.
fn expect_calls_of_files(alloc: Global, most: usize) -> Result<(), Fail>
    requires { 0 < most }
{
    for line in WORKED.lines() {
        if let Some(worked) = worked_of(line) {
            let ends = ends_of_reads(alloc, &worked, most)?;
            expect_calls(alloc, &worked, most, ends)?;
        }
    }
    Ok(())
}

/// Fails unless each write of the output that fails ends a run as it has to, with the section whole.
fn expect_writes(alloc: Global, worked: &Worked<'_>, most: usize) -> Result<(), Fail>
    requires { 0 < most }
{
    let mut written = Vec::new(alloc);
    for (number, range) in (1u64..).zip(worked.text.as_bytes().chunks(most)) {
        let out = MemSink::new(alloc, most, vec![in alloc; number]?);
        let ended = run_worked(alloc, worked, 64, Vec::new(alloc), out)?;
        let end = End {
            status: Status::Write,
            line: String::from_str(alloc, "write output\n")?,
            section: section_of(alloc, worked)?,
        };
        expect_end(worked.words, number, &ended, &end, &written)?;
        written.extend_from_slice(range)?;
    }
    Ok(())
}

/// Fails unless each write of the output that fails ends each run as it has to.
fn expect_writes_of_output(alloc: Global, most: usize) -> Result<(), Fail>
    requires { 0 < most }
{
    for line in WORKED.lines() {
        if let Some(worked) = worked_of(line) {
            expect_writes(alloc, &worked, most)?;
        }
    }
    Ok(())
}

#[test]
fn each_call_of_files_that_move_one_byte_fails(rt: HostRuntime) -> Result<(), Fail> {
    expect_calls_of_files(rt.alloc(), 1)
}

#[test]
fn each_call_of_files_that_move_several_bytes_fails(rt: HostRuntime) -> Result<(), Fail> {
    expect_calls_of_files(rt.alloc(), 7)?;
    expect_calls_of_files(rt.alloc(), 16)
}

#[test]
fn each_write_of_the_output_fails(rt: HostRuntime) -> Result<(), Fail> {
    expect_writes_of_output(rt.alloc(), 1)?;
    expect_writes_of_output(rt.alloc(), 7)?;
    expect_writes_of_output(rt.alloc(), 16)
}

/// Fails unless each write of the errors that fails cuts the line there, and leaves the status.
fn expect_writes_of_errors(
    alloc: Global,
    words: &str,
    status: Status,
    line: &[u8],
) -> Result<(), Fail> {
    let mut written = Vec::new(alloc);
    for (number, byte) in (1u64..).zip(line) {
        let mut files = MemFiles::new(alloc, 1, Vec::new(alloc));
        files.put("e", vec![in alloc; 1u8]?).ok().ok_or("memory")?;
        let out = MemSink::new(alloc, 1, Vec::new(alloc));
        let err = MemSink::new(alloc, 1, vec![in alloc; number]?);
        let ended = run_over(alloc, words, files, out, err)?;
        if ended.status != status || ended.err.bytes() != written.as_slice() {
            return Err(Fail::new(format_args!("{words}: call {number}")));
        }
        written.push(*byte)?;
    }
    Ok(())
}

#[test]
fn each_write_of_the_errors_fails(rt: HostRuntime) -> Result<(), Fail> {
    let alloc = rt.alloc();
    expect_writes_of_errors(alloc, "link o@0x3000 e", Status::Usage, b"usage\n")?;
    let missing = "link o@0x3000 eh-amd64:x@0x2000";
    expect_writes_of_errors(alloc, missing, Status::Read, b"read x\n")?;
    let refused = "link o@0x3000 eh-amd64:e@0x2000";
    let line = b"refused 0 record Short 0x0 0x0\n";
    expect_writes_of_errors(alloc, refused, Status::Refused, line)
}

#[test]
fn an_input_longer_than_the_limit_is_refused(rt: HostRuntime) -> Result<(), Fail> {
    let alloc = rt.alloc();
    let mut files = MemFiles::new(alloc, 1 << 24, Vec::new(alloc));
    let bytes = vec![in alloc; 0u8; (1 << 28) + 1]?;
    files.put("e1", bytes).ok().ok_or("memory")?;
    let out = MemSink::new(alloc, 16, Vec::new(alloc));
    let err = MemSink::new(alloc, 16, Vec::new(alloc));
    let words = "link o@0x3000 eh-amd64:e1@0x2000";
    let ended = run_over(alloc, words, files, out, err)?;
    prints(alloc, words, &ended.status, "Limit")?;
    expect(words, str::from_utf8(ended.err.bytes())?, "limit file 0\n")
}
