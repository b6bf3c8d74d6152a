// What no clause says: that calls succeed with ample memory, at which call a fault shows, and the machine's side.
use crate::same::{same, same_at};
use sf_base::{
    Failed, Files, HostFiles, HostSink, LoadFault, Sink, dec_word, hex_word, load, put_all,
    put_file, read_part,
};
use sf_fakes::{MemFiles, MemSink, SureFiles, SureSink};
use std::alloc::Global;
use std::test::Fail;
use std::{env, process};

/// How far a copy of a file of 60 bytes to one of 63 bytes came: the step that failed, and the number of bytes that were written.
type Came = (&'static str, usize);

// Loads a file of 60 bytes and writes one of 63, 16 bytes at a call at most. One call fails.
fn copy_with_fault(alloc: Global, call: u64) -> Result<Came, Fail> {
    let mut files = MemFiles::new(alloc, 16, vec![in alloc; call]?);
    let source = vec![in alloc; 7u8; 60]?;
    if files.put("source", source).is_err() {
        return Ok(("put", 0));
    }
    if load(alloc, &mut files, "source", 60).is_err() {
        return Ok(("load", 0));
    }
    if files.create_file("target").is_err() {
        return Ok(("create", 0));
    }
    let text = vec![in alloc; 9u8; 63]?;
    if put_file(&mut files, &text).is_err() {
        return Ok(("write", files.get("target").unwrap_or(&[]).len()));
    }
    Ok(("none", 63))
}

/// The call that fails, and how far the copy came: one open, five reads, one create and four writes.
const CALLS: [(u64, Came); 12] = [
    (1, ("load", 0)),
    (2, ("load", 0)),
    (3, ("load", 0)),
    (4, ("load", 0)),
    (5, ("load", 0)),
    (6, ("load", 0)),
    (7, ("create", 0)),
    (8, ("write", 0)),
    (9, ("write", 16)),
    (10, ("write", 32)),
    (11, ("write", 48)),
    (12, ("none", 63)),
];

#[test]
fn a_fault_at_each_call_of_a_copy_shows(rt: HostRuntime) -> Result<(), Fail> {
    for (call, came) in &CALLS {
        same_at(&rt, *call, &copy_with_fault(rt.alloc(), *call)?, came);
    }
    Ok(())
}

/// A limit, the call that fails, and the length of what is read. The fourth call would fail where the limit is 20: the second read has passed it already.
const LIMITS: [(u64, u64, Result<usize, LoadFault>); 5] = [
    (20, 4, Err(LoadFault::TooLong(20))),
    (59, 99, Err(LoadFault::TooLong(59))),
    (60, 99, Ok(60)),
    (u64::MAX, 99, Ok(60)),
    (60, 4, Err(LoadFault::Read)),
];

/// Returns the length of what is read of a file of 60 bytes up to a limit. One call fails.
fn length_read(alloc: Global, limit: u64, call: u64) -> Result<Result<usize, LoadFault>, Fail> {
    let mut files = MemFiles::new(alloc, 16, vec![in alloc; call]?);
    files.put("source", vec![in alloc; 7u8; 60]?)?;
    match load(alloc, &mut files, "source", limit) {
        Ok(bytes) => Ok(Ok(bytes.len())),
        Err(fault) => Ok(Err(fault)),
    }
}

#[test]
fn a_file_is_read_to_its_limit_and_no_further(rt: HostRuntime) -> Result<(), Fail> {
    for (limit, call, want) in &LIMITS {
        same_at(&rt, *limit, &length_read(rt.alloc(), *limit, *call)?, want);
    }
    Ok(())
}

/// The call that fails, and what was written before.
const WRITES: [(u64, &str); 4] = [(1, ""), (2, "abcd"), (3, "abcdefgh"), (4, "abcdefghij")];

#[test]
fn a_sink_in_memory_keeps_what_was_written_before_a_fault(rt: HostRuntime) -> Result<(), Fail> {
    let alloc = rt.alloc();
    for (call, want) in &WRITES {
        let mut sink = MemSink::new(alloc, 4, vec![in alloc; *call]?);
        let put = put_all(&mut sink, b"abcdefghij").is_ok();
        same_at(&rt, *call, &put, &(*call == 4));
        same_at(&rt, *call, &sink.bytes(), &want.as_bytes());
    }
    Ok(())
}

#[test]
fn sure_files_read_the_first_pair_and_count_what_is_written(rt: HostRuntime) -> Result<(), Fail> {
    let alloc = rt.alloc();
    let mut names = Vec::new(alloc);
    names.push((String::from_str(alloc, "a")?, b"first".to_vec(alloc)?))?;
    names.push((String::from_str(alloc, "a")?, b"second".to_vec(alloc)?))?;
    let mut files = SureFiles::new(&names);
    for (name, want) in [("a", "first"), ("b", "")] {
        let got = load(alloc, &mut files, name, 9);
        assert!(rt;
            got.is_ok_and(|bytes| bytes.as_slice() == want.as_bytes()),
            "at {name}"
        );
    }
    assert!(rt; files.create_file("c").is_ok());
    assert!(rt; put_file(&mut files, b"12345").is_ok());
    assert_eq!(rt; files.count(), 5);
    let mut sink = SureSink::new();
    assert!(rt; put_all(&mut sink, b"1234567").is_ok());
    assert_eq!(rt; sink.count(), 7);
    Ok(())
}

const HEXADECIMAL: [(&str, Option<u64>); 11] = [
    ("0x0", Some(0)),
    ("0x3000", Some(0x3000)),
    ("0x00ff", Some(255)),
    ("0xffffffffffffffff", Some(u64::MAX)),
    ("0x10000000000000000", None),
    ("0x", None),
    ("0X1", None),
    ("0xA", None),
    ("3000", None),
    ("0x1 ", None),
    ("", None),
];

const DECIMAL: [(&str, Option<u32>); 10] = [
    ("0", Some(0)),
    ("64", Some(64)),
    ("4294967295", Some(u32::MAX)),
    ("4294967296", None),
    ("00", None),
    ("064", None),
    ("+1", None),
    ("-1", None),
    ("1a", None),
    ("", None),
];

#[test]
fn words_are_read_to_their_limits(rt: HostRuntime) {
    for (text, want) in &HEXADECIMAL {
        same_at(&rt, *text, &hex_word(text), want);
    }
    for (text, want) in &DECIMAL {
        same_at(&rt, *text, &dec_word(text), want);
    }
}

#[test]
fn host_files_hold_what_was_written(rt: HostRuntime) -> Result<(), Fail> {
    let alloc = rt.alloc();
    let id = process::id(rt.process());
    let file = format!(in alloc; "sf_base_host_files_{id}")?;
    let path = env::temp_dir(&rt)?.join(alloc, &file)?;
    let name = path.as_path().to_str().unwrap_or("sf_base_host_files");
    let mut files = HostFiles::new(&rt);
    assert!(rt; files.create_file(name).is_ok());
    assert!(rt; put_file(&mut files, b"on the disk").is_ok());
    let got = load(alloc, &mut files, name, 100);
    assert!(rt; got.is_ok_and(|bytes| bytes.as_slice() == b"on the disk".as_slice()));
    assert!(rt; files.open_file(name).is_ok());
    assert_eq!(rt; files.len(), Some(11));
    let part = read_part(alloc, &mut files, 3, 3).unwrap_or(None);
    assert!(rt; part.is_some_and(|bytes| bytes.as_slice() == b"the".as_slice()));
    std::fs::remove_file(&rt, name)?;
    assert_eq!(rt; files.open_file(name), Err(Failed));
    Ok(())
}

#[test]
fn a_file_that_says_it_is_empty_has_no_known_length(rt: HostRuntime) {
    let mut files = HostFiles::new(&rt);
    assert!(rt; files.open_file("/proc/self/status").is_ok());
    assert_eq!(rt; files.len(), None);
}

#[test]
fn a_host_sink_writes_to_standard_output(rt: HostRuntime) {
    let mut sink = HostSink::new(rt.stdout());
    same(&rt, &put_all(&mut sink, b"to standard output\n"), &Ok(()));
}
