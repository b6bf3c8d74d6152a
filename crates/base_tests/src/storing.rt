//! What the machine's files do with a disk that takes bytes and then can't store them.

use sf_base::{Failed, Files, HostFiles, put_file};
use std::alloc::Allocator;
use std::fs::{self, Metadata, OpenFile, OpenOptions};
use std::io::{self, ErrorKind, Read, Seek, SeekFrom, Write};

/// A disk that takes sixteen bytes at a write, and how it fails when it is to store them. It keeps no bytes.
#[derive(Clone, Copy)]
struct Disk {
    fault: Option<ErrorKind>,
}

/// A file of the disk.
#[derive(Clone, Copy)]
struct DiskFile {
    disk: Disk,
}

/// What no test asks of the disk.
fn not_asked<T>() -> io::Result<T> {
    Err(io::Error::from(ErrorKind::Unsupported))
}

impl Read for DiskFile {
    fn read(&mut self, _buf: &mut [u8]) -> io::Result<usize> {
        Ok(0)
    }
}

impl Write for DiskFile {
    fn write(&mut self, buf: &[u8]) -> io::Result<usize> {
        Ok(buf.len().min(16))
    }

    fn flush(&mut self) -> io::Result<()> {
        Ok(())
    }
}

impl Seek for DiskFile {
    fn seek(&mut self, _to: SeekFrom) -> io::Result<u64> {
        not_asked()
    }
}

impl OpenFile for DiskFile {
    fn metadata(&self) -> io::Result<Metadata> {
        not_asked()
    }

    fn set_len(&self, _size: u64) -> io::Result<()> {
        not_asked()
    }

    fn sync_all(&self) -> io::Result<()> {
        not_asked()
    }

    fn sync_data(&self) -> io::Result<()> {
        match self.disk.fault {
            Some(fault) => Err(io::Error::from(fault)),
            None => Ok(()),
        }
    }
}

impl fs::Files for Disk {
    type File = DiskFile;

    type Dir = DiskFile;

    fn open_file(&self, _how: &OpenOptions, _path: &str) -> io::Result<DiskFile> {
        Ok(DiskFile { disk: *self })
    }

    fn open_dir(&self, _path: &str) -> io::Result<DiskFile> {
        not_asked()
    }

    fn metadata(&self, _path: &str) -> io::Result<Metadata> {
        not_asked()
    }

    fn symlink_metadata(&self, _path: &str) -> io::Result<Metadata> {
        not_asked()
    }

    fn copy(&self, _from: &str, _to: &str) -> io::Result<u64> {
        not_asked()
    }

    fn rename(&self, _from: &str, _to: &str) -> io::Result<()> {
        not_asked()
    }

    fn remove_file(&self, _path: &str) -> io::Result<()> {
        not_asked()
    }

    fn create_dir(&self, _path: &str) -> io::Result<()> {
        not_asked()
    }

    fn remove_dir(&self, _path: &str) -> io::Result<()> {
        not_asked()
    }

    fn remove_dir_all<B: Allocator>(&self, _alloc: B, _path: &str) -> io::Result<()> {
        not_asked()
    }
}

/// How the disk fails, and what writing comes to.
const FAULTS: [(Option<ErrorKind>, Result<(), Failed>); 7] = [
    (None, Ok(())),
    (Some(ErrorKind::StorageFull), Err(Failed)),
    (Some(ErrorKind::QuotaExceeded), Err(Failed)),
    (Some(ErrorKind::StaleNetworkFileHandle), Err(Failed)),
    // What can't be stored: a pipe, a device, a file on a system that has no such call.
    (Some(ErrorKind::InvalidInput), Ok(())),
    (Some(ErrorKind::Unsupported), Ok(())),
    (Some(ErrorKind::ReadOnlyFilesystem), Ok(())),
];

#[test]
fn a_fault_of_storing_is_a_failed_write(rt: HostRuntime) {
    for (fault, want) in &FAULTS {
        let disk = Disk { fault: *fault };
        let mut files = HostFiles::new(&disk);
        assert!(rt; files.create_file("o").is_ok());
        assert_eq!(rt; put_file(&mut files, &[7; 40]), *want);
    }
}
