// The files of the machine.
ghost use Rattle.std.specs.Prelude.{◌≡◌, [], None, true, false, is_some};

use crate::fault::count_fault;
use crate::{Failed, Files};
use std::fs::OpenFile;
use std::io::{ErrorKind, Read, Seek, SeekFrom, Write};
use std::os::unix::fs::MetadataExt;
use std::{fs, rt};

/// The machine's names of what its standard output and its standard error go to.
const STREAMS: [&str; 2] = ["/proc/self/fd/1", "/proc/self/fd/2"];

/// The files of the machine, through its runtime. Their contents are not known: what the machine reads and stores
/// is outside what is proved.
///
/// A regular file that standard output or standard error goes to is not created, so that no text is written over
/// what the file is to hold. On a machine without `/proc` this is not noticed.
///
/// A write of a whole piece has failed if the machine can't store the file's bytes, which some file systems
/// report only then; the file may hold the piece. [`put_file`](crate::put_file) passes all that is left at each
/// write, so only its last write waits for the machine.
#[derive(Drop)]
pub struct HostFiles<'a, R: rt::Files> {
    runtime: &'a R,
    opened: Option<R::File>,
    created: Option<R::File>,
    read_faults: u64,
    write_faults: u64,
}

impl<'a, R: rt::Files> HostFiles<'a, R> {
    /// Wraps this runtime: no file is open or created, and no fault is counted.
    pub fn new(runtime: &'a R) -> HostFiles<'a, R>
        ensures opened { ⟦<HostFiles<'a, R> as Files>⟧.opened result ≡ false }
        ensures created { (⟦<HostFiles<'a, R> as Files>⟧.seen result).created ≡ false }
        ensures read_faults { (⟦<HostFiles<'a, R> as Files>⟧.seen result).read_faults ≡ 0 }
        ensures write_faults { (⟦<HostFiles<'a, R> as Files>⟧.seen result).write_faults ≡ 0 }
    {
        HostFiles {
            runtime,
            opened: None,
            created: None,
            read_faults: 0,
            write_faults: 0,
        }
    }
}

/// Returns whether two names are of one regular file, by its device and its number there.
fn is_one_file<R: rt::Files>(runtime: &R, one: &str, other: &str) -> bool {
    match (fs::metadata(runtime, one), fs::metadata(runtime, other)) {
        (Ok(one), Ok(other)) => {
            one.is_file() && one.dev() == other.dev() && one.ino() == other.ino()
        }
        _ => false,
    }
}

/// Creates a file, or empties it, unless a standard stream goes to it.
fn create<R: rt::Files>(runtime: &R, name: &str) -> Option<R::File> {
    if STREAMS
        .iter()
        .any(|stream| is_one_file(runtime, name, stream))
    {
        return None;
    }
    fs::create(runtime, name).ok()
}

/// Returns whether the machine has stored what was written to this file. Bytes that can't be stored, as in a
/// pipe, a terminal or a device, need not be.
fn is_stored<F: OpenFile>(file: &F) -> bool {
    match file.sync_data() {
        Ok(()) => true,
        Err(fault) => matches!(
            fault.kind(),
            ErrorKind::InvalidInput | ErrorKind::Unsupported | ErrorKind::ReadOnlyFilesystem
        ),
    }
}

/// Returns how many bytes a regular file has. The files of `/proc` say that they have none, and that isn't known of them.
fn length_of<F: OpenFile>(file: &F) -> Option<u64> {
    let metadata = file.metadata().ok()?;
    let len = metadata.len();
    if metadata.is_file() && len > 0 {
        Some(len)
    } else {
        None
    }
}

impl<'a, R: rt::Files> Files for HostFiles<'a, R> {
    ghost seen = { λ files. record { contents = None; created = is_some files.created; created_name = []; read_faults = files.read_faults; write_faults = files.write_faults; failed_name = None } };

    ghost opened = { λ files. is_some files.opened };

    ghost rest = { λ _. [] };

    ghost whole = { λ _. [] };

    ghost opened_name = { λ _. None };

    ghost may_open = { λ _ _. true };

    ghost may_create = { λ _ _. true };

    fn open_file(&mut self, name: &str) -> Result<(), Failed> {
        match fs::open(self.runtime, name) {
            Ok(file) => {
                self.opened = Some(file);
                Ok(())
            }
            Err(_) => {
                self.opened = None;
                count_fault(&mut self.read_faults);
                Err(Failed)
            }
        }
    }

    fn read(&mut self, buf: &mut [u8]) -> Result<usize, Failed> {
        if let Some(file) = &mut self.opened {
            if let Ok(n) = file.read(buf) {
                return Ok(n);
            }
        }
        self.opened = None;
        count_fault(&mut self.read_faults);
        Err(Failed)
    }

    fn len(&mut self) -> Option<u64> {
        match &self.opened {
            Some(file) => length_of(file),
            None => None,
        }
    }

    fn seek(&mut self, place: u64) -> bool {
        match &mut self.opened {
            Some(file) => file.seek(SeekFrom::Start(place)).is_ok(),
            None => false,
        }
    }

    fn create_file(&mut self, name: &str) -> Result<(), Failed> {
        self.opened = None;
        self.created = create(self.runtime, name);
        if self.created.is_none() {
            count_fault(&mut self.write_faults);
            return Err(Failed);
        }
        Ok(())
    }

    fn write(&mut self, piece: &[u8]) -> Result<usize, Failed> {
        self.opened = None;
        if let Some(file) = &mut self.created {
            if let Ok(n) = file.write(piece) {
                // A file that accepts no bytes would be retried for ever.
                if n > 0 && (n < piece.len() || is_stored(file)) {
                    return Ok(n);
                }
            }
        }
        count_fault(&mut self.write_faults);
        Err(Failed)
    }
}
