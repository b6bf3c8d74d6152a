//! Reads of parts of an open core file.

ghost use Rattle.std.specs.Prelude.{◌≡◌, ◌+◌, ◌≤◌, ◌++◌, ◌∷◌, [], ℕ, List, Some, length, IsTrue, IfErr, IfOk, IfSome, OnErr, OnOk, if◌then◌else◌};
ghost use Rattle.sf_base.specs.Reading.{StaysOpen, StopsReading};
ghost use Rattle.core_parts.specs.Loaded.{parts_count};
ghost use Rattle.core_parts.specs.Whole.{IsWholeOf};

use crate::core_file::CoreParts;
use sf_base::{Files, LoadFault, NoMemory, read_part};
use sf_parts::{FileParts, Window};
use std::alloc::Global;

// Adds a part, of which at most `left` bytes may be read, and returns whether it was added.
fn add_part(
    parts: &mut FileParts,
    left: &mut u64,
    place: u64,
    bytes: Vec<u8>,
) -> Result<bool, NoMemory>
    requires { length bytes.items ≤ left.old }
    ensures counted { OnOk result (parts_count parts.new.parts.items + left.new ≡ parts_count parts.old.parts.items + left.old) }
    ensures len { parts.new.len ≡ parts.old.len }
    ensures parts { IfOk result (λ added. parts.new.parts.items
        ≡ (if added then parts.old.parts.items ++ (record { place = place; bytes = bytes }) ∷ [] else parts.old.parts.items)) }
    ensures kept { OnErr result (parts.new.parts.items ≡ parts.old.parts.items) }
{
    let size = bytes.len() as u64;
    let added = parts.add(place, bytes)?;
    if added {
        *left -= size;
    }
    Ok(added)
}

/// Reads a window of the open file, of which `left` more bytes may be read, and returns whether it was added to the parts that
/// were read of it.
pub fn read_window<F: Files>(
    alloc: Global,
    files: &mut F,
    parts: &mut FileParts,
    left: &mut u64,
    window: Window,
) -> Result<bool, LoadFault>
    requires opened { IsTrue (F.opened files.old) }
    requires whole { IfSome ((F.seen files.old).contents) (λ _. IsWholeOf parts.old (F.whole files.old)) }
    ensures whole { OnOk result (IfSome ((F.seen files.old).contents) (λ _. IsWholeOf parts.new (F.whole files.old))) }
    ensures kept { (whole : List ℕ) → IsWholeOf parts.new whole → IsWholeOf parts.old whole }
    ensures counted { OnOk result (parts_count parts.new.parts.items + left.new ≡ parts_count parts.old.parts.items + left.old) }
    ensures len { parts.new.len ≡ parts.old.len }
    ensures open { OnOk result (StaysOpen F.Files files.old files.new) }
    ensures stops { IfErr result (StopsReading F.Files files.old files.new) }
{
    // No seek goes past the end, which some machines refuse.
    if window.place > parts.len || window.size > parts.len - window.place || window.size > *left {
        return Ok(false);
    }
    match read_part(alloc, files, window.place, window.size as usize)? {
        None => Ok(false),
        Some(bytes) => Ok(add_part(parts, left, window.place, bytes)?),
    }
}

impl CoreParts {
    // Reads a window of the open file, which has to be this core file and of which `left` more bytes may be read, and returns
    // whether it was added to the parts that were read of it.
    fn read_more<F: Files>(
        &mut self,
        alloc: Global,
        files: &mut F,
        left: &mut u64,
        window: Window,
    ) -> Result<bool, LoadFault>
        requires opened { IsTrue (F.opened files.old) }
        requires whole { IfSome ((F.seen files.old).contents) (λ _. IsWholeOf self.old.file (F.whole files.old)) }
        ensures whole { OnOk result (IfSome ((F.seen files.old).contents) (λ _. IsWholeOf self.new.file (F.whole files.old))) }
        ensures counted { OnOk result (parts_count self.new.file.parts.items + left.new ≡ parts_count self.old.file.parts.items + left.old) }
        ensures len { self.new.file.len ≡ self.old.file.len }
        ensures open { OnOk result (StaysOpen F.Files files.old files.new) }
        ensures stops { IfErr result (StopsReading F.Files files.old files.new) }
    {
        read_window(alloc, files, &mut self.file, left, window)
    }

    /// Reads windows of the open file, which has to be this core file and of which `left` more bytes may be read. Returns
    /// whether all were added to the parts that were read of it.
    ///
    /// # Errors
    ///
    /// `Read` if a call of `files` failed, and `NoMemory`.
    pub fn read_windows<F: Files>(
        &mut self,
        alloc: Global,
        files: &mut F,
        left: &mut u64,
        windows: &[Window],
    ) -> Result<bool, LoadFault>
        requires opened { IsTrue (F.opened files.old) }
        requires whole { IfSome ((F.seen files.old).contents) (λ _. IsWholeOf self.old.file (F.whole files.old)) }
        ensures whole { OnOk result (IfSome ((F.seen files.old).contents) (λ _. IsWholeOf self.new.file (F.whole files.old))) }
        ensures counted { OnOk result (parts_count self.new.file.parts.items + left.new ≡ parts_count self.old.file.parts.items + left.old) }
        ensures len { self.new.file.len ≡ self.old.file.len }
        ensures open { OnOk result (StaysOpen F.Files files.old files.new) }
        ensures stops { IfErr result (StopsReading F.Files files.old files.new) }
    {
        let mut all = true;
        for window in windows {
            if !self.read_more(alloc, files, left, *window)? {
                all = false;
            }
        }
        Ok(all)
    }
}
