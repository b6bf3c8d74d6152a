// Files that never fail.
ghost use Rattle.std.specs.Prelude.{◌≡◌, ◌<◌, ◌≤◌, ◌+◌, ◌-◌, ◌^◌, [], true, false, min, length, take, is_some, Some, None, Ok, IfOk, OnErr, IsTrue};
ghost use Rattle.sf_base.specs.Contents.{Grows, Unchanged};
ghost use Rattle.sf_base.specs.Faults.{Cause};
ghost use Rattle.sf_fakes.specs.Lent.{lent_rest, known_until};
ghost use Rattle.sf_fakes.specs.Pairs.{pairs_of};

use crate::copying::{bytes_from, copy_front};
use crate::lookup::bytes_of;
use sf_base::{Failed, Files};

/// Files that are read from a lent list; of what is written only the number of bytes is kept. They never fail,
/// and allocate nothing. A name that is not in the list is that of an empty file. The contents are known until
/// a file is created, and not after.
#[derive(Drop)]
pub struct SureFiles<'a> {
    names: &'a [(String, Vec<u8>)],
    whole: &'a [u8],
    rest: Option<&'a [u8]>,
    created: bool,
    count: u64,
}

impl<'a> SureFiles<'a> {
    /// Wraps this list of files, in which the first pair with a name counts. None is open or created.
    pub fn new(names: &'a [(String, Vec<u8>)]) -> SureFiles<'a>
        ensures contents { (⟦<SureFiles<'a> as Files>⟧.seen result).contents ≡ Some (pairs_of names.now) }
        ensures created { (⟦<SureFiles<'a> as Files>⟧.seen result).created ≡ false }
        ensures opened { ⟦<SureFiles<'a> as Files>⟧.opened result ≡ false }
        ensures count { result.count ≡ 0 }
    {
        SureFiles {
            names,
            whole: &[],
            rest: None,
            created: false,
            count: 0,
        }
    }

    /// Returns how many bytes were written. The count stops at `u64::MAX`.
    pub fn count(&self) -> u64
        ensures { result ≡ self.now.count }
    {
        self.count
    }
}

impl<'a> Files for SureFiles<'a> {
    ghost seen = { λ files. record { contents = known_until files.created (pairs_of files.names.now); created = files.created; created_name = []; read_faults = 0; write_faults = 0; failed_name = None } };

    ghost opened = { λ files. is_some files.rest };

    ghost rest = { λ files. lent_rest files.rest };

    ghost whole = { λ files. files.whole.now };

    ghost opened_name = { λ _. None };

    ghost may_open = { λ _ _. true };

    ghost may_create = { λ _ _. true };

    fn open_file(&mut self, name: &str) -> Result<(), Failed> {
        self.whole = bytes_of(self.names, name);
        self.rest = Some(self.whole);
        Ok(())
    }

    fn read(&mut self, buf: &mut [u8]) -> Result<usize, Failed> {
        let rest = self.rest.unwrap_or(&[]);
        let n = copy_front(rest, buf, usize::MAX);
        self.rest = Some(&rest[n..]);
        Ok(n)
    }

    fn len(&mut self) -> Option<u64> {
        Some(self.whole.len() as u64)
    }

    fn seek(&mut self, place: u64) -> bool {
        self.rest = Some(bytes_from(self.whole, place));
        true
    }

    fn create_file(&mut self, _name: &str) -> Result<(), Failed> {
        self.rest = None;
        self.created = true;
        Ok(())
    }

    fn write(&mut self, piece: &[u8]) -> Result<usize, Failed>
        requires created { IsTrue self.old.created }
        requires some { 0 < length piece.now }
        ensures all { result ≡ Ok (length piece.now) }
        ensures count { self.new.count ≡ min (self.old.count + length piece.now) (2 ^ 64 - 1) }
        ensures within { IfOk result (λ n. (1 ≤ n) × (n ≤ length piece.now)) }
        ensures grows { IfOk result (λ n. Grows
            (known_until self.old.created (pairs_of self.old.names.now))
            (known_until self.new.created (pairs_of self.new.names.now)) [] (take n piece.now)) }
        ensures unchanged { OnErr result (Unchanged
            (known_until self.old.created (pairs_of self.old.names.now))
            (known_until self.new.created (pairs_of self.new.names.now))) }
        ensures cause { Cause 0 0 result }
        ensures created { self.new.created ≡ self.old.created }
        ensures names { self.new.names ≡ self.old.names }
        ensures opened { self.new.rest ≡ None }
    {
        self.rest = None;
        self.count = self.count.saturating_add(piece.len() as u64);
        Ok(piece.len())
    }
}
