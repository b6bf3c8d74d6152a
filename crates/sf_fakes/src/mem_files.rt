// Files in memory.
ghost use Rattle.std.specs.Prelude.{◌≡◌, ◌⊎◌, ◌↔◌, ◌<◌, ◌≤◌, [], true, false, min, length, take, drop, is_some, is_ok, Some, None, IfSome, IfOk, OnOk, OnErr, IsErr, IsTrue, vec_len, if◌then◌else◌};
ghost use Rattle.std.specs.Option.{ForSome, option_map};
ghost use Rattle.std.specs.String.{string_bytes};
ghost use Rattle.sf_base.specs.Contents.{contents_of, Changes, Holds, Grows, Moves};
ghost use Rattle.sf_base.specs.Faults.{Cause, one_more};
ghost use Rattle.sf_fakes.specs.Calls.{IsListed, next_call};
ghost use Rattle.sf_fakes.specs.Pairs.{pairs_of, has_name, AddsName};
ghost use Rattle.sf_fakes.specs.Reading.{rest_at, whole_at, created_file_name, opened_name_of};

use crate::calls::Calls;
use crate::lookup::{append_file, copy_name, find_bytes, find_file, name_in, set_file};
use crate::reading::{Reading, len_at, read_at};
use sf_base::{Failed, Files, NoMemory, count_fault};
use std::alloc::Global;

/// Files in memory, with known contents. One read or write moves as many bytes as it can, up to a set
/// number, and the calls whose numbers are listed fail.
#[derive(Drop)]
pub struct MemFiles {
    alloc: Global,
    files: Vec<(String, Vec<u8>)>,
    most: usize,
    calls: Calls,
    opened: Option<Reading>,
    created: Option<usize>,
    failed: Option<String>,
    read_faults: u64,
    write_faults: u64,
    ghost some: { 0 < most },
    ghost opened_stands: { ForSome opened (λ reading. reading.place < vec_len files) },
    ghost created_stands: { ForSome created (λ place. place < vec_len files) },
}

impl MemFiles {
    /// Creates an empty list of files. A read or a write moves at most `most` bytes. The calls of all six
    /// methods are counted together from 1, and those with a number in `fails` are to fail.
    pub fn new(alloc: Global, most: usize, fails: Vec<u64>) -> MemFiles
        requires { 0 < most }
        ensures contents { (⟦<MemFiles as Files>⟧.seen result).contents ≡ Some [] }
        ensures created { (⟦<MemFiles as Files>⟧.seen result).created ≡ false }
        ensures opened { ⟦<MemFiles as Files>⟧.opened result ≡ false }
        ensures read_faults { (⟦<MemFiles as Files>⟧.seen result).read_faults ≡ 0 }
        ensures write_faults { (⟦<MemFiles as Files>⟧.seen result).write_faults ≡ 0 }
        ensures failed_name { (⟦<MemFiles as Files>⟧.seen result).failed_name ≡ None }
        ensures most { result.most ≡ most }
        ensures made { result.calls.made ≡ 0 }
        ensures fails { result.calls.fails.items ≡ fails.items }
    {
        MemFiles {
            alloc,
            files: Vec::new(alloc),
            most,
            calls: Calls::new(fails),
            opened: None,
            created: None,
            failed: None,
            read_faults: 0,
            write_faults: 0,
        }
    }

    /// Gives the file of this name these bytes, and closes the file that was open.
    ///
    /// # Errors
    ///
    /// `NoMemory`. Nothing is changed then, and no file is closed.
    pub fn put(&mut self, name: &str, bytes: Vec<u8>) -> Result<(), NoMemory>
        ensures ok { OnOk result (Holds
            ((⟦<MemFiles as Files>⟧.seen self.old).contents) ((⟦<MemFiles as Files>⟧.seen self.new).contents) name.now bytes.items) }
        ensures names { OnOk result (
            AddsName name.now (pairs_of self.old.files.items) (pairs_of self.new.files.items)) }
        ensures closed { self.new.opened ≡ (if is_ok result then None else self.old.opened) }
        ensures err { OnErr result (
            (⟦<MemFiles as Files>⟧.seen self.new).contents ≡ (⟦<MemFiles as Files>⟧.seen self.old).contents) }
        ensures created { self.new.created ≡ self.old.created }
        ensures created_name { (⟦<MemFiles as Files>⟧.seen self.new).created_name ≡ (⟦<MemFiles as Files>⟧.seen self.old).created_name }
        ensures read_faults { self.new.read_faults ≡ self.old.read_faults }
        ensures write_faults { self.new.write_faults ≡ self.old.write_faults }
        ensures failed_name { self.new.failed ≡ self.old.failed }
        ensures made { self.new.calls.made ≡ self.old.calls.made }
        ensures fails { self.new.calls.fails.items ≡ self.old.calls.fails.items }
        ensures most { self.new.most ≡ self.old.most }
    {
        set_file(self.alloc, &mut self.files, name, bytes)?;
        self.opened = None;
        Ok(())
    }

    /// Returns the bytes of the file of this name, or `None` if and only if there is no such file.
    pub fn get(&self, name: &str) -> Option<&[u8]>
        ensures found { is_some result ≡ has_name (pairs_of self.now.files.items) name.now }
        ensures bytes { IfSome result (λ bytes.
            bytes.now ≡ contents_of (pairs_of self.now.files.items) name.now) }
    {
        find_bytes(&self.files, name)
    }

    // Copies the name of the open file, if there is memory for it.
    fn copy_opened_name(&self) -> Option<String>
        ensures { IfSome (option_map string_bytes result) (λ name.
            opened_name_of (pairs_of self.now.files.items) self.now.opened ≡ Some name) }
    {
        let reading = self.opened?;
        copy_name(self.alloc, name_in(&self.files, reading.place))
    }
}

impl Files for MemFiles {
    ghost seen = { λ files. record { contents = Some (pairs_of files.files.items); created = is_some files.created; created_name = created_file_name (pairs_of files.files.items) files.created; read_faults = files.read_faults; write_faults = files.write_faults; failed_name = option_map string_bytes files.failed } };

    ghost opened = { λ files. is_some files.opened };

    ghost rest = { λ files. rest_at (pairs_of files.files.items) files.opened };

    ghost whole = { λ files. whole_at (pairs_of files.files.items) files.opened };

    ghost opened_name = { λ files. opened_name_of (pairs_of files.files.items) files.opened };

    ghost may_open = { λ _ _. true };

    ghost may_create = { λ _ _. true };

    fn open_file(&mut self, name: &str) -> Result<(), Failed>
        // The call fails if it is listed or if the name isn't there, and in no other case.
        ensures failed { IsErr result ↔ (IsListed self.old.calls.fails.items self.old.calls.made
            ⊎ (has_name (pairs_of self.old.files.items) name.now ≡ false)) }
        ensures opened { is_some self.new.opened ≡ is_ok result }
        ensures rest { OnOk result (rest_at (pairs_of self.new.files.items) self.new.opened
            ≡ contents_of (pairs_of self.new.files.items) name.now) }
        ensures whole { OnOk result (whole_at (pairs_of self.new.files.items) self.new.opened
            ≡ contents_of (pairs_of self.new.files.items) name.now) }
        ensures opened_name { OnOk result (IfSome (opened_name_of (pairs_of self.new.files.items) self.new.opened) (λ opened. opened ≡ name.now)) }
        ensures failed_name { OnErr result (IfSome (option_map string_bytes self.new.failed) (λ failed. failed ≡ name.now)) }
        ensures none_failed { OnOk result (self.new.failed ≡ self.old.failed) }
        ensures contents { pairs_of self.new.files.items ≡ pairs_of self.old.files.items }
        ensures created { self.new.created ≡ self.old.created }
        ensures read_faults { self.new.read_faults ≡
            (if is_ok result then self.old.read_faults else one_more self.old.read_faults) }
        ensures cause { Cause self.old.read_faults self.new.read_faults result }
        ensures write_faults { self.new.write_faults ≡ self.old.write_faults }
        ensures made { self.new.calls.made ≡ next_call self.old.calls.made }
        ensures fails { self.new.calls.fails.items ≡ self.old.calls.fails.items }
        ensures most { self.new.most ≡ self.old.most }
    {
        let place = find_file(&self.files, name);
        if self.calls.fails_next() || place.is_none() {
            self.opened = None;
            self.failed = copy_name(self.alloc, name);
            count_fault(&mut self.read_faults);
            return Err(Failed);
        }
        self.opened = place.map(|place| Reading { place, done: 0 });
        Ok(())
    }

    fn read(&mut self, buf: &mut [u8]) -> Result<usize, Failed>
        requires opened { IsTrue (is_some self.old.opened) }
        requires room { 0 < length buf.old }
        // The call fails if it is listed, and in no other case.
        ensures failed { IsErr result ↔ IsListed self.old.calls.fails.items self.old.calls.made }
        ensures count { IfOk result (λ n. n ≡ min (min
            (length (rest_at (pairs_of self.old.files.items) self.old.opened)) (length buf.old)) self.old.most) }
        ensures moves { IfOk result (λ n. Moves n
            (rest_at (pairs_of self.old.files.items) self.old.opened)
            (rest_at (pairs_of self.new.files.items) self.new.opened) buf.new) }
        ensures whole { OnOk result (whole_at (pairs_of self.new.files.items) self.new.opened
            ≡ whole_at (pairs_of self.old.files.items) self.old.opened) }
        ensures opened_name { OnOk result (opened_name_of (pairs_of self.new.files.items) self.new.opened
            ≡ opened_name_of (pairs_of self.old.files.items) self.old.opened) }
        ensures failed_name { OnErr result (IfSome (option_map string_bytes self.new.failed) (λ failed.
            opened_name_of (pairs_of self.old.files.items) self.old.opened ≡ Some failed)) }
        ensures none_failed { OnOk result (self.new.failed ≡ self.old.failed) }
        ensures opened { is_some self.new.opened ≡ is_ok result }
        ensures contents { pairs_of self.new.files.items ≡ pairs_of self.old.files.items }
        ensures created { self.new.created ≡ self.old.created }
        ensures read_faults { self.new.read_faults ≡
            (if is_ok result then self.old.read_faults else one_more self.old.read_faults) }
        ensures cause { Cause self.old.read_faults self.new.read_faults result }
        ensures write_faults { self.new.write_faults ≡ self.old.write_faults }
        ensures made { self.new.calls.made ≡ next_call self.old.calls.made }
        ensures fails { self.new.calls.fails.items ≡ self.old.calls.fails.items }
        ensures most { self.new.most ≡ self.old.most }
    {
        if !self.calls.fails_next() {
            if let Some(reading) = self.opened {
                let n = read_at(&self.files, reading.place, reading.done, buf, self.most);
                self.opened = Some(Reading {
                    place: reading.place,
                    done: reading.done + n,
                });
                return Ok(n);
            }
        }
        self.failed = self.copy_opened_name();
        self.opened = None;
        count_fault(&mut self.read_faults);
        Err(Failed)
    }

    fn len(&mut self) -> Option<u64>
        requires opened { IsTrue (is_some self.old.opened) }
        // The call gives nothing if it is listed, and in no other case.
        ensures failed { (result ≡ None) ↔ IsListed self.old.calls.fails.items self.old.calls.made }
        ensures len { IfSome result (λ n. n ≡ length (whole_at (pairs_of self.old.files.items) self.old.opened)) }
        ensures opened { self.new.opened ≡ self.old.opened }
        ensures contents { self.new.files ≡ self.old.files }
        ensures created { self.new.created ≡ self.old.created }
        ensures failed_name { self.new.failed ≡ self.old.failed }
        ensures read_faults { self.new.read_faults ≡ self.old.read_faults }
        ensures write_faults { self.new.write_faults ≡ self.old.write_faults }
        ensures made { self.new.calls.made ≡ next_call self.old.calls.made }
        ensures fails { self.new.calls.fails.items ≡ self.old.calls.fails.items }
        ensures most { self.new.most ≡ self.old.most }
    {
        if self.calls.fails_next() {
            return None;
        }
        let reading = self.opened?;
        Some(len_at(&self.files, reading.place))
    }

    fn seek(&mut self, place: u64) -> bool
        requires opened { IsTrue (is_some self.old.opened) }
        // The call fails if it is listed, and in no other case.
        ensures failed { (result ≡ false) ↔ IsListed self.old.calls.fails.items self.old.calls.made }
        ensures moved { IsTrue result → rest_at (pairs_of self.new.files.items) self.new.opened
            ≡ drop place (whole_at (pairs_of self.old.files.items) self.old.opened) }
        ensures whole { whole_at (pairs_of self.new.files.items) self.new.opened
            ≡ whole_at (pairs_of self.old.files.items) self.old.opened }
        ensures opened { IsTrue (is_some self.new.opened) }
        ensures opened_name { opened_name_of (pairs_of self.new.files.items) self.new.opened
            ≡ opened_name_of (pairs_of self.old.files.items) self.old.opened }
        ensures contents { self.new.files ≡ self.old.files }
        ensures created { self.new.created ≡ self.old.created }
        ensures failed_name { self.new.failed ≡ self.old.failed }
        ensures read_faults { self.new.read_faults ≡ self.old.read_faults }
        ensures write_faults { self.new.write_faults ≡ self.old.write_faults }
        ensures made { self.new.calls.made ≡ next_call self.old.calls.made }
        ensures fails { self.new.calls.fails.items ≡ self.old.calls.fails.items }
        ensures most { self.new.most ≡ self.old.most }
    {
        if self.calls.fails_next() {
            return false;
        }
        match self.opened {
            None => false,
            Some(reading) => {
                self.opened = Some(Reading {
                    place: reading.place,
                    done: place as usize,
                });
                true
            }
        }
    }

    fn create_file(&mut self, name: &str) -> Result<(), Failed>
        // The call fails if it is listed, and if memory runs out.
        ensures failed { IsListed self.old.calls.fails.items self.old.calls.made → IsErr result }
        ensures created { is_some self.new.created ≡ is_ok result }
        ensures created_name { OnOk result (
            created_file_name (pairs_of self.new.files.items) self.new.created ≡ name.now) }
        ensures holds { OnOk result (
            Changes name.now [] (pairs_of self.old.files.items) (pairs_of self.new.files.items)) }
        ensures names { OnOk result (
            AddsName name.now (pairs_of self.old.files.items) (pairs_of self.new.files.items)) }
        ensures unchanged { OnErr result (pairs_of self.new.files.items ≡ pairs_of self.old.files.items) }
        ensures opened { self.new.opened ≡ None }
        ensures write_faults { self.new.write_faults ≡
            (if is_ok result then self.old.write_faults else one_more self.old.write_faults) }
        ensures cause { Cause self.old.write_faults self.new.write_faults result }
        ensures read_faults { self.new.read_faults ≡ self.old.read_faults }
        ensures failed_name { self.new.failed ≡ self.old.failed }
        ensures made { self.new.calls.made ≡ next_call self.old.calls.made }
        ensures fails { self.new.calls.fails.items ≡ self.old.calls.fails.items }
        ensures most { self.new.most ≡ self.old.most }
    {
        self.opened = None;
        if !self.calls.fails_next() {
            let empty = Vec::new(self.alloc);
            if let Ok(place) = set_file(self.alloc, &mut self.files, name, empty) {
                self.created = Some(place);
                return Ok(());
            }
        }
        self.created = None;
        count_fault(&mut self.write_faults);
        Err(Failed)
    }

    fn write(&mut self, piece: &[u8]) -> Result<usize, Failed>
        requires created { IsTrue (is_some self.old.created) }
        requires some { 0 < length piece.now }
        // The call fails if it is listed, and if memory runs out.
        ensures failed { IsListed self.old.calls.fails.items self.old.calls.made → IsErr result }
        ensures count { IfOk result (λ n. n ≡ min (length piece.now) self.old.most) }
        ensures within { IfOk result (λ n. (1 ≤ n) × (n ≤ length piece.now)) }
        ensures grows { IfOk result (λ n. Grows
            (Some (pairs_of self.old.files.items)) (Some (pairs_of self.new.files.items))
            (created_file_name (pairs_of self.old.files.items) self.old.created) (take n piece.now)) }
        ensures unchanged { OnErr result (pairs_of self.new.files.items ≡ pairs_of self.old.files.items) }
        ensures created { self.new.created ≡ self.old.created }
        ensures created_name { created_file_name (pairs_of self.new.files.items) self.new.created
            ≡ created_file_name (pairs_of self.old.files.items) self.old.created }
        ensures opened { self.new.opened ≡ None }
        ensures write_faults { self.new.write_faults ≡
            (if is_ok result then self.old.write_faults else one_more self.old.write_faults) }
        ensures cause { Cause self.old.write_faults self.new.write_faults result }
        ensures read_faults { self.new.read_faults ≡ self.old.read_faults }
        ensures failed_name { self.new.failed ≡ self.old.failed }
        ensures made { self.new.calls.made ≡ next_call self.old.calls.made }
        ensures fails { self.new.calls.fails.items ≡ self.old.calls.fails.items }
        ensures most { self.new.most ≡ self.old.most }
    {
        self.opened = None;
        if !self.calls.fails_next() {
            if let Some(place) = self.created {
                let n = piece.len().min(self.most);
                if let Ok(()) = append_file(&mut self.files, place, &piece[..n]) {
                    return Ok(n);
                }
            }
        }
        count_fault(&mut self.write_faults);
        Err(Failed)
    }
}
