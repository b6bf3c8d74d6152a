// The files of the outside, as a program sees them.
ghost use Rattle.std.specs.Prelude.{◌≡◌, ◌<◌, ◌≤◌, ℕ, Bool, false, List, [], Option, Some, length, take, drop, is_ok, IsTrue, IfOk, IfSome, OnOk, OnErr};
ghost use Rattle.sf_base.specs.Contents.{contents_of, Unchanged, Holds, Grows, Moves};
ghost use Rattle.sf_base.specs.Seen.{FilesSeen, OnlyReads};
ghost use Rattle.sf_base.specs.Faults.{Cause};

use crate::Failed;

/// Files by name: one may be opened and read, and one created and written, at a time.
///
/// What the files of an implementation hold may be known, or not. Its contracts hold in either case.
pub trait Files {
    /// What the files hold, which one is created, how many calls have failed, and which file's open or read failed last.
    ghost seen: { Self → FilesSeen };

    /// Whether a file is open.
    ghost opened: { Self → Bool };

    /// What is left to read of the open file. It counts only if contents are known and a file is open.
    ghost rest: { Self → List ℕ };

    /// All the bytes of the open file. They count only if contents are known and a file is open.
    ghost whole: { Self → List ℕ };

    /// The name of the open file, if it is known. It counts only if a file is open.
    ghost opened_name: { Self → Option (List ℕ) };

    /// Whether a name may be opened. No call changes it.
    ghost may_open: { Self → List ℕ → Bool };

    /// Whether a name may be created. No call changes it.
    ghost may_create: { Self → List ℕ → Bool };

    /// Opens a file for reading, from its start, and closes the file that was open before.
    ///
    /// # Errors
    ///
    /// `Failed` if the file can't be opened, for example if it is missing. No file is open then.
    fn open_file(&mut self, name: &str) -> Result<(), Failed>
        requires { IsTrue (may_open self.old name.now) }
        ensures opened { opened self.new ≡ is_ok result }
        ensures rest { OnOk result (IfSome ((seen self.new).contents) (λ files.
            rest self.new ≡ contents_of files name.now)) }
        ensures whole { OnOk result (IfSome ((seen self.new).contents) (λ files.
            whole self.new ≡ contents_of files name.now)) }
        ensures opened_name { OnOk result (IfSome (opened_name self.new) (λ opened. opened ≡ name.now)) }
        ensures failed_name { OnErr result (IfSome ((seen self.new).failed_name) (λ failed. failed ≡ name.now)) }
        ensures none_failed { OnOk result ((seen self.new).failed_name ≡ (seen self.old).failed_name) }
        ensures may_open { may_open self.new ≡ may_open self.old }
        ensures may_create { may_create self.new ≡ may_create self.old }
        ensures cause { Cause ((seen self.old).read_faults) ((seen self.new).read_faults) result }
        ensures reads { OnlyReads (seen self.old) (seen self.new) };

    /// Moves the next bytes of the open file to the front of `buf`, and returns how many. 0 means that the
    /// file is at its end.
    ///
    /// # Errors
    ///
    /// `Failed` if the read failed. No file is open then.
    fn read(&mut self, buf: &mut [u8]) -> Result<usize, Failed>
        requires opened { IsTrue (opened self.old) }
        requires room { 0 < length buf.old }
        ensures within { IfOk result (λ n. n ≤ length buf.old) }
        ensures moves { IfOk result (λ n. IfSome ((seen self.old).contents) (λ _.
            Moves n (rest self.old) (rest self.new) buf.new)) }
        ensures whole { OnOk result (whole self.new ≡ whole self.old) }
        ensures opened_name { OnOk result (opened_name self.new ≡ opened_name self.old) }
        ensures failed_name { OnErr result (IfSome ((seen self.new).failed_name) (λ failed. opened_name self.old ≡ Some failed)) }
        ensures none_failed { OnOk result ((seen self.new).failed_name ≡ (seen self.old).failed_name) }
        ensures opened { opened self.new ≡ is_ok result }
        ensures may_open { may_open self.new ≡ may_open self.old }
        ensures may_create { may_create self.new ≡ may_create self.old }
        ensures cause { Cause ((seen self.old).read_faults) ((seen self.new).read_faults) result }
        ensures reads { OnlyReads (seen self.old) (seen self.new) };

    /// Returns how many bytes the open file has, or nothing if that isn't known before they are read, as for a pipe.
    fn len(&mut self) -> Option<u64>
        requires opened { IsTrue (opened self.old) }
        ensures len { IfSome result (λ n. IfSome ((seen self.old).contents) (λ _. n ≡ length (whole self.old))) }
        ensures whole { whole self.new ≡ whole self.old }
        ensures rest { rest self.new ≡ rest self.old }
        ensures opened { IsTrue (opened self.new) }
        ensures opened_name { opened_name self.new ≡ opened_name self.old }
        ensures may_open { may_open self.new ≡ may_open self.old }
        ensures may_create { may_create self.new ≡ may_create self.old }
        ensures same { seen self.new ≡ seen self.old };

    /// Moves to a place of the open file, in bytes from its start, and returns whether it could: what is left to read
    /// begins there. A pipe can't be read from another place, and that counts as no fault.
    fn seek(&mut self, place: u64) -> bool
        requires opened { IsTrue (opened self.old) }
        ensures moved { IsTrue result → IfSome ((seen self.old).contents) (λ _.
            rest self.new ≡ drop place (whole self.old)) }
        ensures whole { whole self.new ≡ whole self.old }
        ensures opened { IsTrue (opened self.new) }
        ensures opened_name { opened_name self.new ≡ opened_name self.old }
        ensures may_open { may_open self.new ≡ may_open self.old }
        ensures may_create { may_create self.new ≡ may_create self.old }
        ensures same { seen self.new ≡ seen self.old };

    /// Creates the file of this name, empty, for writing. No file is open after it.
    ///
    /// # Errors
    ///
    /// `Failed` if the file can't be created. No file is created then.
    fn create_file(&mut self, name: &str) -> Result<(), Failed>
        requires { IsTrue (may_create self.old name.now) }
        ensures created { (seen self.new).created ≡ is_ok result }
        ensures created_name { OnOk result (IfSome ((seen self.new).contents) (λ _.
            (seen self.new).created_name ≡ name.now)) }
        ensures holds { OnOk result (Holds ((seen self.old).contents) ((seen self.new).contents) name.now []) }
        ensures unchanged { OnErr result (Unchanged ((seen self.old).contents) ((seen self.new).contents)) }
        ensures opened { opened self.new ≡ false }
        ensures may_open { may_open self.new ≡ may_open self.old }
        ensures may_create { may_create self.new ≡ may_create self.old }
        ensures cause { Cause ((seen self.old).write_faults) ((seen self.new).write_faults) result }
        ensures read_faults { (seen self.new).read_faults ≡ (seen self.old).read_faults }
        ensures failed_name { (seen self.new).failed_name ≡ (seen self.old).failed_name };

    /// Appends the first bytes of `piece` to the created file, one or more, and returns how many. No file is
    /// open after it.
    ///
    /// # Errors
    ///
    /// `Failed` if the write failed. Nothing was appended then.
    fn write(&mut self, piece: &[u8]) -> Result<usize, Failed>
        requires created { IsTrue ((seen self.old).created) }
        requires some { 0 < length piece.now }
        ensures within { IfOk result (λ n. (1 ≤ n) × (n ≤ length piece.now)) }
        ensures grows { IfOk result (λ n.
            Grows ((seen self.old).contents) ((seen self.new).contents) ((seen self.old).created_name) (take n piece.now)) }
        ensures unchanged { OnErr result (Unchanged ((seen self.old).contents) ((seen self.new).contents)) }
        ensures created { (seen self.new).created ≡ (seen self.old).created }
        ensures created_name { (seen self.new).created_name ≡ (seen self.old).created_name }
        ensures opened { opened self.new ≡ false }
        ensures may_open { may_open self.new ≡ may_open self.old }
        ensures may_create { may_create self.new ≡ may_create self.old }
        ensures cause { Cause ((seen self.old).write_faults) ((seen self.new).write_faults) result }
        ensures read_faults { (seen self.new).read_faults ≡ (seen self.old).read_faults }
        ensures failed_name { (seen self.new).failed_name ≡ (seen self.old).failed_name };
}
