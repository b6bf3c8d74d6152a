// Writing whole texts and files.
ghost use Rattle.std.specs.Prelude.{◌≡◌, ◌==◌, false, length, OnOk, OnErr, IsTrue, if◌then◌else◌};
ghost use Rattle.sf_base.specs.Contents.{Grows, GrowsByPrefix};
ghost use Rattle.sf_base.specs.Written.{Appends, AppendsPrefix};
ghost use Rattle.sf_base.specs.Faults.{Cause};

use crate::{Failed, Files, Sink};

/// Appends all the bytes to the sink. Allocates nothing.
///
/// # Errors
///
/// `Failed` if a write of the sink failed. A prefix of the bytes was appended then.
pub fn put_all<S: Sink>(sink: &mut S, bytes: &[u8]) -> Result<(), Failed>
    ensures all { OnOk result (Appends ((S.seen sink.old).written) ((S.seen sink.new).written) bytes.now) }
    ensures prefix { OnErr result (AppendsPrefix ((S.seen sink.old).written) ((S.seen sink.new).written) bytes.now) }
    ensures cause { Cause ((S.seen sink.old).faults) ((S.seen sink.new).faults) result }
{
    let mut done = 0;
    while done < bytes.len() {
        done += sink.write(&bytes[done..])?;
    }
    Ok(())
}

/// Appends all the bytes to the created file. Allocates nothing.
///
/// # Errors
///
/// `Failed` if a write failed. A prefix of the bytes was appended then.
pub fn put_file<F: Files>(files: &mut F, bytes: &[u8]) -> Result<(), Failed>
    requires { IsTrue ((F.seen files.old).created) }
    ensures all { OnOk result (
        Grows ((F.seen files.old).contents) ((F.seen files.new).contents) ((F.seen files.old).created_name) bytes.now) }
    ensures prefix { OnErr result (
        GrowsByPrefix ((F.seen files.old).contents) ((F.seen files.new).contents) ((F.seen files.old).created_name) bytes.now) }
    ensures cause { Cause ((F.seen files.old).write_faults) ((F.seen files.new).write_faults) result }
    ensures created { (F.seen files.new).created ≡ (F.seen files.old).created }
    ensures created_name { (F.seen files.new).created_name ≡ (F.seen files.old).created_name }
    // With no bytes there is no call.
    ensures opened { F.opened files.new ≡ (if length bytes.now == 0 then F.opened files.old else false) }
    ensures may_open { F.may_open files.new ≡ F.may_open files.old }
    ensures may_create { F.may_create files.new ≡ F.may_create files.old }
    ensures read_faults { (F.seen files.new).read_faults ≡ (F.seen files.old).read_faults }
    ensures failed_name { (F.seen files.new).failed_name ≡ (F.seen files.old).failed_name }
{
    let mut done = 0;
    while done < bytes.len() {
        done += files.write(&bytes[done..])?;
    }
    Ok(())
}
