//! Writing what is made: first the section, then the text, and then the notes on it.

ghost use Rattle.std.specs.Prelude.{◌≡◌, ◌⊎◌, IfSome, IsSome, IsTrue, OnOk, OnErr};
ghost use Rattle.std.specs.Option.{option_map};
ghost use Rattle.sf_base.specs.Contents.{Unchanged, HoldsPrefix};
ghost use Rattle.sf_base.specs.Faults.{Cause};
ghost use Rattle.sf_text.specs.Output.{output_notes, output_text};
ghost use Rattle.sf_run.specs.Ends.{Delivered, IsNoted, Stored, StoredIn, StoredPart, file_line, seen};
ghost use Rattle.sf_run.specs.Lines.{Says};

use crate::lines::{print_line, print_lines, print_name};
use crate::status::Status;
use section_commands::Made;
use sf_base::{Failed, Files, Sink, put_file};
use sf_text::{Output, put_output};

/// Creates the file and writes the bytes.
fn store<F: Files>(files: &mut F, name: &str, bytes: &[u8]) -> Result<(), Failed>
    requires { IsTrue (F.may_create files.old name.now) }
    ensures whole { OnOk result (StoredIn name.now bytes.now (F.seen files.old) (F.seen files.new)) }
    ensures part { OnErr result (Unchanged ((F.seen files.old).contents) ((F.seen files.new).contents) ⊎ HoldsPrefix ((F.seen files.old).contents) ((F.seen files.new).contents) name.now bytes.now) }
    ensures cause { Cause ((F.seen files.old).write_faults) ((F.seen files.new).write_faults) result }
{
    files.create_file(name)?;
    put_file(files, bytes)
}

/// Stores the section, if one is made for a file.
fn store_made<F: Files>(
    files: &mut F,
    file: Option<&str>,
    section: &Option<Vec<u8>>,
) -> Result<(), Failed>
    requires { IfSome file (λ name. IsTrue (F.may_create files.old name.now)) }
    ensures whole { OnOk result (Stored (option_map (λ name. name.now) file.entry) (option_map (λ v. v.items) section.now) (F.seen files.old) (F.seen files.new)) }
    ensures part { OnErr result (StoredPart (option_map (λ name. name.now) file.entry) (option_map (λ v. v.items) section.now) (F.seen files.old) (F.seen files.new)) }
    ensures cause { Cause ((F.seen files.old).write_faults) ((F.seen files.new).write_faults) result }
{
    let Some(name) = file else {
        return Ok(());
    };
    match section {
        Some(section) => store(files, name, section),
        None => Ok(()),
    }
}

/// Prints that the file could not be written.
fn print_file<E: Sink>(file: Option<&str>, err: &mut E)
    requires { IsSome file }
    ensures { Says (E.seen err.old) (E.seen err.new) (file_line (option_map (λ name. name.now) file.entry)) }
{
    if let Some(name) = file {
        print_name(err, "write file ", name);
    }
}

/// Prints what is noted, if anything is.
fn print_notes<E: Sink>(output: &Output<'_>, err: &mut E)
    ensures { IsNoted (output_notes output.now) (E.seen err.old) (E.seen err.new) }
{
    let Output::Noted { notes, .. } = output else {
        return;
    };
    if !notes.is_empty() {
        print_lines(err, notes);
    }
}

/// Writes the section to its file, if there is one, then the text to the output, and then the notes to the errors. If the
/// section or the text fails, a line is printed for it, and nothing is noted.
pub fn deliver<F: Files, O: Sink, E: Sink>(
    file: Option<&str>,
    made: &Made<'_>,
    files: &mut F,
    out: &mut O,
    err: &mut E,
) -> Status
    requires { IfSome file (λ name. IsTrue (F.may_create files.old name.now)) }
    ensures { Delivered result made.now.outcome (option_map (λ name. name.now) file.entry) (option_map (λ v. v.items) made.now.section) (output_text made.now.output) (output_notes made.now.output)
        (seen (F.seen files.old) (O.seen out.old) (E.seen err.old)) (seen (F.seen files.new) (O.seen out.new) (E.seen err.new)) }
{
    if store_made(files, file, &made.section).is_err() {
        print_file(file, err);
        return Status::Write;
    }
    if put_output(out, &made.output).is_err() {
        print_line(err, "write output");
        return Status::Write;
    }
    print_notes(&made.output, err);
    Status::of(made.outcome)
}
