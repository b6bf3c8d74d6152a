//! The program: hands the words of the command line to `sf_run::run`, over the machine's files and
//! standard streams, and ends with its status.
#![tactic(auto)]

ghost use Rattle.std.specs.Prelude.{◌≡◌, ◌↔◌, ◌<◌, codes, map};
ghost use Rattle.std.specs.String.{string_bytes};
ghost use Rattle.sf_words.specs.Files.{counted_items};
ghost use Rattle.sf_run.specs.Commands.{CommandWords, HasNoForm, IsCommand, files_of_command};
ghost use Rattle.sf_run.specs.Ends.{RunEnds, SomeRunEnds, TurnedAway, TurnedAwayUnread, seen};
ghost use Rattle.sf_run.specs.Lines.{Says, line, memory_line, usage_line};

use sf_base::{Files, HostFiles, HostSink, Sink};
use sf_run::{Status, print_line, run};
use std::fs::File;
use std::io::Write;
use std::os::fd::AsFd;
use std::process::ExitCode;
use std::{env, io};

/// Holds the null device on `stream` if the program was started with `stream` closed, so that no file of the run
/// gets its descriptor. A file gets the least descriptor that is free: call this for the streams in their order.
fn hold(rt: &HostRuntime, stream: &impl AsFd) -> io::Result<Option<File>> {
    // A closed descriptor can't be cloned.
    match stream.as_fd().try_clone_to_owned() {
        Ok(_) => Ok(None),
        // Opened for reading: what is written to a stream that was closed still fails.
        Err(_) => File::open(rt, "/dev/null").map(Some),
    }
}

/// Holds the null device on the standard streams that were closed, and returns it. An error means that it can't be
/// opened.
fn hold_streams(rt: &HostRuntime) -> io::Result<[Option<File>; 3]> {
    Ok([
        hold(rt, &rt.stdin())?,
        hold(rt, &rt.stdout())?,
        hold(rt, &rt.stderr())?,
    ])
}

/// Returns the words after the program's name.
fn words(rt: &HostRuntime) -> io::Result<Vec<String>> {
    env::args(rt)?
        .skip(1)
        .collect(rt.alloc())
        .map_err(io::Error::from)
}

/// Runs the command of these words over the machine's files and streams. These tell nothing of what they hold, so of the
/// clauses of `sf_run::run` those are left that need no contents: which status comes with which counts of faults, that a
/// refusal created no file, and that nothing failed unseen.
fn run_on_host<'a, O: Write + Drop, E: Write + Drop>(
    rt: &HostRuntime,
    words: &[String],
    files: &mut HostFiles<'a, HostRuntime>,
    out: &mut HostSink<O>,
    err: &mut HostSink<E>,
) -> Status
    ensures usage { (result ≡ Status.Usage) ↔ HasNoForm (map string_bytes words.now) }
    ensures turned_away { HasNoForm (map string_bytes words.now) → TurnedAway
        (seen (⟦<HostFiles<'a, HostRuntime> as Files>⟧.seen files.old) (⟦<HostSink<O> as Sink>⟧.seen out.old) (⟦<HostSink<E> as Sink>⟧.seen err.old))
        (seen (⟦<HostFiles<'a, HostRuntime> as Files>⟧.seen files.new) (⟦<HostSink<O> as Sink>⟧.seen out.new) (⟦<HostSink<E> as Sink>⟧.seen err.new)) usage_line }
    ensures counted { (command : CommandWords) → IsCommand (map string_bytes words.now) command → 512 < counted_items (files_of_command command) → TurnedAwayUnread result
        (seen (⟦<HostFiles<'a, HostRuntime> as Files>⟧.seen files.old) (⟦<HostSink<O> as Sink>⟧.seen out.old) (⟦<HostSink<E> as Sink>⟧.seen err.old))
        (seen (⟦<HostFiles<'a, HostRuntime> as Files>⟧.seen files.new) (⟦<HostSink<O> as Sink>⟧.seen out.new) (⟦<HostSink<E> as Sink>⟧.seen err.new)) }
    ensures ends { (command : CommandWords) → IsCommand (map string_bytes words.now) command → RunEnds result command
        (seen (⟦<HostFiles<'a, HostRuntime> as Files>⟧.seen files.old) (⟦<HostSink<O> as Sink>⟧.seen out.old) (⟦<HostSink<E> as Sink>⟧.seen err.old))
        (seen (⟦<HostFiles<'a, HostRuntime> as Files>⟧.seen files.new) (⟦<HostSink<O> as Sink>⟧.seen out.new) (⟦<HostSink<E> as Sink>⟧.seen err.new)) }
    ensures some { SomeRunEnds result
        (seen (⟦<HostFiles<'a, HostRuntime> as Files>⟧.seen files.old) (⟦<HostSink<O> as Sink>⟧.seen out.old) (⟦<HostSink<E> as Sink>⟧.seen err.old))
        (seen (⟦<HostFiles<'a, HostRuntime> as Files>⟧.seen files.new) (⟦<HostSink<O> as Sink>⟧.seen out.new) (⟦<HostSink<E> as Sink>⟧.seen err.new)) }
{
    run(rt.alloc(), words, files, out, err)
}

/// Prints that memory ran out before the words were read, and returns the status.
fn out_of_memory<E: Sink>(err: &mut E) -> Status
    ensures status { result ≡ Status.Memory }
    ensures says { Says (E.seen err.old) (E.seen err.new) memory_line }
{
    print_line(err, "memory");
    Status::Memory
}

/// Prints that the null device can't be opened, and returns the status.
fn not_held<E: Sink>(err: &mut E) -> Status
    ensures status { result ≡ Status.Read }
    ensures says { Says (E.seen err.old) (E.seen err.new) (line (codes "read /dev/null")) }
{
    print_line(err, "read /dev/null");
    Status::Read
}

/// Runs the command of the command line's words over the machine's files and streams.
fn run_words<'a, O: Write + Drop, E: Write + Drop>(
    rt: &HostRuntime,
    files: &mut HostFiles<'a, HostRuntime>,
    out: &mut HostSink<O>,
    err: &mut HostSink<E>,
) -> Status
    ensures { SomeRunEnds result
        (seen (⟦<HostFiles<'a, HostRuntime> as Files>⟧.seen files.old) (⟦<HostSink<O> as Sink>⟧.seen out.old) (⟦<HostSink<E> as Sink>⟧.seen err.old))
        (seen (⟦<HostFiles<'a, HostRuntime> as Files>⟧.seen files.new) (⟦<HostSink<O> as Sink>⟧.seen out.new) (⟦<HostSink<E> as Sink>⟧.seen err.new)) }
{
    match words(rt) {
        Ok(words) => run_on_host(rt, &words, files, out, err),
        // Words that are no text have no form.
        Err(fault) if fault.kind() != io::ErrorKind::OutOfMemory => {
            run_on_host(rt, &[], files, out, err)
        }
        Err(_) => out_of_memory(err),
    }
}

fn main(rt: HostRuntime) -> ExitCode {
    let mut err = HostSink::new(rt.stderr());
    let status = match hold_streams(&rt) {
        Ok(_held) => {
            let mut files = HostFiles::new(&rt);
            let mut out = HostSink::new(rt.stdout());
            run_words(&rt, &mut files, &mut out, &mut err)
        }
        Err(_) => not_held(&mut err),
    };
    ExitCode::from(status.code())
}
