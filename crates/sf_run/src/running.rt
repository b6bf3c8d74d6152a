//! One run of a command: its words, how many files they name, loading, making, and delivering.

ghost use Rattle.std.specs.Prelude.{◌≡◌, ◌↔◌, ◌<◌, ◌≤◌, ℕ, List, All, map, IfOk, IfSome, IsOk, IsTrue, OnErr};
ghost use Rattle.std.specs.String.{string_bytes};
ghost use Rattle.core_parts.specs.declared.loading.Wanted.TheVariants.{Whole};
ghost use Rattle.sf_words.specs.Files.{counted_items, files_of, item_names};
ghost use Rattle.sf_run.specs.Commands.{CanBeAsked, CommandWords, HasNoForm, IsCommand, files_of_command, words_of};
ghost use Rattle.sf_words.specs.Loading.{AreReadWhole};
ghost use Rattle.sf_run.specs.Ends.{IsLoadedFor, RunEnds, RunIsComplete, SomeRunEnds, TurnedAway, TurnedAwayUnread, seen};
ghost use Rattle.sf_run.specs.Lines.{usage_line};

use crate::command::{Command, command_words};
use crate::deliver::deliver;
use crate::lines::print_line;
use crate::refusing::refuse;
use crate::status::Status;
use core_parts::Wanted;
use section_commands::Unmade;
use sf_base::{Files, Sink};
use sf_words::{CommandFiles, Limit, Loaded, Refusal, load_all, load_cores_again};
use std::alloc::Global;

/// The most files that the list of a command names.
const ITEM_COUNT: usize = 512;

/// How often the parts of a core file that were missed are read, before all of it is.
const ROUNDS: u32 = 6;

/// Makes what is asked for of the files that were loaded and writes it, or prints why nothing was made. If more of a core
/// file has to be read, returns the addresses of its memory, and leaves everything as it was.
fn make_and_deliver<'a, F: Files, O: Sink, E: Sink>(
    alloc: Global,
    command: &Command<'a>,
    named: &CommandFiles<'a>,
    loaded: &[Loaded<'a>],
    files: &mut F,
    out: &mut O,
    err: &mut E,
) -> Result<Status, Vec<u64>>
    requires form { CanBeAsked (words_of command.now) }
    requires named { files_of named.now ≡ files_of_command (words_of command.now) }
    requires few { counted_items (files_of_command (words_of command.now)) ≤ 512 }
    requires loaded { IsLoadedFor (words_of command.now) ((F.seen files.old).contents) loaded.now }
    requires create { IfSome named.now.out (λ name. IsTrue (F.may_create files.old name.now)) }
    ensures ends { IfOk result (λ status. RunEnds status (words_of command.now)
        (seen (F.seen files.old) (O.seen out.old) (E.seen err.old)) (seen (F.seen files.new) (O.seen out.new) (E.seen err.new))) }
    ensures left { OnErr result (seen (F.seen files.new) (O.seen out.new) (E.seen err.new) ≡ seen (F.seen files.old) (O.seen out.old) (E.seen err.old)) }
    ensures may_open { OnErr result (F.may_open files.new ≡ F.may_open files.old) }
    ensures may_create { OnErr result (F.may_create files.new ≡ F.may_create files.old) }
    ensures whole { AreReadWhole loaded.now → IsOk result }
{
    match command.make(alloc, loaded) {
        Ok(made) => Ok(deliver(named.out, &made, files, out, err)),
        Err(Unmade::Refused(refusal)) => Ok(refuse(&refusal, err)),
        Err(Unmade::Unread(addresses)) => Err(addresses),
    }
}

/// Loads the core file once more, and then makes what is asked for, writes it or prints as before. No other file is opened
/// again, since a pipe can be read only once.
fn deliver_again<'a, F: Files, O: Sink, E: Sink>(
    alloc: Global,
    command: &Command<'a>,
    named: &CommandFiles<'a>,
    loaded: &mut Vec<Loaded<'a>>,
    wanted: Wanted<'_>,
    files: &mut F,
    out: &mut O,
    err: &mut E,
) -> Result<Status, Vec<u64>>
    requires form { CanBeAsked (words_of command.now) }
    requires named { files_of named.now ≡ files_of_command (words_of command.now) }
    requires few { counted_items (files_of_command (words_of command.now)) ≤ 512 }
    requires loaded { IsLoadedFor (words_of command.now) ((F.seen files.old).contents) loaded.old.items }
    requires open { All (λ name. IsTrue (F.may_open files.old name)) (item_names (files_of_command (words_of command.now))) }
    requires create { IfSome named.now.out (λ name. IsTrue (F.may_create files.old name.now)) }
    ensures ends { IfOk result (λ status. RunEnds status (words_of command.now)
        (seen (F.seen files.old) (O.seen out.old) (E.seen err.old)) (seen (F.seen files.new) (O.seen out.new) (E.seen err.new))) }
    ensures left { OnErr result (seen (F.seen files.new) (O.seen out.new) (E.seen err.new) ≡ seen (F.seen files.old) (O.seen out.old) (E.seen err.old)) }
    ensures may_open { OnErr result (F.may_open files.new ≡ F.may_open files.old) }
    ensures may_create { OnErr result (F.may_create files.new ≡ F.may_create files.old) }
    ensures loaded { OnErr result (IsLoadedFor (words_of command.now) ((F.seen files.old).contents) loaded.new.items) }
    ensures whole { wanted.entry ≡ Wanted.Whole → IsOk result }
{
    match load_cores_again(alloc, loaded, files, wanted) {
        Ok(()) => make_and_deliver(alloc, command, named, loaded, files, out, err),
        Err(refusal) => Ok(refuse(&refusal, err)),
    }
}

/// Loads the core file with the parts that were missed, until nothing is missed, or nothing else; in the end all of it.
fn deliver_in_rounds<'a, F: Files, O: Sink, E: Sink>(
    alloc: Global,
    command: &Command<'a>,
    named: &CommandFiles<'a>,
    mut loaded: Vec<Loaded<'a>>,
    mut missed: Vec<u64>,
    files: &mut F,
    out: &mut O,
    err: &mut E,
) -> Status
    requires form { CanBeAsked (words_of command.now) }
    requires named { files_of named.now ≡ files_of_command (words_of command.now) }
    requires few { counted_items (files_of_command (words_of command.now)) ≤ 512 }
    requires loaded { IsLoadedFor (words_of command.now) ((F.seen files.old).contents) loaded.items }
    requires open { All (λ name. IsTrue (F.may_open files.old name)) (item_names (files_of_command (words_of command.now))) }
    requires create { IfSome named.now.out (λ name. IsTrue (F.may_create files.old name.now)) }
    ensures { RunEnds result (words_of command.now)
        (seen (F.seen files.old) (O.seen out.old) (E.seen err.old)) (seen (F.seen files.new) (O.seen out.new) (E.seen err.new)) }
{
    for round in 0..ROUNDS {
        let wanted = Wanted::Memory(&missed);
        match deliver_again(alloc, command, named, &mut loaded, wanted, files, out, err) {
            Ok(status) => return status,
            Err(addresses) => {
                // All of these were wanted now: one more round would miss them again.
                if missed.ends_with(&addresses) {
                    break;
                }
                if missed.extend_from_slice(&addresses).is_err() {
                    return refuse(&Refusal::Memory, err);
                }
            }
        }
    }
    let wanted = Wanted::Whole;
    match deliver_again(alloc, command, named, &mut loaded, wanted, files, out, err) {
        Ok(status) => status,
        Err(_) => unreachable!(),
    }
}

/// Loads the files of a command, makes what is asked for and writes it, or prints why nothing was made. Of a core file it
/// reads at first what most walks need.
fn load_and_deliver<'a, F: Files, O: Sink, E: Sink>(
    alloc: Global,
    command: &Command<'a>,
    named: &CommandFiles<'a>,
    files: &mut F,
    out: &mut O,
    err: &mut E,
) -> Status
    requires form { CanBeAsked (words_of command.now) }
    requires named { files_of named.now ≡ files_of_command (words_of command.now) }
    requires few { counted_items (files_of_command (words_of command.now)) ≤ 512 }
    requires open { All (λ name. IsTrue (F.may_open files.old name)) (item_names (files_of_command (words_of command.now))) }
    requires create { IfSome named.now.out (λ name. IsTrue (F.may_create files.old name.now)) }
    ensures { RunEnds result (words_of command.now)
        (seen (F.seen files.old) (O.seen out.old) (E.seen err.old)) (seen (F.seen files.new) (O.seen out.new) (E.seen err.new)) }
{
    let loaded = match load_all(alloc, named, files, Wanted::Memory(&[])) {
        Ok(loaded) => loaded,
        Err(refusal) => return refuse(&refusal, err),
    };
    match make_and_deliver(alloc, command, named, &loaded, files, out, err) {
        Ok(status) => status,
        Err(missed) => deliver_in_rounds(alloc, command, named, loaded, missed, files, out, err),
    }
}

/// Runs a command. Its files are counted before any memory is allocated and before a file is opened.
fn run_command<F: Files, O: Sink, E: Sink>(
    alloc: Global,
    command: &Command<'_>,
    files: &mut F,
    out: &mut O,
    err: &mut E,
) -> Status
    requires form { CanBeAsked (words_of command.now) }
    requires open { counted_items (files_of_command (words_of command.now)) ≤ 512 → All (λ name. IsTrue (F.may_open files.old name)) (item_names (files_of_command (words_of command.now))) }
    requires create { counted_items (files_of_command (words_of command.now)) ≤ 512 → IfSome (files_of_command (words_of command.now)).out (λ name. IsTrue (F.may_create files.old name)) }
    ensures ends { RunEnds result (words_of command.now)
        (seen (F.seen files.old) (O.seen out.old) (E.seen err.old)) (seen (F.seen files.new) (O.seen out.new) (E.seen err.new)) }
    ensures counted { 512 < counted_items (files_of_command (words_of command.now)) → TurnedAwayUnread result
        (seen (F.seen files.old) (O.seen out.old) (E.seen err.old)) (seen (F.seen files.new) (O.seen out.new) (E.seen err.new)) }
{
    let named = command.files();
    if named.list.len() > ITEM_COUNT {
        return refuse(&Refusal::Limit(Limit::Inputs), err);
    }
    load_and_deliver(alloc, command, &named, files, out, err)
}

/// Runs the command that the words ask for, and returns how it ended. On the statuses from 2 on one line goes
/// to `err`, and on 0 what is noted: the files that `procbacktrace` passes. Faults of `err` change nothing.
///
/// The caller permits what may be opened or created: what the words name, of a command with at most 512 files.
/// So nothing else is; and where the words have no form, or name more files, no name is opened or created at all.
pub fn run<F: Files, O: Sink, E: Sink>(
    alloc: Global,
    words: &[String],
    files: &mut F,
    out: &mut O,
    err: &mut E,
) -> Status
    requires open { (command : CommandWords) → IsCommand (map string_bytes words.now) command → counted_items (files_of_command command) ≤ 512 → All (λ name. IsTrue (F.may_open files.old name)) (item_names (files_of_command command)) }
    requires create { (command : CommandWords) → IsCommand (map string_bytes words.now) command → counted_items (files_of_command command) ≤ 512 → IfSome (files_of_command command).out (λ name. IsTrue (F.may_create files.old name)) }
    ensures usage { (result ≡ Status.Usage) ↔ HasNoForm (map string_bytes words.now) }
    ensures turned_away { HasNoForm (map string_bytes words.now) → TurnedAway
        (seen (F.seen files.old) (O.seen out.old) (E.seen err.old)) (seen (F.seen files.new) (O.seen out.new) (E.seen err.new)) usage_line }
    // More than 512 files: no file is read, and no memory is allocated.
    ensures counted { (command : CommandWords) → IsCommand (map string_bytes words.now) command → 512 < counted_items (files_of_command command) → TurnedAwayUnread result
        (seen (F.seen files.old) (O.seen out.old) (E.seen err.old)) (seen (F.seen files.new) (O.seen out.new) (E.seen err.new)) }
    // What then holds, for each status.
    ensures ends { (command : CommandWords) → IsCommand (map string_bytes words.now) command → RunEnds result command
        (seen (F.seen files.old) (O.seen out.old) (E.seen err.old)) (seen (F.seen files.new) (O.seen out.new) (E.seen err.new)) }
    // Each run ends as one of them.
    ensures some { SomeRunEnds result
        (seen (F.seen files.old) (O.seen out.old) (E.seen err.old)) (seen (F.seen files.new) (O.seen out.new) (E.seen err.new)) }
    // Which status is returned, if no call fails.
    ensures complete { (command : CommandWords) → IsCommand (map string_bytes words.now) command → RunIsComplete result command
        (seen (F.seen files.old) (O.seen out.old) (E.seen err.old)) (seen (F.seen files.new) (O.seen out.new) (E.seen err.new)) }
{
    let Some(command) = command_words(words) else {
        print_line(err, "usage");
        return Status::Usage;
    };
    run_command(alloc, &command, files, out, err)
}
