//! One run of a command, from the words of a command line to the files and texts that it leaves.
//!
//! [`run`] finds the command, counts the files that its list names, loads them, makes what is asked for, and delivers
//! it: first the section to its file, then the text to the output. Its clauses are in specs/Ends.antt.
//!
//! A command is a value of [`Command`], which borrows its words. Each has a file here or in `section_commands`, with
//! its form of words, its files and its making, and a file of specs/ of the same name; `linkplt` shares that of `link`.
//! [`Command`], specs/Commands.antt and proofs/EachCommand.antt have an arm for each.
//!
//! [`Command::make`] is the middle of a run, and knows no file and no stream: what it returns is what the command comes
//! to by `Comes` (specs/Comes.antt). Two laws say that this is defined: a command and the bytes of its items come to one
//! thing at most ([`a_run_comes_to_one`]), and to something ([`a_run_comes_to_something`]).
#![tactic(auto)]

mod backtrace;
mod command;
mod deliver;
mod laws;
mod lines;
mod link;
mod linked;
mod named_files;
mod object;
mod procbacktrace;
mod refusing;
mod running;
mod status;
mod verify;

pub use backtrace::Backtrace;
pub use command::{Command, command_words};
pub use laws::{
    a_backtrace_is_the_walk_by_its_section, a_run_comes_to_one, a_run_comes_to_something,
    linking_comes_to_a_result, nothing_is_refused_of_inputs_that_can_be_linked,
};
pub use lines::print_line;
pub use object::Gen;
pub use running::run;
pub use status::Status;
