//! Why a run makes nothing, as a status and a line.

ghost use Rattle.sf_run.specs.Ends.{CanBePrinted, Tells};
ghost use Rattle.sf_run.specs.Lines.{Says, limit_line};

use crate::lines::{print_line, print_name};
use crate::status::Status;
use sf_base::Sink;
use sf_text::{fault_line, file_limit_line};
use sf_words::{Limit, Refusal};

/// Prints which limit is exceeded.
fn print_limit<E: Sink>(limit: Limit, err: &mut E)
    ensures { Says (E.seen err.old) (E.seen err.new) (limit_line limit) }
{
    match limit {
        Limit::Inputs => print_line(err, "limit inputs"),
        Limit::File(item) => {
            let _ = file_limit_line(err, item);
        }
        Limit::Total => print_line(err, "limit total"),
        Limit::Functions => print_line(err, "limit functions"),
        Limit::Rows => print_line(err, "limit rows"),
        Limit::Threads => print_line(err, "limit threads"),
    }
}

/// Prints why nothing was made, and returns the status.
pub fn refuse<E: Sink>(refusal: &Refusal<'_>, err: &mut E) -> Status
    requires { CanBePrinted refusal.now }
    ensures { Tells refusal.now result (E.seen err.old) (E.seen err.new) }
{
    match refusal {
        Refusal::Read(name) => {
            print_name(err, "read ", name);
            Status::Read
        }
        Refusal::Memory => {
            print_line(err, "memory");
            Status::Memory
        }
        Refusal::Limit(limit) => {
            print_limit(*limit, err);
            Status::Limit
        }
        Refusal::Input(notice) => {
            let _ = fault_line(err, notice);
            Status::Refused
        }
    }
}
