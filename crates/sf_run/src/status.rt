//! How a run ends, as a number for the system.

ghost use Rattle.std.specs.Prelude.{◌≡◌};
ghost use Rattle.sf_run.specs.Status.{status_code, status_for};

use section_commands::Outcome;

/// How a run ended.
#[derive(Clone, Copy, Debug, PartialEq, Eq)]
pub enum Status {
    /// The command's result was written.
    Done,
    /// A comparison found a difference, or a look-up found nothing.
    Negative,
    /// The words have none of the forms.
    Usage,
    /// An item could not be read.
    Read,
    /// The section or the text could not be written.
    Write,
    /// An input is malformed, or inputs don't go together.
    Refused,
    /// Memory ran out.
    Memory,
    /// A limit is exceeded.
    Limit,
}

impl Status {
    /// Returns the status of a run that made something.
    pub fn of(outcome: Outcome) -> Status
        ensures { result ≡ status_for outcome }
    {
        match outcome {
            Outcome::Done => Status::Done,
            Outcome::Negative => Status::Negative,
        }
    }

    /// Returns the exit status: 0 to 7, in the order of the variants.
    pub fn code(self) -> u8
        ensures { result ≡ status_code self }
    {
        match self {
            Status::Done => 0,
            Status::Negative => 1,
            Status::Usage => 2,
            Status::Read => 3,
            Status::Write => 4,
            Status::Refused => 5,
            Status::Memory => 6,
            Status::Limit => 7,
        }
    }
}
