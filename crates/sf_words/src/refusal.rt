//! Why a run makes nothing.

ghost use Rattle.std.specs.Prelude.{◌≡◌};

use sf_base::NoMemory;
use sf_model::Notice;
use std::alloc::{AllocError, AllocFailed};

/// A limit that is exceeded.
#[derive(Clone, Copy, PartialEq, Eq)]
pub enum Limit {
    /// The number of items.
    Inputs,
    /// The bytes of the item of this number.
    File(u32),
    /// The bytes of all items.
    Total,
    /// The functions of a run, omitted ones too.
    Functions,
    /// The rows of a run.
    Rows,
    /// The threads of a core file.
    Threads,
}

/// Why nothing was made.
#[derive(Drop)]
pub enum Refusal<'a> {
    /// The item of this name could not be read.
    Read(&'a str),
    /// Memory ran out.
    Memory,
    /// A limit is exceeded.
    Limit(Limit),
    /// An input is refused.
    Input(Notice),
}

impl<'a> From<NoMemory> for Refusal<'a> {
    ghost use Rattle.sf_words.specs.declared.refusal.Refusal.TheVariants.{Memory};

    ghost from_gives = { λ _ refused. refused ≡ Memory };

    fn from(_: NoMemory) -> Refusal<'a> {
        Refusal::Memory
    }
}

impl<'a> From<AllocError> for Refusal<'a> {
    ghost use Rattle.sf_words.specs.declared.refusal.Refusal.TheVariants.{Memory};

    ghost from_gives = { λ _ refused. refused ≡ Memory };

    fn from(_: AllocError) -> Refusal<'a> {
        Refusal::Memory
    }
}

impl<'a, T: Drop> From<AllocFailed<T>> for Refusal<'a> {
    ghost use Rattle.sf_words.specs.declared.refusal.Refusal.TheVariants.{Memory};

    ghost from_gives = { λ _ refused. refused ≡ Memory };

    fn from(_: AllocFailed<T>) -> Refusal<'a> {
        Refusal::Memory
    }
}
