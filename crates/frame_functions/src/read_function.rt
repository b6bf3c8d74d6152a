//! A function that was read, kept or omitted.

use sf_functions::{HasStart, MayHaveRows};
use sf_model::{Omission, Omitted, Origin, Span};
use sf_write::{PackedFunction, StoredFunction};

/// What became of a function.
#[derive(Drop)]
pub enum Expressed {
    /// SFrame can express it.
    Kept(PackedFunction),
    /// SFrame can't express it.
    LeftOut(Omission),
}

/// A function with its addresses and origin, and what became of it.
#[derive(Drop)]
pub struct ReadFunction {
    pub span: Span,
    pub outcome: Expressed,
}

impl ReadFunction {
    ghost use Rattle.std.specs.Prelude.{◌≡◌};
    ghost use Rattle.frame_functions.specs.Order.{read_rows};

    /// Counts its rows. An omitted function has none.
    #[inline(always)]
    pub fn row_count(&self) -> usize
        ensures { result ≡ read_rows self.now }
    {
        match &self.outcome {
            Expressed::Kept(function) => function.head().rows as usize,
            Expressed::LeftOut(_) => 0,
        }
    }
}

/// A function that was read, whose rows are kept in the list of all.
#[derive(Clone, Copy)]
pub enum ListedFunction {
    /// SFrame can express it. It came from this record.
    Kept(StoredFunction, Origin),
    /// SFrame can't express it.
    LeftOut(Omitted),
}

impl ListedFunction {
    ghost use Rattle.std.specs.Prelude.{◌≡◌};
    ghost use Rattle.frame_functions.specs.ListedFunctions.{listed_span};

    /// Returns its addresses and origin.
    #[inline(always)]
    pub fn span(&self) -> Span
        ensures { result ≡ listed_span self.now }
    {
        match self {
            ListedFunction::Kept(function, origin) => Span {
                start: function.head.start,
                size: u64::from(function.head.size),
                origin: *origin,
            },
            ListedFunction::LeftOut(omitted) => Span {
                start: omitted.start,
                size: omitted.size,
                origin: omitted.origin,
            },
        }
    }
}

impl HasStart for ListedFunction {
    ghost use Rattle.frame_functions.specs.ListedFunctions.{listed_start};

    ghost first_address = { listed_start };

    #[inline(always)]
    fn start(&self) -> u64 {
        match self {
            ListedFunction::Kept(function, _) => function.head.start,
            ListedFunction::LeftOut(omitted) => omitted.start,
        }
    }
}

impl MayHaveRows for ListedFunction {
    ghost use Rattle.frame_functions.specs.ListedFunctions.{stored_at};

    ghost stored_at = { stored_at };

    #[inline(always)]
    fn stored(&self) -> Option<&StoredFunction> {
        match self {
            ListedFunction::Kept(function, _) => Some(function),
            ListedFunction::LeftOut(_) => None,
        }
    }
}
