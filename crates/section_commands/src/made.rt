//! What a command makes, or why it makes nothing.

ghost use Rattle.std.specs.Prelude.{◌≡◌};

use sf_base::NoMemory;
use sf_text::Output;
use sf_words::Refusal;
use std::alloc::{AllocError, AllocFailed};

/// How a command that made something ends.
#[derive(Clone, Copy, PartialEq, Eq)]
pub enum Outcome {
    /// It did what it was asked: status 0.
    Done,
    /// The answer is no: a look-up found nothing, or a comparison found a difference. Status 1.
    Negative,
}

/// A section or none, and what is printed.
#[derive(Drop)]
pub struct Made<'a> {
    pub outcome: Outcome,
    pub section: Option<Vec<u8>>,
    pub output: Output<'a>,
}

/// Why a command that reads a core file made nothing.
#[derive(Drop)]
pub enum Unmade<'a> {
    /// The run makes nothing.
    Refused(Refusal<'a>),
    /// Only parts of the core file were read, and the parts of its memory with these addresses have to be read too.
    Unread(Vec<u64>),
}

impl<'a> From<Refusal<'a>> for Unmade<'a> {
    ghost use Rattle.section_commands.specs.declared.made.Unmade.TheVariants.{Refused};

    ghost from_gives = { λ refused unmade. unmade ≡ Refused refused };

    fn from(refused: Refusal<'a>) -> Unmade<'a> {
        Unmade::Refused(refused)
    }
}

impl<'a> From<NoMemory> for Unmade<'a> {
    ghost use Rattle.sf_words.specs.declared.refusal.Refusal.TheVariants.{Memory};
    ghost use Rattle.section_commands.specs.declared.made.Unmade.TheVariants.{Refused};

    ghost from_gives = { λ _ unmade. unmade ≡ Refused Memory };

    fn from(_: NoMemory) -> Unmade<'a> {
        Unmade::Refused(Refusal::Memory)
    }
}

impl<'a> From<AllocError> for Unmade<'a> {
    ghost use Rattle.sf_words.specs.declared.refusal.Refusal.TheVariants.{Memory};
    ghost use Rattle.section_commands.specs.declared.made.Unmade.TheVariants.{Refused};

    ghost from_gives = { λ _ unmade. unmade ≡ Refused Memory };

    fn from(_: AllocError) -> Unmade<'a> {
        Unmade::Refused(Refusal::Memory)
    }
}

impl<'a, T: Drop> From<AllocFailed<T>> for Unmade<'a> {
    ghost use Rattle.sf_words.specs.declared.refusal.Refusal.TheVariants.{Memory};
    ghost use Rattle.section_commands.specs.declared.made.Unmade.TheVariants.{Refused};

    ghost from_gives = { λ _ unmade. unmade ≡ Refused Memory };

    fn from(_: AllocFailed<T>) -> Unmade<'a> {
        Unmade::Refused(Refusal::Memory)
    }
}
