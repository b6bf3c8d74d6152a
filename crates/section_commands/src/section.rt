//! Reading a section, for the commands that are given one.

ghost use Rattle.std.specs.Prelude.{◌≡◌};
ghost use Rattle.section_commands.specs.Coming.{Coming};
ghost use Rattle.section_commands.specs.Making.{ComesAs};
ghost use Rattle.section_commands.specs.SectionComes.{coming_of_decoding};

use sf_decode::DecodeFault;
use sf_words::{Limit, Refusal};

/// Returns why the section of an item was not read, as a refusal of the run.
pub fn undecoded<'a>(fault: DecodeFault, item: u32) -> Refusal<'a>
    ensures { ComesAs (λ (coming : Coming). coming ≡ coming_of_decoding item fault) result }
{
    match fault {
        DecodeFault::TooManyFunctions(_) => Refusal::Limit(Limit::Functions),
        DecodeFault::TooManyRows(_) => Refusal::Limit(Limit::Rows),
        _ => Refusal::Input(fault.notice(Some(item))),
    }
}
