//! The common information entry that was read last.

ghost use Rattle.std.specs.Prelude.{◌<◌, ◌^◌, length};

use crate::cie::FullCie;
use crate::fault::RecordFault;
use sf_model::Arch;

/// A common information entry with its place.
#[derive(Clone, Copy)]
pub struct LastCie<'a> {
    pub place: u32,
    pub cie: FullCie<'a>,
}

impl<'a> LastCie<'a> {
    ghost use Rattle.eh_records.specs.Fde.{cie_at_place};
    ghost use Rattle.eh_records.specs.LastCie.{IsLastCie, GivesLastCie};

    /// Makes the entry at a place of the section the last one. It is read unless it is the last one already. That costs
    /// little, however long the entry is: what is read of an entry that isn't refused has fewer than 100 bytes.
    #[inline(always)]
    pub fn at(
        last: &mut Option<LastCie<'a>>,
        section: &'a [u8],
        place: u32,
        arch: Arch,
    ) -> Result<(), RecordFault>
        requires small { length section.now < 2 ^ 32 }
        requires last { IsLastCie arch section.now last.old }
        ensures gives { GivesLastCie last.new result (cie_at_place arch section.now place) }
        ensures last { IsLastCie arch section.now last.new }
    {
        if let Some(read) = last {
            if read.place == place {
                return Ok(());
            }
        }
        Self::at_other(last, section, place, arch)
    }

    // Reads the entry at a place, and makes it the last one.
    #[inline(never)]
    fn at_other(
        last: &mut Option<LastCie<'a>>,
        section: &'a [u8],
        place: u32,
        arch: Arch,
    ) -> Result<(), RecordFault>
        requires small { length section.now < 2 ^ 32 }
        requires last { IsLastCie arch section.now last.old }
        ensures gives { GivesLastCie last.new result (cie_at_place arch section.now place) }
        ensures last { IsLastCie arch section.now last.new }
    {
        let cie = FullCie::at(section, place, arch)?;
        *last = Some(LastCie { place, cie });
        Ok(())
    }
}
