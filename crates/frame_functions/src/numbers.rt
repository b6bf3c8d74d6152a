//! The numbers of what functions share, by the places of their common information entries.

ghost use Rattle.std.specs.Prelude.{◌≡◌, ℕ, List, OnOk};
ghost use Rattle.std.specs.Option.{option_map};
ghost use Rattle.sf_model.specs.declared.machine.Arch.{Arch as machine};
ghost use Rattle.eh_records.specs.Named.{standing_cie};
ghost use Rattle.frame_functions.specs.Numbers.{AreNumbered, IsNumberOf, common_number_at};
ghost use Rattle.frame_functions.specs.Descriptions.{Common as common, common_of};

use std::alloc::{AllocError, Global};
use std::collections::BTreeMap;

/// For each common information entry of a section, by its place, the number of what its functions share.
#[derive(Drop)]
pub struct CommonNumbers {
    by_place: BTreeMap<u32, u32>,
}

impl CommonNumbers {
    /// Makes an empty map.
    pub fn new(alloc: Global) -> CommonNumbers
        ensures { (arch : machine) (section : List ℕ) (commons : List common) → AreNumbered arch section result commons }
    {
        CommonNumbers {
            by_place: BTreeMap::new(alloc),
        }
    }

    /// Finds the number of the entry at a place.
    #[inline(always)]
    pub fn get(&self, place: u32) -> Option<u32>
        ensures { result ≡ common_number_at self.now place }
    {
        self.by_place.get(&place).copied()
    }

    /// Notes the number of the entry at a place.
    pub fn insert(&mut self, place: u32, number: u32) -> Result<(), AllocError>
        ensures { OnOk result ((arch : machine) (section : List ℕ) (commons : List common) → AreNumbered arch section self.old commons → IsNumberOf commons (option_map (common_of arch) (standing_cie arch section place)) number → AreNumbered arch section self.new commons) }
    {
        self.by_place.insert(place, number)?;
        Ok(())
    }
}
