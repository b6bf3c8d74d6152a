//! The initial rows of a section's common information entries.

ghost use Rattle.std.specs.Prelude.{◌≡◌, ◌⊎◌, ℕ, List, Some, Err, IfErr, IfOk, OnOk};
ghost use Rattle.sf_bytes.specs.Cursor.{cursor};
ghost use Rattle.sf_model.specs.declared.machine.Arch.{Arch as machine};
ghost use Rattle.cfa_insn.specs.Listing.{listing};
ghost use Rattle.cfa_machine.specs.declared.fault.MachineFault.TheVariants.{NoMemory};
ghost use Rattle.cfa_machine.specs.Columns.{no_columns};
ghost use Rattle.cfa_machine.specs.Initial.{IsInitial};
ghost use Rattle.cfa_machine.specs.Pass.{initial_columns};
ghost use Rattle.frame_functions.specs.InitialRows.{AreInitial, HasInstructions};

use crate::call_frame_section::CallFrameSection;
use cfa_machine::{Columns, MachineFault, initial_row};
use eh_records::Cie;
use sf_bytes::Part;
use std::alloc::Global;
use std::collections::BTreeMap;

/// The least number of bytes of instructions of an entry whose row is kept for the whole section.
const LONG: usize = 64;

/// The instructions of a common information entry, and what else gives its initial row.
#[derive(Clone, Copy)]
pub struct InitialInstructions<'a> {
    /// The place of the entry.
    pub place: u32,
    /// Its data alignment factor.
    pub factor: i64,
    pub insns: Part<'a>,
}

impl<'a> InitialInstructions<'a> {
    /// Returns those of an entry.
    #[inline(always)]
    pub fn of(cie: &Cie<'a>) -> InitialInstructions<'a>
        ensures { result ≡ record { place = cie.now.place; factor = cie.now.data_alignment_factor; insns = cie.now.insns } }
    {
        InitialInstructions {
            place: cie.place,
            factor: cie.data_alignment_factor,
            insns: cie.insns,
        }
    }
}

/// Initial rows of a section's common information entries, so that the instructions of a long one are run once,
/// whatever the order in which functions name the entries. The instructions of a short one are run again unless
/// it is the one that was named last.
#[derive(Drop)]
pub struct InitialRows {
    /// The place of the entry that was named last.
    last: Option<u32>,
    /// Its row.
    row: Columns,
    /// The rows of the long entries that were named, by place.
    long: BTreeMap<u32, Columns>,
}

impl InitialRows {
    /// Makes an empty list.
    pub fn new(alloc: Global) -> InitialRows
        ensures { (arch : machine) (section : List ℕ) → AreInitial arch section result }
    {
        InitialRows {
            last: None,
            row: Columns::default(),
            long: BTreeMap::new(alloc),
        }
    }

    // Returns the row of an entry whose instructions are long.
    fn long_row(
        &mut self,
        section: &CallFrameSection<'_>,
        cie: InitialInstructions<'_>,
    ) -> Result<Columns, MachineFault>
        requires are { AreInitial section.now.arch section.now.bytes.now self.old }
        requires named { HasInstructions section.now.arch section.now.bytes.now cie }
        ensures row { IfOk result (λ row. IsInitial section.now.arch cie.entry.factor (listing (cursor cie.entry.insns)) row) }
        ensures fault { IfErr result (λ fault. (fault ≡ NoMemory) ⊎ (initial_columns section.now.arch cie.entry.factor no_columns (listing (cursor cie.entry.insns)) ≡ Err fault)) }
        ensures are { OnOk result (AreInitial section.now.arch section.now.bytes.now self.new) }
    {
        if let Some(row) = self.long.get(&cie.place) {
            return Ok(*row);
        }
        let row = initial_row(section.arch, cie.factor, cie.insns)?;
        self.long.insert(cie.place, row)?;
        Ok(row)
    }

    // Finds the row of an entry that isn't the one that was named last. The entry is passed by value: this call is rare, and
    // for a reference every entry would have to be in memory.
    #[inline(never)]
    fn find_other(
        &mut self,
        section: &CallFrameSection<'_>,
        cie: InitialInstructions<'_>,
    ) -> Result<(), MachineFault>
        requires are { AreInitial section.now.arch section.now.bytes.now self.old }
        requires named { HasInstructions section.now.arch section.now.bytes.now cie }
        ensures row { OnOk result (IsInitial section.now.arch cie.entry.factor (listing (cursor cie.entry.insns)) self.new.row) }
        ensures fault { IfErr result (λ fault. (fault ≡ NoMemory) ⊎ (initial_columns section.now.arch cie.entry.factor no_columns (listing (cursor cie.entry.insns)) ≡ Err fault)) }
        ensures are { OnOk result (AreInitial section.now.arch section.now.bytes.now self.new) }
    {
        let row = if cie.insns.bytes.len() < LONG {
            initial_row(section.arch, cie.factor, cie.insns)?
        } else {
            self.long_row(section, cie)?
        };
        self.last = Some(cie.place);
        self.row = row;
        Ok(())
    }

    /// Finds the initial row of a common information entry of the section, which [`row`](InitialRows::row) then lends.
    ///
    /// # Errors
    ///
    /// The first fault of its instructions, and `NoMemory` if memory runs out.
    #[inline(always)]
    pub fn find(
        &mut self,
        section: &CallFrameSection<'_>,
        cie: InitialInstructions<'_>,
    ) -> Result<(), MachineFault>
        requires are { AreInitial section.now.arch section.now.bytes.now self.old }
        requires named { HasInstructions section.now.arch section.now.bytes.now cie }
        ensures row { OnOk result (IsInitial section.now.arch cie.entry.factor (listing (cursor cie.entry.insns)) self.new.row) }
        ensures fault { IfErr result (λ fault. (fault ≡ NoMemory) ⊎ (initial_columns section.now.arch cie.entry.factor no_columns (listing (cursor cie.entry.insns)) ≡ Err fault)) }
        ensures are { OnOk result (AreInitial section.now.arch section.now.bytes.now self.new) }
    {
        if let Some(place) = self.last {
            if place == cie.place {
                return Ok(());
            }
        }
        self.find_other(section, cie)
    }

    /// Returns the row that was found last.
    #[inline(always)]
    pub fn row(&self) -> &Columns
        ensures { result.now ≡ self.now.row }
    {
        &self.row
    }
}
