//! The functions that were read of inputs, within the limits of a run.

ghost use Rattle.std.specs.Prelude.{◌≡◌, ◌≤◌, ◌<◌, ◌+◌, ◌&&◌, ◌++◌, [], ◌∷◌, List, Bool, IfOk, IfErr, OnOk, length, map, min, nat_le, nat_lt, Some};
ghost use Rattle.sf_model.specs.Limits.{most_functions};
ghost use Rattle.frame_functions.specs.declared.read.ReadFunctions.TheVariants.{Within, Past};
ghost use Rattle.frame_functions.specs.ReadFunction.{IsSound};
ghost use Rattle.frame_functions.specs.Functions.{Function};
ghost use Rattle.frame_functions.specs.Kept.{read_of};
ghost use Rattle.frame_functions.specs.Order.{read_rows, exceeded_by};
ghost use Rattle.frame_functions.specs.ReadSoFar.{AreReadSoFar, counted_in};

use crate::descriptions::Descriptions;
use crate::function_list::FunctionList;
use crate::read_function::ReadFunction;
use sf_functions::Limit;
use sf_model::{Arch, MOST_FUNCTIONS, MOST_ROWS};
use sf_write::PackedRows;
use std::alloc::{AllocError, Global};

/// The functions that were read, if they are within the limits.
#[derive(Drop)]
pub struct HeldFunctions<'a> {
    /// The functions, in the order of the inputs, sections and records.
    pub entries: FunctionList,
    /// How many rows more there may be.
    pub rows_left: usize,
    /// The omitted ones as their records describe them, in the same order, if they are to be lent.
    pub descriptions: Descriptions<'a>,
}

/// The functions that were read. Past a limit they are only counted, and nothing of them is held. They are still read,
/// since each fault of a later input comes before the limits.
#[derive(Drop)]
pub enum ReadFunctions<'a> {
    /// There are no more functions, and no more rows, than the limits allow.
    Within(HeldFunctions<'a>),
    /// There are more. This is the number of functions; a number above the limit counts as one above it.
    Past(usize),
}

impl<'a> HeldFunctions<'a> {
    /// Returns whether the limits allow one function more, with its rows.
    #[inline(always)]
    pub fn has_room(&self, entry: &ReadFunction) -> bool
        ensures { result ≡ (nat_lt (length self.now.entries) most_functions && nat_le (read_rows entry.now) self.now.rows_left) }
    {
        self.entries.len() < MOST_FUNCTIONS && entry.row_count() <= self.rows_left
    }

    /// Adds a function that there is room for. The memory of its rows goes to `spare`.
    #[inline(always)]
    pub fn add(
        &mut self,
        arch: Arch,
        entry: ReadFunction,
        spare: &mut PackedRows,
    ) -> Result<(), AllocError>
        requires sound { IsSound arch entry }
        requires room { read_rows entry ≤ self.old.rows_left }
        ensures entries { OnOk result (self.new.entries ≡ self.old.entries ++ entry ∷ []) }
        ensures rows { OnOk result (self.new.rows_left + read_rows entry ≡ self.old.rows_left) }
        ensures descriptions { OnOk result (self.new.descriptions ≡ self.old.descriptions) }
    {
        let count = entry.row_count();
        self.entries.push(arch, entry, spare)?;
        self.rows_left -= count;
        Ok(())
    }
}

impl<'a> ReadFunctions<'a> {
    /// Makes an empty list of functions.
    pub fn new(alloc: Global) -> ReadFunctions<'a>
        ensures { (lending : Bool) → AreReadSoFar lending result [] }
    {
        ReadFunctions::Within(HeldFunctions {
            entries: FunctionList::new(alloc),
            rows_left: MOST_ROWS,
            descriptions: Descriptions::new(alloc),
        })
    }

    /// Returns the number of functions, as far as they are counted.
    fn counted(&self) -> usize
        ensures { result ≡ counted_in self.now }
    {
        match self {
            ReadFunctions::Within(held) => held.entries.len(),
            ReadFunctions::Past(count) => *count,
        }
    }

    /// Counts one function more, which there is no room for. Those that were held are dropped.
    pub fn count(&mut self)
        ensures { self.new ≡ Past (min (counted_in self.old) most_functions + 1) }
    {
        *self = ReadFunctions::Past(self.counted().min(MOST_FUNCTIONS) + 1);
    }

    /// Hands over the functions.
    ///
    /// # Errors
    ///
    /// The limit that they exceed, of functions first, and then of rows.
    pub fn within_limits(self) -> Result<HeldFunctions<'a>, Limit>
        ensures held { IfOk result (λ held. self.entry ≡ Within held) }
        ensures fault { IfErr result (λ limit. (lending : Bool) (functions : List Function) → AreReadSoFar lending self.entry functions → exceeded_by (map read_of functions) ≡ Some limit) }
    {
        match self {
            ReadFunctions::Within(held) => Ok(held),
            ReadFunctions::Past(count) => Err(if count > MOST_FUNCTIONS {
                Limit::Functions
            } else {
                Limit::Rows
            }),
        }
    }
}
