//! The procedure linkage tables among omitted functions, and the others.

ghost use Rattle.std.specs.Prelude.{◌≡◌, ◌++◌, ◌∷◌, [], All, Some, true, map, IfOk, OnOk};
ghost use Rattle.std.specs.List.{filter, flat_map};
ghost use Rattle.sf_model.specs.Function.{IsWritable};
ghost use Rattle.sf_write.specs.Stored.{IsStored, stored_in};
ghost use Rattle.frame_functions.specs.ReadFunction.{omitted_of};
ghost use Rattle.frame_functions.specs.Kept.{read_of};
ghost use Rattle.frame_functions.specs.Descriptions.{described_function};
ghost use Rattle.sf_plt.specs.Answers.{others_in, plt_span};
ghost use Rattle.sf_plt.specs.Plt.{initial_content, is_plt};
ghost use Rattle.sf_plt.specs.Sorting.{AreOmitted};
ghost use Rattle.sf_plt.specs.Written.{plt_pair};

use crate::pair::{first_entry, later_entries};
use crate::table::table_content;
use frame_functions::{Description, Descriptions, ListedFunction};
use sf_base::NoMemory;
use sf_functions::FunctionsWithRows;
use sf_model::{Arch, Content, Func, Omitted, Span};
use sf_write::{StoredFunction, StoredList, StoredRows};
use std::alloc::Global;

/// Functions that are written, and omitted functions: procedure linkage tables, and the others.
#[derive(Drop)]
pub struct FunctionsAndTables {
    /// The rows of the functions that are written.
    pub rows: StoredRows,
    /// The functions that are written.
    pub written: Vec<StoredFunction>,
    /// The procedure linkage tables.
    pub plts: Vec<Span>,
    /// The other omitted functions.
    pub omitted: Vec<Omitted>,
}

impl FunctionsAndTables {
    /// Adds a function that is written.
    fn add(&mut self, arch: Arch, func: &Func) -> Result<(), NoMemory>
        requires writable { IsWritable arch func.now }
        requires stored { All (IsStored self.old.rows) self.old.written.items }
        ensures stored { OnOk result (All (IsStored self.new.rows) self.new.written.items) }
        ensures written { OnOk result (map (stored_in self.new.rows) self.new.written.items ≡ map (stored_in self.old.rows) self.old.written.items ++ func.now ∷ []) }
        ensures plts { OnOk result (self.new.plts ≡ self.old.plts) }
        ensures omitted { OnOk result (self.new.omitted ≡ self.old.omitted) }
    {
        let stored = self.rows.push(arch, func)?;
        self.written.push(stored)?;
        Ok(())
    }

    /// Adds a procedure linkage table with this content.
    fn add_table(
        &mut self,
        alloc: Global,
        arch: Arch,
        description: &Description<'_>,
        content: Content,
    ) -> Result<(), NoMemory>
        requires table { is_plt (described_function description.now) ≡ true }
        requires content { initial_content (described_function description.now) ≡ Some content }
        requires machine { description.now.arch ≡ arch }
        requires stored { All (IsStored self.old.rows) self.old.written.items }
        requires sound { All (IsWritable arch) (map (stored_in self.old.rows) self.old.written.items) }
        ensures stored { OnOk result (All (IsStored self.new.rows) self.new.written.items) }
        ensures written { OnOk result (map (stored_in self.new.rows) self.new.written.items ≡ map (stored_in self.old.rows) self.old.written.items ++ plt_pair (described_function description.now)) }
        ensures plts { OnOk result (self.new.plts.items ≡ self.old.plts.items ++ plt_span (described_function description.now) ∷ []) }
        ensures omitted { OnOk result (self.new.omitted ≡ self.old.omitted) }
        ensures sound { OnOk result (All (IsWritable arch) (map (stored_in self.new.rows) self.new.written.items)) }
    {
        let facts = description.facts;
        let first = first_entry(alloc, description, content)?;
        self.add(arch, &first)?;
        let later = later_entries(alloc, description, content)?;
        self.add(arch, &later)?;
        self.plts.push(Span {
            start: facts.start,
            size: facts.size,
            origin: description.origin,
        })?;
        Ok(())
    }
}

/// Lists the kept functions.
fn listed(
    alloc: Global,
    kept: FunctionsWithRows<ListedFunction>,
) -> Result<Vec<StoredFunction>, NoMemory>
    ensures { IfOk result (λ functions. functions.items ≡ kept) }
{
    let mut functions = Vec::with_capacity(alloc, kept.len())?;
    for number in 0..kept.len() {
        functions.push(*kept.function(number))?;
    }
    Ok(functions)
}

/// Adds two functions for each procedure linkage table among the omitted functions to those that are kept, whose rows are
/// these. The descriptions are those of the omitted functions.
pub fn sort_out(
    alloc: Global,
    arch: Arch,
    rows: StoredRows,
    kept: FunctionsWithRows<ListedFunction>,
    omitted: &[Omitted],
    descriptions: &Descriptions<'_>,
) -> Result<FunctionsAndTables, NoMemory>
    requires left { AreOmitted descriptions.now.functions }
    requires omitted { omitted.now ≡ omitted_of (map read_of descriptions.now.functions) }
    requires machine { All (λ f. f.arch ≡ arch) descriptions.now.functions }
    requires stored { All (IsStored rows) kept }
    requires sound { All (IsWritable arch) (map (stored_in rows) kept) }
    ensures stored { IfOk result (λ sorted. All (IsStored sorted.rows) sorted.written.items) }
    ensures written { IfOk result (λ sorted. map (stored_in sorted.rows) sorted.written.items ≡ map (stored_in rows) kept ++ flat_map plt_pair (filter is_plt descriptions.now.functions)) }
    ensures plts { IfOk result (λ sorted. sorted.plts.items ≡ map plt_span (filter is_plt descriptions.now.functions)) }
    ensures omitted { IfOk result (λ sorted. sorted.omitted.items ≡ omitted_of (map read_of (others_in descriptions.now.functions))) }
    ensures sound { IfOk result (λ sorted. All (IsWritable arch) (map (stored_in sorted.rows) sorted.written.items)) }
{
    let mut sorted = FunctionsAndTables {
        rows,
        written: listed(alloc, kept)?,
        plts: Vec::new(alloc),
        omitted: Vec::new(alloc),
    };
    for (number, line) in omitted.iter().enumerate() {
        let description = descriptions.get(number);
        match table_content(&description) {
            Some(content) => sorted.add_table(alloc, arch, &description, content)?,
            None => sorted.omitted.push(*line)?,
        }
    }
    Ok(sorted)
}
