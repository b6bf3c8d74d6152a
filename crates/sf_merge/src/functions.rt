//! Functions of several sections. Their rows are stored in one list.

ghost use Rattle.std.specs.Prelude.{◌≡◌, ◌++◌, [], ◌∷◌, IfOk, OnOk};
ghost use Rattle.sf_functions.specs.Order.{IsInOrder};
ghost use Rattle.sf_merge.specs.Heads.{AreHeads, RowsAreStored, AllRowsAreStored, IsStorable, all_in, function_of_head};
ghost use Rattle.sf_merge.specs.Located.{located_start};
ghost use Rattle.sf_write.specs.declared.stored.StoredFunction.{StoredFunction as stored_fact};
ghost use Rattle.sf_write.specs.Stored.{IsStored, stored_in};

use crate::head::{LocatedFunction, StoredOrEmpty};
use sf_base::NoMemory;
use sf_functions::sort_by_start;
use sf_model::{Arch, Func, FuncHead};
use sf_write::StoredRows;
use std::alloc::{AllocError, Global};
use std::marker::Model;

/// Functions of several sections. A contract sees them as a list. Nothing is allocated for each function:
/// its head is kept, and its rows are stored after those of the others.
#[derive(Drop)]
pub struct LocatedFunctions {
    heads: Vec<LocatedFunction>,
    rows: StoredRows,
}

impl Model for LocatedFunctions {
    ghost use Rattle.std.specs.Prelude.{List};
    ghost use Rattle.sf_merge.specs.declared.located.Located.{Located as located};
    ghost use Rattle.sf_merge.specs.Heads.{AllRowsAreStored, all_in};

    ghost Value = { List located };

    ghost view = { λ f. all_in f.rows f.heads.items };

    ghost invariant = { λ f. AllRowsAreStored f.rows f.heads.items };
}

/// Stores the rows of a function that has bytes, if it has any rows.
#[inline(always)]
fn store(rows: &mut StoredRows, arch: Arch, func: &Func) -> Result<StoredOrEmpty, AllocError>
    requires { IsStorable arch func.now }
    ensures stored { IfOk result (λ head. RowsAreStored rows.new head × (function_of_head rows.new head ≡ func.now)) }
    ensures keeps { (f : stored_fact) → IsStored rows.old f → IsStored rows.new f × (stored_in rows.new f ≡ stored_in rows.old f) }
{
    if func.rows.as_slice().is_empty() {
        return Ok(StoredOrEmpty::WithoutRows(FuncHead {
            start: func.start,
            size: func.size,
            shape: func.shape,
            key: func.key,
            rows: 0,
        }));
    }
    Ok(StoredOrEmpty::WithRows(rows.push(arch, func)?))
}

impl LocatedFunctions {
    /// Returns an empty list, with memory for the heads of `count` functions.
    pub fn with_capacity(alloc: Global, count: usize) -> Result<LocatedFunctions, NoMemory>
        ensures { IfOk result (λ functions. functions ≡ []) }
    {
        Ok(LocatedFunctions {
            heads: Vec::with_capacity(alloc, count)?,
            rows: StoredRows::new(alloc),
        })
    }

    /// Adds a function of a section for this machine.
    #[inline(always)]
    pub fn push(&mut self, arch: Arch, item: u32, number: u32, func: &Func) -> Result<(), NoMemory>
        requires { IsStorable arch func.now }
        ensures { OnOk result (self.new ≡ self.old ++ record { func = func.now; item = item; number = number } ∷ []) }
    {
        let head = store(&mut self.rows, arch, func)?;
        self.heads.push(LocatedFunction { head, item, number })?;
        Ok(())
    }

    /// Sorts the functions by rising start. Those of one start stay in their order.
    pub fn order(&mut self) -> Result<(), NoMemory>
        ensures { OnOk result (IsInOrder located_start self.old self.new) }
    {
        sort_by_start(&mut self.heads)?;
        Ok(())
    }

    /// Returns the functions without their rows.
    pub fn heads(&self) -> &[LocatedFunction]
        ensures { AreHeads result.now self.now }
    {
        self.heads.as_slice()
    }

    /// Returns the functions without their rows, and the rows of all.
    pub fn into_parts(self) -> (Vec<LocatedFunction>, StoredRows)
        ensures are { self ≡ all_in result.1 result.0.items }
        ensures stored { AllRowsAreStored result.1 result.0.items }
    {
        let LocatedFunctions { heads, rows } = self;
        (heads, rows)
    }
}
