//! The rows of one function as bytes, before the last of them is known.

ghost use Rattle.std.specs.Prelude.{◌≡◌, ◌≤◌, ◌++◌, OnOk};
ghost use Rattle.std.specs.List.{flat_map};
ghost use Rattle.sf_decode.specs.View.{rows_left};
ghost use Rattle.sf_write.specs.Row.{narrow_row, BeginWith};

use crate::row::push_row;
use sf_decode::RowIter;
use sf_model::{Arch, FuncHead, Row};
use sf_sizes::row_type;
use std::alloc::{AllocError, Global};
use std::marker::Model;

/// The rows of one function as bytes: those that a section holds, or the same with wider starts. A row takes at most 17
/// bytes, and most take four or less.
#[derive(Drop)]
pub struct PackedRows {
    bytes: Vec<u8>,
    /// The width of the row starts.
    width: u8,
    /// The number of rows.
    count: u32,
    /// The start of the last row, or 0 without rows.
    last: u32,
}

impl PackedRows {
    ghost use Rattle.std.specs.Prelude.{[], ◌∷◌, ℕ, List, length};
    ghost use Rattle.sf_model.specs.declared.rows.Row.{Row as row_fact};
    ghost use Rattle.sf_write.specs.Packed.{ArePacked, HasRoom};

    /// Creates an empty list, which allocates nothing until a row is pushed.
    pub fn new(alloc: Global) -> PackedRows
        ensures { ArePacked result [] }
    {
        PackedRows {
            bytes: Vec::new(alloc),
            width: 0,
            count: 0,
            last: 0,
        }
    }

    /// Removes all rows and keeps the memory. There is room for rows that start at `last` or before it.
    pub fn restart(&mut self, last: u32)
        ensures empty { ArePacked self.new [] }
        ensures room { (start : ℕ) → start ≤ last → HasRoom self.new start }
    {
        self.bytes.clear();
        self.width = row_type(last);
        self.count = 0;
        self.last = 0;
    }

    /// Appends a row that there is room for.
    ///
    /// # Errors
    ///
    /// Out of memory; 2^32 rows count as that.
    #[inline(always)]
    pub fn push(&mut self, row: Row) -> Result<(), AllocError>
        requires { HasRoom self.old row.start }
        ensures pushed { OnOk result ((rows : List row_fact) → ArePacked self.old rows → ArePacked self.new (rows ++ row ∷ [])) }
        ensures room { OnOk result ((start : ℕ) → HasRoom self.old start → HasRoom self.new start) }
    {
        push_row(&mut self.bytes, self.width, &row)?;
        self.count = self.count.checked_add(1).ok_or(AllocError)?;
        self.last = row.start;
        Ok(())
    }

    /// Returns how many rows there are.
    pub fn len(&self) -> u32
        ensures { (rows : List row_fact) → ArePacked self.now rows → result ≡ length rows }
    {
        self.count
    }
}

/// Appends rows whose starts have this width. Where memory runs out, what was there stays in front.
fn push_all(bytes: &mut Vec<u8>, width: u8, rows: RowIter<'_>) -> Result<(), AllocError>
    requires { width ≤ 2 }
    ensures ok { OnOk result (bytes.new.items ≡ bytes.old.items ++ flat_map (narrow_row width) (rows_left rows.entry)) }
    ensures keeps { BeginWith bytes.new.items bytes.old.items }
{
    for row in rows {
        push_row(bytes, width, &row)?;
    }
    Ok(())
}

/// A function whose rows are packed, which a contract sees as the function with its rows.
#[derive(Drop)]
pub struct PackedFunction {
    arch: Arch,
    head: FuncHead,
    rows: PackedRows,
}

impl Model for PackedFunction {
    ghost use Rattle.sf_model.specs.declared.function.Func.{Func as func_fact};
    ghost use Rattle.sf_write.specs.Packed.{ArePacked, unpacked};

    ghost Value = { func_fact };

    ghost view = { λ f. unpacked f.arch f.head f.rows };

    ghost invariant = { λ f. ArePacked f.rows (unpacked f.arch f.head f.rows).rows };
}

impl PackedFunction {
    ghost use Rattle.std.specs.Prelude.{IfOk, IsTrue, length};
    ghost use Rattle.std.specs.List.{list_all};
    ghost use Rattle.sf_model.specs.declared.function.Func.{Func as func_fact};
    ghost use Rattle.sf_model.specs.Tight.{last_start};
    ghost use Rattle.sf_model.specs.Width.{holds_unsigned};
    ghost use Rattle.sf_decode.specs.View.{head_of};
    ghost use Rattle.sf_write.specs.Packed.{CanBeUnpacked, IsPacked};
    ghost use Rattle.sf_write.specs.Room.{offsets_fit};
    ghost use Rattle.sf_write.specs.Row.{rows_bytes, start_width};

    /// Creates the function with this head and these rows.
    pub fn new(arch: Arch, head: FuncHead, rows: PackedRows) -> PackedFunction
        requires { CanBeUnpacked arch head rows }
        ensures { (func : func_fact) → IsPacked arch head rows func → result ≡ func }
    {
        PackedFunction { arch, head, rows }
    }

    /// Returns the function without its rows.
    #[inline(always)]
    pub fn head(&self) -> &FuncHead
        ensures { result.now ≡ head_of self.now }
    {
        &self.head
    }

    /// Hands over the memory of the rows.
    pub fn into_rows(self) -> PackedRows {
        self.rows
    }

    /// Appends the rows as a section holds them, and returns the width of their starts. Where memory runs out, what was
    /// there stays in front.
    pub(crate) fn push_rows_to(&self, bytes: &mut Vec<u8>) -> Result<u8, AllocError>
        ensures ok { OnOk result (bytes.new.items ≡ bytes.old.items ++ rows_bytes self.now.rows) }
        ensures fits { IsTrue (list_all offsets_fit self.now.rows) }
        ensures width { IfOk result (λ width. width ≡ start_width self.now.rows) }
        ensures starts { IsTrue (holds_unsigned (last_start self.now.rows) (start_width self.now.rows)) }
        ensures keeps { BeginWith bytes.new.items bytes.old.items }
    {
        let packed = &self.rows;
        let width = row_type(packed.last);
        if width == packed.width {
            bytes.extend_from_slice(packed.bytes.as_slice())?;
        } else {
            let rows = RowIter::new(
                self.arch,
                packed.bytes.as_slice(),
                packed.width,
                0,
                self.head.rows,
            );
            push_all(bytes, width, rows)?;
        }
        Ok(width)
    }
}
