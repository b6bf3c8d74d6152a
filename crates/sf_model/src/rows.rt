//! Rows of a function, and the list of them.

ghost use Rattle.std.specs.Prelude.{◌≡◌, [], ◌∷◌, ◌++◌, if◌then◌else◌, is_ok, IfOk};

use crate::content::Content;
use std::alloc::{AllocError, Global};
use std::marker::Model;

/// A row: from `start` on, in bytes from the function's start, the frame has this `content`.
#[derive(Clone, Copy, Debug, PartialEq, Eq)]
pub struct Row {
    /// The first offset that the row covers, in bytes from the function's start.
    pub start: u32,
    /// How the caller's frame is recovered.
    pub content: Content,
}

/// A growing list of rows, which a contract sees as the list.
#[derive(Drop)]
pub struct Rows {
    items: Vec<Row>,
}

impl Model for Rows {
    ghost use Rattle.std.specs.Prelude.{List};
    ghost use Rattle.sf_model.specs.declared.rows.Row.{Row as row};

    ghost Value = { List row };

    ghost view = { λ r. r.items.items };
}

impl Rows {
    /// Creates an empty list, which allocates nothing until a row is pushed.
    pub fn new(alloc: Global) -> Rows
        ensures { result ≡ [] }
    {
        Rows {
            items: Vec::new(alloc),
        }
    }

    /// Creates an empty list with memory for `count` rows.
    pub fn with_capacity(alloc: Global, count: usize) -> Result<Rows, AllocError>
        ensures { IfOk result (λ rows. rows ≡ []) }
    {
        Ok(Rows {
            items: Vec::with_capacity(alloc, count)?,
        })
    }

    /// Appends a row. If memory runs out, the list stays as it was.
    pub fn push(&mut self, row: Row) -> Result<(), AllocError>
        ensures { self.new ≡ (if is_ok result then self.old ++ row ∷ [] else self.old) }
    {
        self.items.push(row)?;
        Ok(())
    }

    /// Removes all rows and keeps the memory.
    pub fn clear(&mut self)
        ensures { self.new ≡ [] }
    {
        self.items.clear();
    }

    /// Returns the rows in order.
    pub fn as_slice(&self) -> &[Row]
        ensures { result.now ≡ self.now }
    {
        self.items.as_slice()
    }
}
