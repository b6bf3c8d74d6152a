//! Functions whose rows are kept as the bytes that a section will hold, consecutive in one list.

ghost use Rattle.std.specs.Prelude.{◌≡◌, IfOk};

use crate::packed::PackedFunction;
use crate::row::push_rows;
use sf_decode::RowIter;
use sf_model::{Arch, Func, FuncHead, Rows};
use std::alloc::{AllocError, Global};

/// The rows of many functions, as the bytes that a section will hold: about four bytes a row, and no
/// allocation for each function.
#[derive(Drop)]
pub struct StoredRows {
    bytes: Vec<u8>,
}

/// A function, and the range of its rows among those of many functions.
#[derive(Clone, Copy)]
pub struct StoredFunction {
    /// The function without its rows.
    pub head: FuncHead,
    /// The place of the function's rows in the bytes.
    place: usize,
    /// How many bytes the function's rows are.
    pub len: u32,
    arch: Arch,
    /// The width of the function's row starts.
    pub width: u8,
}

impl StoredRows {
    ghost use Rattle.std.specs.Prelude.{◌≡◌, IfOk, IsTrue, false};
    ghost use Rattle.sf_model.specs.Function.{IsWritable};
    ghost use Rattle.sf_decode.specs.View.{AreSpelled, rows_left};
    ghost use Rattle.sf_write.specs.declared.stored.StoredFunction.{StoredFunction as stored_fact};
    ghost use Rattle.sf_write.specs.Row.{rows_bytes};
    ghost use Rattle.sf_write.specs.Stored.{IsStored, range_of, stored_in};

    /// Returns empty storage. It allocates nothing until a function is stored.
    pub fn new(alloc: Global) -> StoredRows {
        StoredRows {
            bytes: Vec::new(alloc),
        }
    }

    /// Stores the rows of a function after those that are there. What was stored before stays as it is, also
    /// where this fails.
    ///
    /// # Errors
    ///
    /// Out of memory; a function of 2^32 rows or bytes of rows, or more, counts as that.
    pub fn push(&mut self, arch: Arch, func: &Func) -> Result<StoredFunction, AllocError>
        requires { IsWritable arch func.now }
        ensures pushed { IfOk result (λ f. IsStored self.new f × (stored_in self.new f ≡ func.now)) }
        ensures keeps { (f : stored_fact) → IsStored self.old f → IsStored self.new f × (stored_in self.new f ≡ stored_in self.old f) }
    {
        let rows = func.rows.as_slice();
        let place = self.bytes.len();
        let width = push_rows(&mut self.bytes, rows)?;
        let len = counted(self.bytes.len() - place)?;
        let head = FuncHead {
            start: func.start,
            size: func.size,
            shape: func.shape,
            key: func.key,
            rows: counted(rows.len())?,
        };
        Ok(StoredFunction {
            head,
            place,
            len,
            arch,
            width,
        })
    }

    /// Stores the rows of a function that are packed after those that are there. What was stored before stays as it is, also
    /// where this fails.
    ///
    /// # Errors
    ///
    /// Out of memory; a function of 2^32 bytes of rows or more counts as that.
    pub fn push_packed(
        &mut self,
        arch: Arch,
        func: &PackedFunction,
    ) -> Result<StoredFunction, AllocError>
        requires { IsWritable arch func.now }
        ensures pushed { IfOk result (λ f. IsStored self.new f × (stored_in self.new f ≡ func.now)) }
        ensures keeps { (f : stored_fact) → IsStored self.old f → IsStored self.new f × (stored_in self.new f ≡ stored_in self.old f) }
    {
        let place = self.bytes.len();
        let width = func.push_rows_to(&mut self.bytes)?;
        let len = counted(self.bytes.len() - place)?;
        Ok(StoredFunction {
            head: *func.head(),
            place,
            len,
            arch,
            width,
        })
    }

    /// Reads a stored function with its rows from their bytes.
    #[tactic(auto, unfolding(crate::specs::Stored::stored_in, crate::specs::Stored::function_by))]
    pub fn function(&self, alloc: Global, stored: &StoredFunction) -> Result<Func, AllocError>
        requires { IsStored self.now stored.now }
        ensures { IfOk result (λ func. func ≡ stored_in self.now stored.now) }
    {
        let head = &stored.head;
        let mut rows = Rows::new(alloc);
        for row in self.rows(stored) {
            rows.push(row)?;
        }
        Ok(Func {
            start: head.start,
            size: head.size,
            shape: head.shape,
            key: head.key,
            rows,
        })
    }

    /// Returns an iterator over the rows of a stored function, which reads them from their bytes.
    #[tactic(auto, unfolding(crate::specs::Stored::stored_in, crate::specs::Stored::function_by))]
    #[inline(always)]
    pub fn rows(&self, stored: &StoredFunction) -> RowIter<'_>
        requires { IsStored self.now stored.now }
        ensures { rows_left result ≡ (stored_in self.now stored.now).rows }
    {
        let range = self.range(stored);
        RowIter::new(stored.arch, range, stored.width, 0, stored.head.rows)
    }

    /// Returns whether rows that are read from bytes are spelled there as those of a stored function are here: as many, with
    /// starts of the same width, by the same bytes. They are then the same rows.
    #[tactic(auto, using(crate::proofs::StoredFunctions::spelled_rows))]
    pub fn are_spelled(&self, stored: &StoredFunction, rows: &RowIter<'_>) -> bool
        requires { IsStored self.now stored.now }
        ensures spelled { IsTrue result → AreSpelled rows.now stored.now.arch stored.now.width stored.now.head.rows (range_of self.now stored.now) }
        ensures not { result ≡ false → AreSpelled rows.now stored.now.arch stored.now.width stored.now.head.rows (range_of self.now stored.now) → ⊥ }
        ensures same { IsTrue result → rows_left rows.now ≡ (stored_in self.now stored.now).rows }
    {
        let head = &stored.head;
        rows.are_spelled(stored.arch, stored.width, head.rows, self.range(stored))
    }

    /// Returns the bytes of a function's rows.
    #[tactic(auto, using(crate::proofs::StoredFunctions::range_spelled))]
    #[inline(always)]
    pub fn range(&self, stored: &StoredFunction) -> &[u8]
        requires { IsStored self.now stored.now }
        ensures range { result.now ≡ range_of self.now stored.now }
        ensures bytes { result.now ≡ rows_bytes (stored_in self.now stored.now).rows }
    {
        let (_, rest) = self.bytes.as_slice().split_at(stored.place);
        let (range, _) = rest.split_at(stored.len as usize);
        range
    }
}

/// Converts a number to a `u32`. One that has more bits counts as out of memory.
#[inline(always)]
fn counted(number: usize) -> Result<u32, AllocError>
    ensures { IfOk result (λ n. n ≡ number) }
{
    u32::try_from(number).map_err(|_| AllocError)
}
