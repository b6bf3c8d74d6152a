//! The kept functions of the inputs. Their rows stay where they are stored.

ghost use Rattle.std.specs.Prelude.{◌≡◌, ◌<◌, All, IsTrue, get_or, length};
ghost use Rattle.sf_model.specs.declared.function.Func.{Func as function};
ghost use Rattle.sf_decode.specs.View.{head_of, rows_left};
ghost use Rattle.sf_write.specs.Stored.{IsStored};
ghost use Rattle.sf_verify.specs.Asking.{kept_in};

use frame_functions::InputFunctions;
use sf_decode::RowIter;
use sf_model::FuncHead;
use sf_write::StoredList;
use std::marker::Model;

/// Kept functions by rising start, which a contract sees as the list of them. Their rows are read from the bytes in which
/// they are stored when they are asked for.
#[derive(Drop)]
pub struct Kept<'a> {
    functions: &'a InputFunctions<'a>,
}

impl<'a> Model for Kept<'a> {
    ghost use Rattle.std.specs.Prelude.{All, List, map};
    ghost use Rattle.sf_model.specs.declared.function.Func.{Func as function};
    ghost use Rattle.sf_write.specs.Stored.{IsStored, stored_in};

    ghost Value = { List function };

    ghost view = { λ k. map (stored_in k.functions.now.rows) k.functions.now.kept };

    ghost invariant = { λ k. All (IsStored k.functions.now.rows) k.functions.now.kept };
}

impl<'a> Kept<'a> {
    /// Returns the kept functions of all inputs.
    pub fn new(functions: &'a InputFunctions<'a>) -> Kept<'a>
        requires { All (IsStored functions.now.rows) functions.now.kept }
        ensures { result ≡ kept_in functions.now }
    {
        Kept { functions }
    }

    /// Returns how many functions there are.
    #[inline(always)]
    pub fn len(&self) -> usize
        ensures { result ≡ length self.now }
    {
        self.functions.kept.len()
    }

    /// Returns the function at a place, without its rows.
    #[inline(always)]
    pub fn head(&self, place: usize) -> FuncHead
        requires { place < length self.now }
        ensures { (d : function) → result ≡ head_of (get_or self.now place d) }
    {
        self.functions.kept.function(place).head
    }

    /// Returns the rows of the function at a place.
    #[inline(always)]
    pub fn rows(&self, place: usize) -> RowIter<'a>
        requires { place < length self.now }
        ensures { (d : function) → rows_left result ≡ (get_or self.now place d).rows }
    {
        let InputFunctions { rows, kept, .. } = self.functions;
        rows.rows(kept.function(place))
    }

    /// Returns whether rows of a section are spelled as those of the function at a place are. They are then the same rows.
    pub fn are_spelled(&self, place: usize, rows: &RowIter<'_>) -> bool
        requires { place < length self.now }
        ensures { (d : function) → IsTrue result → rows_left rows.now ≡ (get_or self.now place d).rows }
    {
        let stored = self.functions.kept.function(place);
        self.functions.rows.are_spelled(stored, rows)
    }
}
