//! Those functions of a list that have rows.

ghost use Rattle.std.specs.Prelude.{◌≡◌};
ghost use Rattle.std.specs.List.{filter_map};
ghost use Rattle.std.specs.Option.{option_map};

use sf_write::{StoredFunction, StoredList};
use std::marker::Model;

/// A function of a list, which may have rows that are stored.
pub trait MayHaveRows {
    ghost use Rattle.std.specs.Prelude.{Option};
    ghost use Rattle.sf_write.specs.declared.stored.StoredFunction.{StoredFunction as stored_fact};

    ghost stored_at: { Self → Option stored_fact };

    /// Returns the function with the place of its rows, if it has any.
    fn stored(&self) -> Option<&StoredFunction>
        ensures { option_map (λ f. f.now) result ≡ stored_at self.now };
}

/// Those functions of a list that have rows. A contract sees them as a list.
#[derive(Drop)]
pub struct FunctionsWithRows<F: MayHaveRows> {
    heads: Vec<F>,
}

impl<F: MayHaveRows> Model for FunctionsWithRows<F> {
    ghost use Rattle.std.specs.Prelude.{List};
    ghost use Rattle.std.specs.List.{filter_map};
    ghost use Rattle.sf_write.specs.declared.stored.StoredFunction.{StoredFunction as stored_fact};
    ghost use Rattle.sf_functions.specs.WithRows.{HaveRows};

    ghost Value = { List stored_fact };

    ghost view = { λ functions. filter_map F.stored_at functions.heads.items };

    ghost invariant = { λ functions. HaveRows F.stored_at functions.heads.items };
}

impl<F: MayHaveRows + Drop> FunctionsWithRows<F> {
    /// Keeps those of these functions that have rows. They stay in the memory of the list.
    pub fn of(mut heads: Vec<F>) -> FunctionsWithRows<F>
        ensures { result ≡ filter_map F.stored_at heads.items }
    {
        heads.retain(|function| function.stored().is_some());
        FunctionsWithRows { heads }
    }
}

impl<F: MayHaveRows> StoredList for FunctionsWithRows<F> {
    ghost listed = { λ functions. functions };

    #[inline(always)]
    fn len(&self) -> usize {
        self.heads.len()
    }

    #[inline(always)]
    fn function(&self, number: usize) -> &StoredFunction {
        match self.heads[number].stored() {
            Some(function) => function,
            None => unreachable!(),
        }
    }
}
