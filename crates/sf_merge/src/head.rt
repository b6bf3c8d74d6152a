//! Functions of several sections without their rows, each with its section and its entry.

ghost use Rattle.std.specs.Prelude.{◌≡◌};
ghost use Rattle.std.specs.Option.{option_map};
ghost use Rattle.sf_merge.specs.Heads.{plain_head, stored_head};

use sf_functions::{HasSize, HasStart, MayHaveRows};
use sf_model::FuncHead;
use sf_write::StoredFunction;

/// A function. Its rows, if it has any, are stored.
#[derive(Clone, Copy)]
pub enum StoredOrEmpty {
    /// The function has rows.
    WithRows(StoredFunction),
    /// The function has no rows.
    WithoutRows(FuncHead),
}

impl StoredOrEmpty {
    /// Returns the function without its rows.
    #[inline(always)]
    pub fn plain(&self) -> &FuncHead
        ensures { result.now ≡ plain_head self.now }
    {
        match self {
            StoredOrEmpty::WithRows(function) => &function.head,
            StoredOrEmpty::WithoutRows(head) => head,
        }
    }

    /// Returns the function with the place of its rows, if it has any.
    #[inline(always)]
    pub fn stored(&self) -> Option<&StoredFunction>
        ensures { option_map (λ f. f.now) result ≡ stored_head self.now }
    {
        match self {
            StoredOrEmpty::WithRows(function) => Some(function),
            StoredOrEmpty::WithoutRows(_) => None,
        }
    }
}

/// A function of one of several sections. Its rows are stored.
#[derive(Clone, Copy)]
pub struct LocatedFunction {
    /// The function.
    pub head: StoredOrEmpty,
    /// The number of the function's section, from 0.
    pub item: u32,
    /// The number of the function's entry in the section, from 0.
    pub number: u32,
}

impl HasStart for LocatedFunction {
    ghost use Rattle.sf_merge.specs.Heads.{head_start};

    ghost first_address = { head_start };

    #[inline(always)]
    fn start(&self) -> u64 {
        self.head.plain().start
    }
}

impl HasSize for LocatedFunction {
    ghost use Rattle.sf_merge.specs.Heads.{head_size};

    ghost size_of = { head_size };

    #[inline(always)]
    fn size(&self) -> u64 {
        u64::from(self.head.plain().size)
    }
}

impl MayHaveRows for LocatedFunction {
    ghost use Rattle.sf_merge.specs.Heads.{stored_at};

    ghost stored_at = { stored_at };

    #[inline(always)]
    fn stored(&self) -> Option<&StoredFunction> {
        self.head.stored()
    }
}
