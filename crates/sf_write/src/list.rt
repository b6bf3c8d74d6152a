//! Lists of stored functions, whatever keeps them.

ghost use Rattle.std.specs.Prelude.{◌≡◌, ◌<◌, List, get_or, length};
ghost use Rattle.sf_write.specs.declared.stored.StoredFunction.{StoredFunction as stored_fact};

use crate::stored::StoredFunction;

/// Stored functions in an order, which need not be that in which they lie in memory.
pub trait StoredList {
    /// The functions in this order.
    ghost listed: { Self → List stored_fact };

    /// Returns how many functions there are.
    fn len(&self) -> usize
        ensures { result ≡ length (listed self.now) };

    /// Returns the function with this number, from 0 on.
    fn function(&self, number: usize) -> &StoredFunction
        requires { number < length (listed self.now) }
        ensures { (d : stored_fact) → result.now ≡ get_or (listed self.now) number d };
}

impl StoredList for Vec<StoredFunction> {
    ghost listed = { λ functions. functions.items };

    #[inline(always)]
    fn len(&self) -> usize {
        self.len()
    }

    #[inline(always)]
    fn function(&self, number: usize) -> &StoredFunction {
        &self[number]
    }
}
