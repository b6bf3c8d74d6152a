//! The limits of functions and rows.

ghost use Rattle.std.specs.Prelude.{◌≡◌};
ghost use Rattle.sf_functions.specs.Limits as spec;

use sf_model::{MOST_FUNCTIONS, MOST_ROWS};

/// A limit.
#[derive(Clone, Copy)]
pub enum Limit {
    /// The limit of functions.
    Functions,
    /// The limit of rows.
    Rows,
}

/// Returns the limit that these numbers exceed, if there is one: that of functions first.
pub fn exceeded(functions: usize, rows: usize) -> Option<Limit>
    ensures { result ≡ spec.exceeded functions rows }
{
    if functions > MOST_FUNCTIONS {
        return Some(Limit::Functions);
    }
    if rows > MOST_ROWS {
        return Some(Limit::Rows);
    }
    None
}
