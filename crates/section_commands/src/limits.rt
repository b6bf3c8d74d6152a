//! The limits of the functions and rows of all sections of a run.

ghost use Rattle.std.specs.Prelude.{◌≡◌};
ghost use Rattle.section_commands.specs.Limits as spec;

use sf_functions::exceeded;
use sf_words::Limit;

/// Returns a limit of functions and rows as a limit of the run.
fn run_limit(limit: sf_functions::Limit) -> Limit
    ensures { result ≡ spec.run_limit limit }
{
    match limit {
        sf_functions::Limit::Functions => Limit::Functions,
        sf_functions::Limit::Rows => Limit::Rows,
    }
}

/// Returns the limit that these numbers exceed, if there is one: that of functions first.
pub fn exceeded_limit(functions: usize, rows: usize) -> Option<Limit>
    ensures { result ≡ spec.exceeded_limit functions rows }
{
    match exceeded(functions, rows) {
        Some(limit) => Some(run_limit(limit)),
        None => None,
    }
}
