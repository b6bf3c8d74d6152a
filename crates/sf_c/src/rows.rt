//! How many rows a look-up may have to read.

ghost use Rattle.std.specs.Prelude.{◌≡◌};
ghost use Rattle.sf_decode.specs.Kept.{functions_lent};
ghost use Rattle.sf_decode.specs.View.{table_of};
ghost use Rattle.sf_c.specs.MostRows.{most_rows};

use sf_decode::{LentSection, View, functions_are_numbered};

// Returns how many rows the function with most rows has.
fn most_rows(view: &View<'_>) -> u32
    ensures { result ≡ most_rows (table_of view.now).functions }
{
    functions_are_numbered(view);
    let mut most = 0;
    for i in 0..view.len() {
        most = most.max(view.func(i).rows);
    }
    most
}

/// Returns how many rows the function with most rows has, 0 if there is no function, as in a closed section.
#[unsafe(no_mangle)]
pub extern "C" fn kiblawen_most_rows(section: &LentSection<'_>) -> u32
    ensures { result ≡ most_rows (functions_lent section.now) }
{
    match section.view() {
        Some(view) => most_rows(&view),
        None => 0,
    }
}
