//! The order of modules by their addresses, in an array of the caller's.

ghost use Rattle.std.specs.Prelude.{◌≡◌, ◌↔◌, IsTrue, length};
ghost use Rattle.sf_c.specs.Order as spec;
ghost use Rattle.sf_c.specs.Order.{AreApart, AreByStart, AreDisjoint, Differ};

use crate::modules::KiblawenModule;

/// Returns where the module with an index starts, 0 for an index past the last.
pub fn start_in(modules: &[KiblawenModule<'_>], index: usize) -> u64
    ensures { result ≡ spec.module_start modules.now index }
{
    match modules.get(index) {
        Some(module) => module.start,
        None => 0,
    }
}

// Returns the size of the module with an index, 0 for an index past the last.
fn size_in(modules: &[KiblawenModule<'_>], index: usize) -> u64
    ensures { result ≡ spec.size_in modules.now index }
{
    match modules.get(index) {
        Some(module) => module.size,
        None => 0,
    }
}

// Returns a number that grows with a module's start, and is less for an empty module than for another that starts there.
fn key_in(modules: &[KiblawenModule<'_>], index: usize) -> u128
    ensures { result ≡ spec.order_key modules.now index }
{
    let twice = 2 * u128::from(start_in(modules, index));
    if size_in(modules, index) == 0 {
        twice
    } else {
        twice + 1
    }
}

// Writes the indices of modules in the order in which the modules start, of empty ones before others that start there.
fn put_in_order(modules: &[KiblawenModule<'_>], order: &mut [usize])
    requires { length order.old ≡ length modules.now }
    ensures order { AreByStart modules.now order.new }
    ensures differ { Differ order.new }
    ensures len { length order.new ≡ length order.old }
{
    for index in 0..order.len() {
        order[index] = index;
    }
    order.sort_unstable_by_key(|index| key_in(modules, *index));
}

// Returns whether each module ends where the next one in order starts, or before.
fn are_apart(modules: &[KiblawenModule<'_>], order: &[usize]) -> bool
    ensures { IsTrue result ↔ AreDisjoint modules.now order.now }
{
    for i in 1..order.len() {
        let before = order[i - 1];
        let start = start_in(modules, order[i]);
        let before_start = start_in(modules, before);
        if start < before_start || start - before_start < size_in(modules, before) {
            return false;
        }
    }
    true
}

/// Writes the indices of modules to `order`, in the order in which the modules start, of empty ones before others that start
/// there. Returns whether no two modules overlap. For another number of places than of modules it returns false, and
/// writes nothing.
#[unsafe(no_mangle)]
pub extern "C" fn kiblawen_index(modules: &[KiblawenModule<'_>], order: &mut [usize]) -> bool
    ensures index { IsTrue result ↔ spec.IsIndex modules.now order.new }
    ensures order { length order.old ≡ length modules.now → AreByStart modules.now order.new }
    ensures apart { length order.old ≡ length modules.now → (IsTrue result ↔ AreApart modules.now) }
{
    if order.len() != modules.len() {
        return false;
    }
    put_in_order(modules, order);
    are_apart(modules, order)
}
