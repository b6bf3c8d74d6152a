//! The entries of a process as spans of addresses.

ghost use Rattle.std.specs.Prelude.{◌≡◌, IfOk, map};
ghost use Rattle.sf_modules.specs.Entry.{mapping_view};
ghost use Rattle.sf_modules.specs.Module.{ModuleView, module_view};
ghost use Rattle.sf_modules.specs.Span as spec;

use crate::by_name::numbers_by_name;
use crate::entry::Entry;
use crate::mapped::Module;
use sf_base::NoMemory;
use sf_lookup::Span;
use std::alloc::Global;

// Returns the names of modules.
fn names_of<'n>(alloc: Global, modules: &[Module<'n, '_>]) -> Result<Vec<&'n [u8]>, NoMemory>
    ensures { IfOk result (λ names. map (λ n. n.now) names.items ≡ map (λ (m : ModuleView). m.name) (map module_view modules.now)) }
{
    let mut names = Vec::with_capacity(alloc, modules.len())?;
    for item in modules {
        names.push(item.name)?;
    }
    Ok(names)
}

/// Returns the addresses of each entry, and the number of the module that it names.
pub fn spans_of(
    alloc: Global,
    entries: &[Entry<'_>],
    modules: &[Module<'_, '_>],
) -> Result<Vec<Span<Option<u32>>>, NoMemory>
    ensures { IfOk result (λ spans. spans.items ≡ map (spec.entry_span (map module_view modules.now)) (map mapping_view entries.now)) }
{
    let numbers = numbers_by_name(alloc, &names_of(alloc, modules)?)?;
    let mut spans = Vec::with_capacity(alloc, entries.len())?;
    for entry in entries {
        let leads_to = numbers.get(entry.name).copied();
        spans.push(Span {
            start: entry.start,
            size: entry.end.saturating_sub(entry.start),
            leads_to,
        })?;
    }
    Ok(spans)
}
