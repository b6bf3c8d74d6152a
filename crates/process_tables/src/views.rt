//! What walks look up in: the sections and the signal frames of tables.

ghost use Rattle.std.specs.Prelude.{◌≡◌, List, IfOk, map};
ghost use Rattle.std.specs.List.{AllZip};
ghost use Rattle.sf_decode.specs.View.{table_of};
ghost use Rattle.sf_modules.specs.Module.{module_view};
ghost use Rattle.process_tables.specs.Modules.{MappedModule};
ghost use Rattle.process_tables.specs.Views.{IsTableOf, section_view};

use crate::table::MappedTable;
use sf_base::NoMemory;
use sf_decode::View;
use sf_lookup::Span;
use sf_modules::Module;
use signal_frames::SignalFrame;
use std::alloc::Global;

// Returns the section of a table, which is sound.
fn view_of<'m>(made: &'m MappedTable<'_, '_>) -> View<'m>
    requires { (m : MappedModule) × IsTableOf m made.now }
    ensures { (m : MappedModule) → IsTableOf m made.now → table_of result ≡ m.table }
{
    match View::parse(&made.table.section, made.mapped.entry.start) {
        Ok(view) => view,
        Err(_) => unreachable!(),
    }
}

/// Returns the modules of tables with their sections, in order.
pub fn sections_of<'m, 'p>(
    alloc: Global,
    tables: &'m [MappedTable<'_, 'p>],
) -> Result<Vec<Module<'p, 'm>>, NoMemory>
    requires { (modules : List MappedModule) × AllZip IsTableOf modules tables.now }
    ensures { (modules : List MappedModule) → AllZip IsTableOf modules tables.now → IfOk result (λ sections. map module_view sections.items ≡ map section_view modules) }
{
    let mut sections = Vec::with_capacity(alloc, tables.len())?;
    for made in tables {
        sections.push(Module {
            name: made.mapped.entry.name,
            machine: made.mapped.machine,
            view: view_of(made),
        })?;
    }
    Ok(sections)
}

/// Returns the signal frames of tables, in order.
pub fn signals_of<'m>(
    alloc: Global,
    tables: &'m [MappedTable<'_, '_>],
) -> Result<Vec<&'m [Span<SignalFrame>]>, NoMemory>
    ensures { (modules : List MappedModule) → AllZip IsTableOf modules tables.now → IfOk result (λ signals. map (λ s. s.now) signals.items ≡ map (λ (m : MappedModule). m.signals) modules) }
{
    let mut signals = Vec::with_capacity(alloc, tables.len())?;
    for made in tables {
        signals.push(made.table.signals.as_slice())?;
    }
    Ok(signals)
}
