//! The modules of a process, put in order once for all walks.

ghost use Rattle.std.specs.Prelude.{◌≡◌, IfOk, map};
ghost use Rattle.sf_lookup.specs.Indexed.{indexed_table};
ghost use Rattle.sf_lookup.specs.Spans.{InOrder};
ghost use Rattle.sf_modules.specs.Entry.{mapping_view};
ghost use Rattle.sf_modules.specs.Module.{module_view};
ghost use Rattle.sf_modules.specs.Span.{entry_span};
ghost use Rattle.sf_modules.specs.Union.{tables_of};

use crate::entry::Entry;
use crate::mapped::Module;
use crate::spans::spans_of;
use core_notes::Thread;
use core_walk::{LookUp, walk_by};
use sf_base::NoMemory;
use sf_lookup::{Found, Indexed, Spans};
use sf_model::{Arch, Memory, Walk};
use std::alloc::Global;

/// The modules of a process and the addresses at which it had them, put in order: an address is looked up by two
/// searches by halves, one for its module and one in the module's section.
#[derive(Drop)]
pub struct Modules<'m> {
    entries: &'m [Entry<'m>],
    modules: &'m [Module<'m, 'm>],
    spans: Spans<Option<u32>>,
    sections: Vec<Indexed<'m>>,
    ghost ordered: { InOrder spans (map (entry_span (map module_view modules.now)) (map mapping_view entries.now)) },
    ghost indexed: { map indexed_table sections.items ≡ tables_of (map module_view modules.now) },
}

// Puts the modules' sections in order.
fn sections_of<'a>(alloc: Global, modules: &[Module<'_, 'a>]) -> Result<Vec<Indexed<'a>>, NoMemory>
    ensures { IfOk result (λ sections. map indexed_table sections.items ≡ tables_of (map module_view modules.now)) }
{
    let mut sections = Vec::with_capacity(alloc, modules.len())?;
    for item in modules {
        sections.push(Indexed::new(alloc, item.view)?)?;
    }
    Ok(sections)
}

impl<'m> Modules<'m> {
    ghost use Rattle.std.specs.Prelude.{◌≡◌, IfOk, map};
    ghost use Rattle.core_walk.specs.Walk.{walk_listing, thread_state};
    ghost use Rattle.sf_modules.specs.Entry.{mapping_view};
    ghost use Rattle.sf_modules.specs.Found.{modules_walk};
    ghost use Rattle.sf_modules.specs.Module.{module_view};
    ghost use Rattle.sf_modules.specs.Span.{module_number_at};
    ghost use Rattle.sf_modules.specs.Views.{entry_views, modules_in};

    /// Puts the entries and the modules in order, once for all walks of a process.
    ///
    /// `NoMemory` if out of memory.
    pub fn new(
        alloc: Global,
        entries: &'m [Entry<'m>],
        modules: &'m [Module<'m, 'm>],
    ) -> Result<Modules<'m>, NoMemory>
        ensures entries { IfOk result (λ m. entry_views m ≡ map mapping_view entries.now) }
        ensures modules { IfOk result (λ m. modules_in m ≡ map module_view modules.now) }
    {
        let spans = Spans::new(alloc, &spans_of(alloc, entries, modules)?)?;
        let sections = sections_of(alloc, modules)?;
        Ok(Modules {
            entries,
            modules,
            spans,
            sections,
        })
    }

    /// Finds the number of the module at an address: the first entry that holds it names the file, and the first module of
    /// that name is the one.
    pub fn number_at(&self, pc: u64) -> Option<u32>
        ensures { result ≡ module_number_at (entry_views self.now) (modules_in self.now) pc }
    {
        self.spans.first_at(pc)?
    }

    /// Lists the frames of a thread, at most `depth`, from the innermost on, and why no more are listed. Each is looked up in
    /// the module at its address.
    ///
    /// `NoMemory` if out of memory.
    pub fn walk<M: Memory>(
        &self,
        alloc: Global,
        thread: &Thread,
        mem: &M,
        depth: u32,
    ) -> Result<Walk, NoMemory>
        ensures { IfOk result (λ walk. walk_listing walk ≡ modules_walk (entry_views self.now) (modules_in self.now) (thread_state thread.now) (M.regions mem.now) depth) }
    {
        walk_by(alloc, self, thread, mem, depth)
    }
}

/// The rows of all modules.
impl<'m> LookUp for Modules<'m> {
    ghost use Rattle.sf_modules.specs.Found.{found_in};
    ghost use Rattle.sf_modules.specs.Views.{entry_views, modules_in};

    ghost found_at = { λ m. found_in (entry_views m) (modules_in m) };

    fn look_up(&self, pc: u64) -> Option<(Arch, Found)> {
        let number = self.number_at(pc)?;
        self.sections[number as usize].look_up(pc)
    }
}
