//! The modules of a process, each with its range of addresses and its section.

ghost use Rattle.std.specs.Prelude.{◌≡◌, ◌↔◌, IsTrue};
ghost use Rattle.sf_c.specs.Modules as spec;
ghost use Rattle.sf_c.specs.Modules.{ModulesRise};

use core_walk::LookUp;
use sf_decode::{LentSection, View};
use sf_lookup::Found;
use sf_model::Arch;

/// A module: `size` addresses from `start` on, and the section that has their functions.
#[repr(C)]
#[derive(Clone, Copy)]
pub struct KiblawenModule<'a> {
    /// The module's first address.
    pub start: u64,
    /// The number of the module's addresses.
    pub size: u64,
    /// The module's section, open or closed.
    pub section: LentSection<'a>,
}

/// Returns whether a module's range has the address.
pub fn holds(range: &KiblawenModule<'_>, address: u64) -> bool
    ensures { result ≡ spec.module_contains address range.now }
{
    range.start <= address && address - range.start < range.size
}

/// Modules that are in order.
#[derive(Clone, Copy)]
pub struct Modules<'m, 'a> {
    pub modules: &'m [KiblawenModule<'a>],
    ghost in_order: { ModulesRise modules.now },
}

impl<'m, 'a> Modules<'m, 'a> {
    ghost use Rattle.std.specs.Prelude.{◌≡◌};
    ghost use Rattle.sf_decode.specs.Kept.{functions_shown};
    ghost use Rattle.sf_c.specs.Modules.{functions_at};

    // Returns the view of the section of the module that has the address in its range, or `None` if there is no such
    // module or its section is closed.
    fn view_at(&self, address: u64) -> Option<View<'a>>
        ensures { functions_shown result ≡ functions_at self.now.modules.now address }
    {
        let reached = self
            .modules
            .partition_point(|module| module.start <= address);
        if reached == 0 {
            return None;
        }
        let module = &self.modules[reached - 1];
        if holds(module, address) {
            module.section.view()
        } else {
            None
        }
    }
}

/// Modules, by which a walk looks rows up: in the section of the module that has the address in its range.
impl<'m, 'a> LookUp for Modules<'m, 'a> {
    ghost use Rattle.sf_c.specs.Modules.{module_row};

    ghost found_at = { λ m. module_row m.modules.now };

    #[tactic(auto, unfolding(sf_model::specs::Lookup::found_at))]
    fn look_up(&self, address: u64) -> Option<(Arch, Found)> {
        match self.view_at(address) {
            Some(view) => view.look_up(address),
            None => None,
        }
    }
}

/// Returns whether modules are in order: each ends where the next one starts, or before. The walk by modules requires
/// that.
#[unsafe(no_mangle)]
pub extern "C" fn kiblawen_in_order(modules: &[KiblawenModule<'_>]) -> bool
    ensures { IsTrue result ↔ spec.ModulesRise modules.now }
{
    for i in 1..modules.len() {
        let before = &modules[i - 1];
        let start = modules[i].start;
        if start < before.start || start - before.start < before.size {
            return false;
        }
    }
    true
}
