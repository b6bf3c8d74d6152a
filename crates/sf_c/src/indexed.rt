//! Modules in any order, which are searched by an index.

ghost use Rattle.std.specs.Prelude.{◌≡◌};
ghost use Rattle.sample_walk.specs.Step.{rules_by};
ghost use Rattle.sf_c.specs.Order.{IsIndex};
ghost use Rattle.sf_c.specs.Section.{section_row};

use crate::modules::{KiblawenModule, holds};
use crate::order::start_in;
use crate::section::row_in;
use sample_walk::{Located, Modules, Rule, rule_of};
use sf_decode::LentSection;

// Returns what the row says that holds at an address, if one does.
fn rule_in(section: &LentSection<'_>, address: u64) -> Option<Rule>
    ensures { result ≡ rules_by (section_row section.now) address }
{
    let found = row_in(section, address)?;
    Some(rule_of(&found.row.content))
}

/// Modules in any order, with an index of them.
#[derive(Clone, Copy)]
pub struct IndexedModules<'m, 'a> {
    pub modules: &'m [KiblawenModule<'a>],
    pub order: &'m [usize],
    ghost indexed: { ∥ IsIndex modules.now order.now ∥₁ },
}

impl<'m, 'a> IndexedModules<'m, 'a> {
    ghost use Rattle.std.specs.Prelude.{◌≡◌};
    ghost use Rattle.sf_c.specs.Order.{index_in};

    // Returns the index of the module that has the address in its range; the number of modules if none has it.
    fn index_of(&self, address: u64) -> usize
        ensures { result ≡ index_in self.now.modules.now address }
    {
        let reached = self
            .order
            .partition_point(|index| start_in(self.modules, *index) <= address);
        if reached == 0 {
            return self.modules.len();
        }
        let index = self.order[reached - 1];
        let Some(module) = self.modules.get(index) else {
            return self.modules.len();
        };
        if holds(module, address) {
            index
        } else {
            self.modules.len()
        }
    }
}

/// Modules, by which a walk finds rows: in the section of the module that has the address in its range.
impl<'m, 'a> Modules for IndexedModules<'m, 'a> {
    ghost use Rattle.sf_c.specs.Modules.{module_row};
    ghost use Rattle.sf_c.specs.Order.{index_in};

    ghost row_at = { λ m. module_row m.modules.now };

    ghost index_at = { λ m. index_in m.modules.now };

    fn find(&self, address: u64) -> Located {
        let index = self.index_of(address);
        let rule = match self.modules.get(index) {
            Some(module) => rule_in(&module.section, address),
            None => None,
        };
        Located { index, rule }
    }
}
