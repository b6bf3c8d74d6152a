//! Laws over the definitions: functions that do nothing, for their contracts.

ghost use Rattle.std.specs.Prelude.{◌≡◌, ℕ, List};
ghost use Rattle.sf_model.specs.declared.machine.Arch.{Arch};
ghost use Rattle.sf_model.specs.declared.function.Func.{Func};
ghost use Rattle.sf_model.specs.Lookup.{found_at};
ghost use Rattle.sf_model.specs.Union.{IsUnion};
ghost use Rattle.sf_modules.specs.Entry.{EntryView};
ghost use Rattle.sf_modules.specs.Found.{found_in};
ghost use Rattle.sf_modules.specs.Module.{ModuleView};
ghost use Rattle.sf_modules.specs.Union.{LeadsHome, tables_of};

/// Says that the modules have at every address what the union of their tables has, if there is one, and if each address of
/// a function leads to the function's own module.
pub fn modules_answer_as_their_union()
    ensures { (arch : Arch) (entries : List EntryView) (modules : List ModuleView) (functions : List Func) → IsUnion arch (tables_of modules) functions → LeadsHome entries modules → (pc : ℕ) → found_in entries modules pc ≡ found_at functions pc }
{}
