//! Laws over the definitions: functions that do nothing, and are there for their contracts.

ghost use Rattle.std.specs.Prelude.{◌≡◌, ◌<◌, ℕ, IsTrue, List, Some, length, map, All};
ghost use Rattle.sf_model.specs.declared.content.Content.{Content as content_fact};
ghost use Rattle.sf_model.specs.declared.function.Func.{Func as func_fact};
ghost use Rattle.sf_model.specs.declared.machine.Arch.TheVariants.{Amd64};
ghost use Rattle.sf_model.specs.declared.machine.Key.{Key as key_fact};
ghost use Rattle.sf_model.specs.declared.recovery.Regs.{Regs as regs_fact};
ghost use Rattle.sf_model.specs.Content.{content_fits};
ghost use Rattle.sf_model.specs.Lookup as version_2;
ghost use Rattle.sf_model.specs.Memory.{Region};
ghost use Rattle.sf_model.specs.Recovery.{recovery};
ghost use Rattle.sf_model.specs.Walk.{recover_by_rows};
ghost use Rattle.sf3_model.specs.Described.{Table, ordinary};
ghost use Rattle.sf3_model.specs.Flexible.{Registers, flexible_of, flexible_recovery};
ghost use Rattle.sf3_model.specs.Lookup.{found_alike, found_at, step_alike, step_at};
ghost use Rattle.sf3_model.specs.Section.{Section};

/// States that functions of Version 2 that have rows are found alike in Version 3: at each address the same row is found, or
/// none, and the same is recovered.
pub fn version_3_finds_what_version_2_finds()
    ensures found { (functions : List func_fact) → All (λ (f : func_fact). 0 < length f.rows) functions → (pc : ℕ) → found_at (map ordinary functions) pc ≡ found_alike (version_2.found_at functions pc) }
    ensures recovered { (functions : List func_fact) → All (λ (f : func_fact). 0 < length f.rows) functions → (pc : ℕ) (regs : regs_fact) (memory : List Region) → step_at (map ordinary functions) memory pc regs ≡ step_alike (recover_by_rows functions memory pc regs) }
{}

/// States that a row of the default type on AMD64, as one of the flexible type, recovers the same.
pub fn a_flexible_row_can_express_a_row()
    ensures { (content : content_fact) (key : key_fact) (registers : Registers) (lr : ℕ) (memory : List Region) → IsTrue (content_fits Amd64 content) → flexible_recovery (flexible_of content) registers memory ≡ Some (recovery content key (record { sp = registers 7; fp = registers 6; lr = lr }) memory) }
{}

/// States that bytes at an address are a section of at most one table.
pub fn section_has_one_table()
    ensures { (bytes : List ℕ) (at : ℕ) (one other : Table) → Section bytes at one → Section bytes at other → one ≡ other }
{}
