//! Laws: what can be written.

ghost use Rattle.std.specs.Prelude.{◌≡◌, ℕ, All, List, None};
ghost use Rattle.sf_model.specs.declared.function.Func.{Func as func_fact};
ghost use Rattle.sf_model.specs.declared.machine.Arch.{Arch as arch_fact};
ghost use Rattle.sf_model.specs.Function.{AreWritable};
ghost use Rattle.sf_model.specs.Section.{AreBytes};
ghost use Rattle.sf_model.specs.Tight.{Narrow, Tight};
ghost use Rattle.sf_write.specs.Numbers.{NumbersFit};
ghost use Rattle.sf_write.specs.Reach.{first_out_of_reach};
ghost use Rattle.sf_write.specs.Section.{section_bytes, table_of};

/// Functions that one section can hold, whose numbers fit its fields and whose starts are in reach, have a
/// section: what is spelled for them is bytes, without gaps and with the least widths.
pub fn functions_that_fit_have_a_section()
    ensures { (arch : arch_fact) (at : ℕ) (functions : List func_fact) → AreWritable arch functions → All NumbersFit functions → first_out_of_reach at 0 functions ≡ None → AreBytes (section_bytes arch at functions) × Tight (section_bytes arch at functions) at (table_of arch functions) × Narrow (section_bytes arch at functions) (table_of arch functions) }
{}
