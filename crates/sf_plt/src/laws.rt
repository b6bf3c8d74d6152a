//! Laws over the definitions: functions that do nothing, for their contracts.

ghost use Rattle.std.specs.Prelude.{◌≡◌, ℕ, List, Option, Some, Result, true};
ghost use Rattle.std.specs.Option.{option_map};
ghost use Rattle.sf_model.specs.declared.machine.Arch.{Arch as machine};
ghost use Rattle.sf_model.specs.declared.recovery.Regs.{Regs as registers};
ghost use Rattle.sf_model.specs.Memory.{Region};
ghost use Rattle.sf_model.specs.Walk.{recover_by_rows};
ghost use Rattle.sf_express.specs.Alike.{defined};
ghost use Rattle.sf_asm.specs.declared.fault.LinkFault.{LinkFault as link_fault};
ghost use Rattle.frame_functions.specs.Functions.{holds_address, Function};
ghost use Rattle.sf_asm.specs.Functions.{Object};
ghost use Rattle.sf_plt.specs.Linking.{LinksPlts};
ghost use Rattle.sf_plt.specs.Plt.{is_plt, recovered_in_plt};
ghost use Rattle.sf_plt.specs.Written.{plt_pair};

/// At each address of a procedure linkage table the two functions that are made of it recover what its rules and
/// the expression (DWARF 5, section 2.5.1) recover there, for all registers and memory.
pub fn tables_recover_alike()
    ensures { (f : Function) (address : ℕ) (regs : registers) (memory : List Region) → is_plt f ≡ true → holds_address address f ≡ true → option_map defined (recover_by_rows (plt_pair f) memory address regs) ≡ Some (recovered_in_plt memory address regs f) }
{}

/// Linking inputs with procedure linkage tables has at most one result: the functions in order, or the first fault.
pub fn linking_tables_comes_to_one_result()
    ensures { (before : Option machine) (objects : List Object) (at : ℕ) (one other : Result (List Function) link_fault) → LinksPlts before objects at one → LinksPlts before objects at other → one ≡ other }
{}
