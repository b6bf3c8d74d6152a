//! Laws: what the kept functions of inputs recover, and the walks over them.

ghost use Rattle.std.specs.Prelude.{◌≡◌, ◌↔◌, ℕ, List, Option, None, Result, Ok, map};
ghost use Rattle.std.specs.Option.{option_map};
ghost use Rattle.sf_model.specs.declared.machine.Arch.{Arch};
ghost use Rattle.sf_model.specs.declared.recovery.Regs.{Regs};
ghost use Rattle.sf_model.specs.Memory.{Region};
ghost use Rattle.sf_model.specs.Walk.{ThreadState, recover_by_rows, section_walk};
ghost use Rattle.sf_express.specs.Alike.{defined};
ghost use Rattle.frame_functions.specs.declared.read_function.ReadFunction.{ReadFunction};
ghost use Rattle.sf_asm.specs.declared.fault.LinkFault.{LinkFault};
ghost use Rattle.sf_asm.specs.Accepted.{CanBeGathered, IsAccepted};
ghost use Rattle.frame_functions.specs.ReadFunction.{kept_of, spans_of};
ghost use Rattle.eh_records.specs.Step.{PointerField};
ghost use Rattle.elf_place.specs.Views.{Placing};
ghost use Rattle.elf_reloc.specs.Applied.{applied_to};
ghost use Rattle.frame_functions.specs.Relocated.{applied_by, pointer_slot};
ghost use Rattle.sf_asm.specs.Faithful.{dwarf_walk, recovered_at};
ghost use Rattle.sf_asm.specs.Described.{Describe};
ghost use Rattle.frame_functions.specs.Functions.{Function};
ghost use Rattle.sf_asm.specs.Functions.{Object, functions_of};
ghost use Rattle.sf_asm.specs.declared.fault.GatherFault.{GatherFault as gather_fault};
ghost use Rattle.frame_functions.specs.Kept.{read_of};
ghost use Rattle.frame_functions.specs.Order.{InOrder};
ghost use Rattle.sf_asm.specs.Linking.{Gathers, Links, overlap_in};

/// States that, if no two functions overlap, the kept ones by rising start recover at each address what DWARF's rules
/// (DWARF 5, section 6.4.1) recover there in the kept function that has the address, for all registers and memory. If no
/// function has the address, they recover nothing.
pub fn kept_functions_recover_alike()
    ensures { (functions : List Function) (ordered : List ReadFunction) → InOrder (map read_of functions) ordered → overlap_in (spans_of ordered) ≡ None → (address : ℕ) (regs : Regs) (memory : List Region) → option_map defined (recover_by_rows (kept_of ordered) memory address regs) ≡ recovered_at functions memory address regs }
{}

/// States that the walk of each thread over such functions is the walk by DWARF, with any memory and to any depth.
pub fn walks_are_alike()
    ensures { (functions : List Function) (ordered : List ReadFunction) → InOrder (map read_of functions) ordered → overlap_in (spans_of ordered) ≡ None → (thread : ThreadState) (memory : List Region) (depth : ℕ) → section_walk (kept_of ordered) thread memory depth ≡ dwarf_walk functions thread memory depth }
{}

/// States that linking inputs comes to one result: the functions in order, or the first fault.
pub fn linking_comes_to_one_result()
    ensures { (before : Option Arch) (objects : List Object) (at : ℕ) (one other : Result (List ReadFunction) LinkFault) → Links before objects at one → Links before objects at other → one ≡ other }
{}

/// States that inputs can be linked exactly if linking them comes to functions in order.
pub fn accepted_inputs_are_linked()
    ensures links { (before : Option Arch) (objects : List Object) (at : ℕ) (h : IsAccepted before objects at) → Links before objects at (Ok h.ordered) }
    ensures only { (before : Option Arch) (objects : List Object) (at : ℕ) (ordered : List ReadFunction) → Links before objects at (Ok ordered) → IsAccepted before objects at }
{}

/// States that inputs can be gathered exactly if gathering them comes to functions in order.
pub fn inputs_that_can_be_gathered_are()
    ensures gathers { (before : Option Arch) (objects : List Object) → CanBeGathered before objects → (ordered : List ReadFunction) × Gathers before objects (Ok ordered) }
    ensures only { (before : Option Arch) (objects : List Object) (ordered : List ReadFunction) → Gathers before objects (Ok ordered) → CanBeGathered before objects }
{}

/// States that what the relocations of a section write over its pointer fields is what applying them to it comes to: the
/// patched bytes, and the fields that are unresolved or dropped; or the first fault.
pub fn relocations_of_sections_are_applied()
    ensures { (p : Placing) (section : ℕ) (fields : List PointerField) → applied_to p section (map pointer_slot fields) ≡ applied_by p section fields }
{}

/// States that what is read of inputs is what they describe: by the records, fields and instructions that their bytes
/// are, their functions or their first fault, and nothing else.
pub fn functions_are_described()
    ensures { (item : ℕ) (objects : List Object) (r : Result (List Function) gather_fault) → Describe item objects r ↔ (functions_of item objects ≡ r) }
{}
