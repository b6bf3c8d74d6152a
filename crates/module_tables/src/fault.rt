//! Faults of a file among the items of a run.

ghost use Rattle.std.specs.Prelude.{◌≡◌, ◌↔◌};
ghost use Rattle.sf_asm.specs.declared.fault.LinkFault.TheVariants.{NoMemory};
ghost use Rattle.sf_asm.specs.Fault.{is_answered};
ghost use Rattle.module_tables.specs.Numbered.{numbered_fault, numbered_gathering};

use sf_asm::{GatherFault, LinkFault};

// Returns a fault of gathering with the number of an item in place of the input's.
fn numbered_gathering(fault: GatherFault, item: u32) -> GatherFault
    ensures { result ≡ numbered_gathering item fault }
{
    match fault {
        GatherFault::Input(_, fault) => GatherFault::Input(item, fault),
        GatherFault::Overlap(start, _, other, _) => GatherFault::Overlap(start, item, other, item),
        _ => fault,
    }
}

/// Returns a fault of a file that was the only input, with the number of its item in place of the input's number 0.
pub fn numbered(fault: LinkFault, item: u32) -> LinkFault
    ensures numbered { result ≡ numbered_fault item fault }
    // It is a refusal or a limit, or out of memory, as it was before.
    ensures answered { is_answered result ≡ is_answered fault }
    ensures memory { (result ≡ NoMemory) ↔ (fault ≡ NoMemory) }
{
    match fault {
        LinkFault::Gather(fault) => LinkFault::Gather(numbered_gathering(fault, item)),
        _ => fault,
    }
}
