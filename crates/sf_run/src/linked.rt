//! What the commands that link share: the inputs of loaded items, and the refusal that a fault is.

ghost use Rattle.std.specs.Prelude.{◌≡◌, List, IfOk, IsTrue, map};
ghost use Rattle.sf_words.specs.ItemRead.{read_bytes};
ghost use Rattle.sf_asm.specs.Fault.{is_answered};
ghost use Rattle.sf_asm.specs.Functions.{bytes_of, form_of, object_of};
ghost use Rattle.sf_words.specs.Items.{Input as InputItem, item_of};
ghost use Rattle.sf_words.specs.Loading.{loaded_bytes, loaded_items};
ghost use Rattle.sf_words.specs.Words.{InputWords, input_of};
ghost use Rattle.section_commands.specs.Coming.{Coming};
ghost use Rattle.section_commands.specs.Making.{ComesAs};
ghost use Rattle.sf_run.specs.Inputs.{objects_in};
ghost use Rattle.sf_run.specs.Linked.{coming_of_link_fault};

use sf_asm::{GatherFault, Input, InputBytes, LinkFault};
use sf_base::NoMemory;
use sf_parts::FileRead;
use sf_words::{InputFile, Item, ItemRead, Limit, Loaded, Refusal};
use std::alloc::Global;

/// Returns why inputs were not linked, as a refusal of the run, or of an item that it names.
pub fn unlinked<'a>(fault: &LinkFault, item: Option<u32>) -> Refusal<'a>
    requires { IsTrue (is_answered fault.now) }
    ensures memory { (fault.now ≡ LinkFault.NoMemory) → (result ≡ Refusal.Memory) }
    ensures is { ComesAs (λ (coming : Coming). coming ≡ coming_of_link_fault item fault.now) result }
{
    match fault {
        LinkFault::NoMemory | LinkFault::Gather(GatherFault::NoMemory) => Refusal::Memory,
        LinkFault::Gather(GatherFault::TooManyFunctions) => Refusal::Limit(Limit::Functions),
        LinkFault::Gather(GatherFault::TooManyRows) => Refusal::Limit(Limit::Rows),
        LinkFault::Gather(GatherFault::Input(_, _)) => Refusal::Input(fault.notice(item)),
        LinkFault::Gather(GatherFault::MixedArch(_, _)) => Refusal::Input(fault.notice(item)),
        LinkFault::Gather(GatherFault::Overlap(_, _, _, _)) => Refusal::Input(fault.notice(item)),
        LinkFault::OutOfReach(_) => Refusal::Input(fault.notice(item)),
    }
}

/// Returns the bytes of a loaded input, as it was read.
fn input_bytes<'b>(input: InputFile<'_>, file: &'b Loaded<'_>) -> InputBytes<'b>
    requires { item_of file.now.item ≡ InputItem (input_of input) }
    ensures form { form_of result ≡ input.entry.form }
    ensures bytes { bytes_of result ≡ read_bytes file.now.read }
{
    match &file.read {
        ItemRead::File(FileRead::Linked(elf)) => InputBytes::Linked(elf),
        ItemRead::File(FileRead::Whole(bytes)) => InputBytes::whole(input.form, bytes),
        ItemRead::Mapped(_) | ItemRead::Core(_) => unreachable!(),
    }
}

/// Returns the inputs that were loaded, in order.
pub fn inputs_in<'b>(alloc: Global, loaded: &'b [Loaded<'_>]) -> Result<Vec<Input<'b>>, NoMemory>
    requires { (inputs : List InputWords) × (loaded_items loaded.now ≡ map InputItem inputs) }
    ensures { (inputs : List InputWords) → loaded_items loaded.now ≡ map InputItem inputs → IfOk result (λ made. map object_of made.items ≡ objects_in inputs (loaded_bytes loaded.now)) }
{
    let mut inputs = Vec::new(alloc);
    for file in loaded {
        let Item::Input(input) = file.item else {
            unreachable!()
        };
        inputs.push(Input {
            bytes: input_bytes(input, file),
            base: input.base,
        })?;
    }
    Ok(inputs)
}
