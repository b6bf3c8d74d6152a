//! The walks of a core file's threads, for the commands that walk.

ghost use Rattle.std.specs.Prelude.{◌≡◌, IfErr, IfOk, OnOk};
ghost use Rattle.sf_model.specs.Walk.{look_up_walk, section_walk};
ghost use Rattle.sf_decode.specs.View.{table_of};
ghost use Rattle.core_notes.specs.Checks.{file_threads};
ghost use Rattle.core_notes.specs.Memory.{file_regions};
ghost use Rattle.core_parts.specs.Input.{input_file, is_by_parts, is_part, memory_file};
ghost use Rattle.core_walk.specs.Walk.{thread_state};
ghost use Rattle.sf_merge.specs.Merging.{same_arch};
ghost use Rattle.section_commands.specs.Coming.{Coming, Refused};
ghost use Rattle.section_commands.specs.Making.{ComesAs, IsUnfinished};
ghost use Rattle.section_commands.specs.Walks as spec;
ghost use Rattle.section_commands.specs.Walks.{HasOneMore, coming_of_core, listing_text, shown_of_mixed, texts_view};

use crate::made::Unmade;
use core_notes::{CoreFault, Thread};
use core_parts::{CoreInput, InputMemory, Walked, walk_input};
use core_walk::LookUp;
use sf_base::NoMemory;
use sf_decode::View;
use sf_lookup::Indexed;
use sf_merge::MergeFault;
use sf_model::Arch;
use sf_text::thread_text;
use sf_words::{Limit, Refusal};
use std::alloc::Global;

/// Returns why the core file of an item was not read, as a refusal of the run.
pub fn unread_core<'a>(fault: &CoreFault, item: u32) -> Refusal<'a>
    ensures { ComesAs (λ (coming : Coming). coming ≡ coming_of_core item fault.now) result }
{
    match fault {
        CoreFault::TooManyThreads => Refusal::Limit(Limit::Threads),
        _ => Refusal::Input(fault.notice(Some(item))),
    }
}

/// Returns that item 0 and this item are for different machines, as a refusal of the run.
pub fn mixed<'a>(item: u32) -> Refusal<'a>
    ensures { ComesAs (λ (coming : Coming). coming ≡ Refused (shown_of_mixed item)) result }
{
    Refusal::Input(MergeFault::MixedArch(0, item).notice(None))
}

/// Returns whether two machines are the same.
pub fn same_machine(one: Arch, other: Arch) -> bool
    ensures { result ≡ same_arch one other }
{
    one == other
}

/// The texts of walks, and the addresses of a core file's memory that have to be read for the other walks.
#[derive(Drop)]
struct WalkTexts {
    text: Vec<u8>,
    missed: Vec<u64>,
}

/// Appends the text of the walk of the thread of this number, or the address that has to be read for it.
fn push_walk<L: LookUp>(
    alloc: Global,
    rows: &L,
    memory: &InputMemory<'_>,
    depth: u32,
    number: u32,
    thread: &Thread,
    walks: &mut WalkTexts,
) -> Result<(), NoMemory>
    ensures { OnOk result (HasOneMore (is_part memory.now) (listing_text number thread.now (look_up_walk (L.found_at rows.now) (thread_state thread.now) (file_regions (memory_file memory.now)) depth)) (texts_view walks.old) (texts_view walks.new)) }
{
    match walk_input(alloc, rows, thread, memory, depth)? {
        Walked::Whole(walk) => {
            let text = thread_text(alloc, number, thread.pid, &walk)?;
            walks.text.extend_from_slice(&text)?;
        }
        Walked::Missed(address) => walks.missed.push(address)?,
    }
    Ok(())
}

/// Returns the texts of the walks of all threads, each of at most `depth` frames, by what rows are looked up in.
pub(crate) fn walks_text<'a, L: LookUp>(
    alloc: Global,
    rows: &L,
    core: &CoreInput<'_>,
    depth: u32,
) -> Result<Vec<u8>, Unmade<'a>>
    ensures text { IfOk result (λ text. text.items ≡ spec.walks_text (λ thread. look_up_walk (L.found_at rows.now) thread (file_regions (input_file core.now)) depth) 0 (file_threads (input_file core.now))) }
    ensures unfinished { IfErr result (IsUnfinished (is_by_parts core.now)) }
{
    let memory = core.memory(alloc)?;
    let threads = core.threads(alloc)?;
    let mut walks = WalkTexts {
        text: Vec::new(alloc),
        missed: Vec::new(alloc),
    };
    let mut number = 0;
    for thread in &threads {
        push_walk(alloc, rows, &memory, depth, number, thread, &mut walks)?;
        number += 1;
    }
    if walks.missed.is_empty() {
        Ok(walks.text)
    } else {
        Err(Unmade::Unread(walks.missed))
    }
}

/// Returns the texts of the walks of all threads by the rows of a section. If its functions are not sorted, they are
/// sorted once for all threads.
///
/// # Errors
///
/// `Unmade::Unread` if more of the core file has to be read, of which parts were, and `Refusal::Memory`.
#[tactic(auto, unfolding(sf_model::specs::Walk::section_walk))]
pub fn view_walks<'a>(
    alloc: Global,
    view: &View<'_>,
    core: &CoreInput<'_>,
    depth: u32,
) -> Result<Vec<u8>, Unmade<'a>>
    ensures text { IfOk result (λ text. text.items ≡ spec.walks_text (λ thread. section_walk (table_of view.now).functions thread (file_regions (input_file core.now)) depth) 0 (file_threads (input_file core.now))) }
    ensures unfinished { IfErr result (IsUnfinished (is_by_parts core.now)) }
{
    let indexed = Indexed::new(alloc, *view)?;
    walks_text(alloc, &indexed, core, depth)
}
