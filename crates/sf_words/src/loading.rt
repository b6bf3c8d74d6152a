//! Loading the files that a command reads.

ghost use Rattle.std.specs.Prelude.{◌≡◌, ◌<◌, ◌≤◌, ◌^◌, ℕ, true, false, All, map, length, IsTrue, IfOk, IfErr, IfSome, IsErrOf, OnOk};
ghost use Rattle.core_parts.specs.declared.loading.Wanted.TheVariants.{Whole};
ghost use Rattle.sf_base.specs.Contents.{contents_of};
ghost use Rattle.sf_base.specs.Faults.{Rose};
ghost use Rattle.sf_base.specs.Seen.{OnlyReads};
ghost use Rattle.sf_base.specs.declared.loading.LoadFault.TheVariants.{Read, TooLong};
ghost use Rattle.sf_parts.specs.Read.{file_of};
ghost use Rattle.sf_words.specs.Files.{counted_items, files_of, item_names, items_of};
ghost use Rattle.sf_words.specs.ItemRead.{is_read_whole, read_bytes};
ghost use Rattle.sf_words.specs.Items.{is_core, is_mapped, item_of, limit_of, most_read, name_of, suits};
ghost use Rattle.sf_words.specs.Loading.{AreLoaded, AreReadWhole, IsLoadRefusal, IsLoadingRefusal, IsRead, NamesFailed, loaded_bytes, loaded_items};

use crate::files::{CommandFiles, items};
use crate::item::Item;
use crate::item_read::ItemRead;
use crate::loaded::Loaded;
use crate::refusal::{Limit, Refusal};
use core_parts::{Wanted, load_core};
use elf_mapped::load_mapped;
use sf_base::{Files, LoadFault, load};
use sf_parts::{FileRead, load_parts};
use std::alloc::Global;

/// The most bytes of all files of one run, without cores.
const TOTAL_LIMIT: u64 = 1 << 30;

/// Returns why the item of this number was not loaded, as a refusal of the run.
pub(crate) fn not_loaded<'a>(fault: LoadFault, number: u32, item: &Item<'a>) -> Refusal<'a>
    ensures { IsLoadRefusal fault number (name_of (item_of item.now)) result }
{
    match fault {
        LoadFault::Read => Refusal::Read(item.name()),
        LoadFault::TooLong(_) => Refusal::Limit(Limit::File(number)),
        LoadFault::NoMemory => Refusal::Memory,
    }
}

/// Loads the file of an input or a section: of an ELF file that is linked the parts that are needed, if it is clear that they
/// are enough, and else the whole.
fn load_file<F: Files>(alloc: Global, files: &mut F, item: &Item<'_>) -> Result<FileRead, LoadFault>
    requires open { IsTrue (F.may_open files.old (name_of (item_of item.now))) }
    requires not_mapped { is_mapped (item_of item.now) ≡ false }
    requires not_core { is_core (item_of item.now) ≡ false }
    ensures file { IfOk result (λ read. IfSome ((F.seen files.old).contents) (λ known.
        file_of read ≡ contents_of known (name_of (item_of item.now)))) }
    ensures within { IfOk result (λ read. length (file_of read) ≤ limit_of (item_of item.now)) }
    ensures suits { IfOk result (λ read. IsTrue (suits (item_of item.now) (ItemRead.File read))) }
    ensures read { IsErrOf result LoadFault.Read →
        Rose ((F.seen files.old).read_faults) ((F.seen files.new).read_faults) }
    ensures failed_name { IsErrOf result LoadFault.Read →
        IfSome ((F.seen files.new).failed_name) (λ failed. failed ≡ name_of (item_of item.now)) }
    ensures longer { (n : ℕ) → IsErrOf result (LoadFault.TooLong n) → IfSome ((F.seen files.old).contents) (λ known.
        limit_of (item_of item.now) < length (contents_of known (name_of (item_of item.now)))) }
    ensures may_open { F.may_open files.new ≡ F.may_open files.old }
    ensures may_create { F.may_create files.new ≡ F.may_create files.old }
    ensures reads { OnlyReads (F.seen files.old) (F.seen files.new) }
    ensures same { OnOk result (F.seen files.new ≡ F.seen files.old) }
{
    let (name, limit) = (item.name(), item.limit());
    if item.is_elf_input() {
        return load_parts(alloc, files, name, limit);
    }
    Ok(FileRead::Whole(load(alloc, files, name, limit)?))
}

/// Loads the file of an item: of a core file what is wanted, of a file that may have been mapped what a walk needs, both by
/// their parts if it is clear that they are enough.
pub(crate) fn load_item<F: Files>(
    alloc: Global,
    files: &mut F,
    item: &Item<'_>,
    wanted: Wanted<'_>,
) -> Result<ItemRead, LoadFault>
    requires { IsTrue (F.may_open files.old (name_of (item_of item.now))) }
    ensures file { IfOk result (λ read. IfSome ((F.seen files.old).contents) (λ known.
        read_bytes read ≡ contents_of known (name_of (item_of item.now)))) }
    ensures within { IfOk result (λ read. length (read_bytes read) ≤ limit_of (item_of item.now)) }
    ensures short { IfOk result (λ read. is_read_whole read ≡ true → length (read_bytes read) ≤ most_read (item_of item.now)) }
    ensures suits { IfOk result (λ read. IsTrue (suits (item_of item.now) read)) }
    ensures whole { IfOk result (λ read. wanted.entry ≡ Wanted.Whole → is_read_whole read ≡ true) }
    ensures read { IsErrOf result LoadFault.Read →
        Rose ((F.seen files.old).read_faults) ((F.seen files.new).read_faults) }
    ensures failed_name { IsErrOf result LoadFault.Read →
        IfSome ((F.seen files.new).failed_name) (λ failed. failed ≡ name_of (item_of item.now)) }
    ensures longer { (n : ℕ) → IsErrOf result (LoadFault.TooLong n) → IfSome ((F.seen files.old).contents) (λ known.
        most_read (item_of item.now) < length (contents_of known (name_of (item_of item.now)))) }
    ensures may_open { F.may_open files.new ≡ F.may_open files.old }
    ensures may_create { F.may_create files.new ≡ F.may_create files.old }
    ensures reads { OnlyReads (F.seen files.old) (F.seen files.new) }
    ensures same { OnOk result (F.seen files.new ≡ F.seen files.old) }
{
    if item.is_core() {
        let core = load_core(
            alloc,
            files,
            item.name(),
            item.limit(),
            item.most_read(),
            wanted,
        )?;
        return Ok(ItemRead::Core(core));
    }
    if item.is_mapped() {
        let mapped = load_mapped(alloc, files, item.name(), item.limit())?;
        return Ok(ItemRead::Mapped(mapped));
    }
    Ok(ItemRead::File(load_file(alloc, files, item)?))
}

/// Loads the items in order, of core files what is wanted.
fn load_items<'a, F: Files>(
    alloc: Global,
    items: &[Item<'a>],
    files: &mut F,
    wanted: Wanted<'_>,
) -> Result<Vec<Loaded<'a>>, Refusal<'a>>
    requires few { length items.now < 2 ^ 32 }
    requires open { All (λ item. IsTrue (F.may_open files.old (name_of (item_of item)))) items.now }
    ensures items { IfOk result (λ loaded. loaded_items loaded.items ≡ map item_of items.now) }
    ensures loaded { IfOk result (λ loaded. AreLoaded ((F.seen files.old).contents) (map item_of items.now) (loaded_bytes loaded.items)) }
    ensures whole { IfOk result (λ loaded. wanted.entry ≡ Wanted.Whole → AreReadWhole loaded.items) }
    ensures refused { IfErr result (IsLoadingRefusal ((F.seen files.old).contents) (map item_of items.now)) }
    ensures read { IfErr result (λ refused. IsRead refused → Rose ((F.seen files.old).read_faults) ((F.seen files.new).read_faults)) }
    ensures failed_name { IfErr result (NamesFailed ((F.seen files.new).failed_name)) }
    ensures reads { OnlyReads (F.seen files.old) (F.seen files.new) }
    ensures same { OnOk result (F.seen files.new ≡ F.seen files.old) }
    ensures may_open { F.may_open files.new ≡ F.may_open files.old }
    ensures may_create { F.may_create files.new ≡ F.may_create files.old }
{
    let mut loaded: Vec<Loaded<'a>> = Vec::new(alloc);
    let mut total = 0u64;
    for item in items {
        let number = loaded.len() as u32;
        let read = match load_item(alloc, files, item, wanted) {
            Ok(read) => read,
            Err(fault) => return Err(not_loaded(fault, number, item)),
        };
        total += item.counted(read.len());
        if total > TOTAL_LIMIT {
            return Err(Refusal::Limit(Limit::Total));
        }
        loaded.push(Loaded { item: *item, read })?;
    }
    Ok(loaded)
}

/// Loads the files that a command reads, and returns them in order. Of core files it reads what is wanted.
///
/// # Errors
///
/// `Refusal::Read` names the item whose open or read failed, `Refusal::Limit` has the limit that the bytes exceed,
/// and `Refusal::Memory` means that memory ran out.
pub fn load_all<'a, F: Files>(
    alloc: Global,
    command: &CommandFiles<'a>,
    files: &mut F,
    wanted: Wanted<'_>,
) -> Result<Vec<Loaded<'a>>, Refusal<'a>>
    requires few { counted_items (files_of command.now) ≤ 512 }
    requires open { All (λ name. IsTrue (F.may_open files.old name)) (item_names (files_of command.now)) }
    ensures items { IfOk result (λ loaded. loaded_items loaded.items ≡ items_of (files_of command.now)) }
    ensures loaded { IfOk result (λ loaded. AreLoaded ((F.seen files.old).contents) (items_of (files_of command.now)) (loaded_bytes loaded.items)) }
    ensures whole { IfOk result (λ loaded. wanted.entry ≡ Wanted.Whole → AreReadWhole loaded.items) }
    ensures refused { IfErr result (IsLoadingRefusal ((F.seen files.old).contents) (items_of (files_of command.now))) }
    ensures read { IfErr result (λ refused. IsRead refused → Rose ((F.seen files.old).read_faults) ((F.seen files.new).read_faults)) }
    ensures failed_name { IfErr result (NamesFailed ((F.seen files.new).failed_name)) }
    ensures reads { OnlyReads (F.seen files.old) (F.seen files.new) }
    ensures same { OnOk result (F.seen files.new ≡ F.seen files.old) }
    ensures may_open { F.may_open files.new ≡ F.may_open files.old }
    ensures may_create { F.may_create files.new ≡ F.may_create files.old }
{
    let items = items(alloc, command)?;
    load_items(alloc, &items, files, wanted)
}
