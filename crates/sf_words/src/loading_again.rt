//! Loading core files once more, with more wanted of them.

ghost use Rattle.std.specs.Prelude.{◌≡◌, ◌<◌, ◌^◌, true, All, length, IsTrue, IfErr, OnOk};
ghost use Rattle.core_parts.specs.declared.loading.Wanted.TheVariants.{Whole};
ghost use Rattle.sf_base.specs.Faults.{Rose};
ghost use Rattle.sf_base.specs.Seen.{OnlyReads};
ghost use Rattle.sf_words.specs.Items.{is_core, name_of};
ghost use Rattle.sf_words.specs.Loading.{AreLoaded, AreReadWhole, IsLoadingRefusal, IsRead, NamesFailed, loaded_bytes, loaded_items};

use crate::loaded::Loaded;
use crate::loading::{load_item, not_loaded};
use crate::refusal::Refusal;
use core_parts::Wanted;
use sf_base::Files;
use std::alloc::Global;

/// Puts what was loaded in the place of what was loaded there before.
fn replace<'a>(place: &mut Loaded<'a>, loaded: Loaded<'a>)
    ensures { place.new ≡ loaded.entry }
{
    *place = loaded;
}

/// Loads the core files among what was loaded once more, with what is wanted of them now. No other file is opened, since
/// a pipe can be read only once.
///
/// # Errors
///
/// `Refusal::Read` names the core file whose open or read failed, `Refusal::Limit` has the limit that its bytes exceed,
/// and `Refusal::Memory` means that memory ran out.
pub fn load_cores_again<'a, F: Files>(
    alloc: Global,
    loaded: &mut Vec<Loaded<'a>>,
    files: &mut F,
    wanted: Wanted<'_>,
) -> Result<(), Refusal<'a>>
    requires few { length loaded.old.items < 2 ^ 32 }
    requires open { All (λ item. is_core item ≡ true → IsTrue (F.may_open files.old (name_of item))) (loaded_items loaded.old.items) }
    requires loaded { AreLoaded ((F.seen files.old).contents) (loaded_items loaded.old.items) (loaded_bytes loaded.old.items) }
    ensures items { OnOk result (loaded_items loaded.new.items ≡ loaded_items loaded.old.items) }
    ensures loaded { OnOk result (AreLoaded ((F.seen files.old).contents) (loaded_items loaded.old.items) (loaded_bytes loaded.new.items)) }
    ensures whole { OnOk result (wanted.entry ≡ Wanted.Whole → AreReadWhole loaded.new.items) }
    ensures refused { IfErr result (IsLoadingRefusal ((F.seen files.old).contents) (loaded_items loaded.old.items)) }
    ensures read { IfErr result (λ refused. IsRead refused → Rose ((F.seen files.old).read_faults) ((F.seen files.new).read_faults)) }
    ensures failed_name { IfErr result (NamesFailed ((F.seen files.new).failed_name)) }
    ensures reads { OnlyReads (F.seen files.old) (F.seen files.new) }
    ensures same { OnOk result (F.seen files.new ≡ F.seen files.old) }
    ensures may_open { F.may_open files.new ≡ F.may_open files.old }
    ensures may_create { F.may_create files.new ≡ F.may_create files.old }
{
    for k in 0..loaded.len() {
        let item = loaded[k].item;
        if item.is_core() {
            let read = match load_item(alloc, files, &item, wanted) {
                Ok(read) => read,
                Err(fault) => return Err(not_loaded(fault, k as u32, &item)),
            };
            replace(&mut loaded[k], Loaded { item, read });
        }
    }
    Ok(())
}
