//! A file that was loaded.

ghost use Rattle.std.specs.Prelude.{◌≡◌, ◌<◌, ◌≤◌, ◌^◌, true, false, length, IsTrue};
ghost use Rattle.core_parts.specs.Loaded.{core_read_bytes, is_whole};
ghost use Rattle.elf_mapped.specs.Program.{all_bytes};
ghost use Rattle.sf_words.specs.ItemRead.{is_read_whole, read_bytes};
ghost use Rattle.sf_words.specs.Items.{is_core, is_mapped, item_of, may_be_by_parts, most_read, suits};

use crate::item::Item;
use crate::item_read::ItemRead;
use core_parts::CoreRead;
use elf_mapped::MappedBytes;
use sf_parts::FileRead;

/// A file that was loaded. Only an ELF file that is linked, one that may have been mapped, and a core file may have been read
/// by their parts.
#[derive(Drop)]
pub struct Loaded<'a> {
    pub item: Item<'a>,
    pub read: ItemRead,
    ghost suited: { IsTrue (suits (item_of item) read) },
    ghost short: { is_read_whole read ≡ true → length (read_bytes read) ≤ most_read (item_of item) },
}

impl<'a> Loaded<'a> {
    /// Lends all bytes of a section or a bare section of call frame information, which was read whole.
    pub fn bytes(&self) -> &[u8]
        requires { may_be_by_parts (item_of self.now.item) ≡ false }
        ensures { result.now ≡ read_bytes self.now.read }
    {
        match &self.read {
            ItemRead::File(FileRead::Whole(bytes)) => bytes,
            ItemRead::File(FileRead::Linked(_)) | ItemRead::Mapped(_) | ItemRead::Core(_) => {
                unreachable!()
            }
        }
    }

    /// Lends what was read of a file that a process may have had mapped.
    pub fn mapped(&self) -> MappedBytes<'_>
        requires { is_mapped (item_of self.now.item) ≡ true }
        ensures { all_bytes result ≡ read_bytes self.now.read }
    {
        match &self.read {
            ItemRead::Mapped(read) => read.bytes(),
            ItemRead::File(_) | ItemRead::Core(_) => unreachable!(),
        }
    }

    /// Lends what was read of a core file.
    pub fn core(&self) -> &CoreRead
        requires { is_core (item_of self.now.item) ≡ true }
        ensures bytes { core_read_bytes result.now ≡ read_bytes self.now.read }
        ensures whole { is_read_whole self.now.read ≡ is_whole result.now }
        ensures short { is_whole result.now ≡ true → length (core_read_bytes result.now) < 2 ^ 32 }
    {
        match &self.read {
            ItemRead::Core(core) => core,
            ItemRead::File(_) | ItemRead::Mapped(_) => unreachable!(),
        }
    }
}
