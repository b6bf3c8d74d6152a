//! `upgrade OUT@AT FILE@AT`: a Version 2 section made into one of Version 3.

ghost use Rattle.std.specs.Prelude.{◌≡◌, List, ℕ, Some, map, IfSome, IsSomeAnd};
ghost use Rattle.std.specs.String.{string_bytes};
ghost use Rattle.sf_decode.specs.Decoding.{section_check};
ghost use Rattle.sf_words.specs.Files.{files_of, items_of};
ghost use Rattle.sf_words.specs.Loading.{loaded_bytes, loaded_items};
ghost use Rattle.sf3_upgrade.specs.FaultShown.{shown_of_upgrading};
ghost use Rattle.section_commands.specs.Coming.{Coming, Refused};
ghost use Rattle.section_commands.specs.Making.{ComesAs, ComesTo};
ghost use Rattle.section_commands.specs.Upgrade.{IsUpgrade, UpgradeComes, UpgradeComesFrom, UpgradeWords, upgrade_files, upgrade_of};

use crate::made::{Made, Outcome};
use crate::section::undecoded;
use sf_decode::View;
use sf_text::{Output, upgraded};
use sf_words::{
    CommandFiles, FileList, Item, Loaded, Refusal, SectionFile, section_file, three_words,
};
use sf3_upgrade::{UpgradeFault, upgrade};
use std::alloc::Global;

/// The words of `upgrade OUT@AT FILE@AT`.
#[derive(Clone, Copy)]
pub struct Upgrade<'a> {
    pub out: SectionFile<'a>,
    pub section: SectionFile<'a>,
}

/// Returns why the section of the first item was not upgraded, as a refusal of the run.
fn not_upgraded<'a>(fault: UpgradeFault) -> Refusal<'a>
    ensures memory { (fault ≡ UpgradeFault.NoMemory) → (result ≡ Refusal.Memory) }
    ensures is { ComesAs (λ (coming : Coming). coming ≡ Refused (shown_of_upgrading (Some 0) fault)) result }
{
    match fault {
        UpgradeFault::NoMemory => Refusal::Memory,
        UpgradeFault::Overlap(_) | UpgradeFault::TooManyRows(_) => {
            Refusal::Input(fault.notice(Some(0)))
        }
    }
}

/// Returns the section of these bytes, which is at `from`, upgraded for the address `at`.
fn upgrade_made<'a, 'm>(
    alloc: Global,
    bytes: &[u8],
    from: u64,
    at: u64,
) -> Result<Made<'m>, Refusal<'a>>
    ensures { ComesTo (UpgradeComesFrom from bytes.now at (section_check bytes.now from)) result }
{
    let view = match View::parse(bytes, from) {
        Ok(view) => view,
        Err(fault) => return Err(undecoded(fault, 0)),
    };
    match upgrade(alloc, &view, at) {
        Ok(made) => {
            let text = upgraded(alloc, made.functions, made.rows)?;
            Ok(Made {
                outcome: Outcome::Done,
                section: Some(made.section),
                output: Output::Text(text),
            })
        }
        Err(fault) => Err(not_upgraded(fault)),
    }
}

impl<'a> Upgrade<'a> {
    /// Returns what the words ask for, if they have this form.
    pub fn read(words: &'a [String]) -> Option<Upgrade<'a>>
        ensures found { IfSome result (λ upgrade. IsUpgrade (map string_bytes words.now) (upgrade_of upgrade)) }
        ensures only { (upgrade : UpgradeWords) → IsUpgrade (map string_bytes words.now) upgrade → IsSomeAnd result (λ found. upgrade_of found ≡ upgrade) }
    {
        let (command, out, section) = three_words(words)?;
        if command != "upgrade" {
            return None;
        }
        let out = section_file(out)?;
        let section = section_file(section)?;
        Some(Upgrade { out, section })
    }

    /// Returns the files of the command.
    pub fn files(&self) -> CommandFiles<'a>
        ensures { files_of result ≡ upgrade_files (upgrade_of self.now) }
    {
        CommandFiles {
            out: Some(self.out.name),
            first: Some(Item::Section(self.section)),
            second: None,
            list: FileList::None,
        }
    }

    /// Returns the upgraded section.
    ///
    /// # Errors
    ///
    /// `Refusal::Input` shows what is refused, `Refusal::Limit` has the limit of functions or rows that is exceeded,
    /// and `Refusal::Memory` means that memory ran out.
    pub fn make<'m>(&self, alloc: Global, loaded: &'m [Loaded<'a>]) -> Result<Made<'m>, Refusal<'a>>
        requires items { loaded_items loaded.now ≡ items_of (upgrade_files (upgrade_of self.now)) }
        ensures comes { ComesTo (UpgradeComes (upgrade_of self.now) (loaded_bytes loaded.now)) result }
    {
        match loaded {
            [section] => upgrade_made(alloc, section.bytes(), self.section.at, self.out.at),
            _ => unreachable!(),
        }
    }
}
