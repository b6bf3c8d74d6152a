//! The files of a command: what it makes and what it reads.

ghost use Rattle.std.specs.Prelude.{◌≡◌, ◌++◌, length, map, IfOk, OnOk};
ghost use Rattle.std.specs.String.{string_bytes};
ghost use Rattle.sf_words.specs.Files.{files_of, items_in, items_of, list_items};
ghost use Rattle.sf_words.specs.Items.{item_of};
ghost use Rattle.sf_words.specs.Naming.{FilesNamed};

use crate::file_word::FileWord;
use crate::item::Item;
use crate::lists::file_at;
use crate::named::{NamedInputs, NamedSections};
use crate::words::{InputFile, SectionFile};
use sf_base::NoMemory;
use std::alloc::{AllocError, Global};

/// The files that a command's list names.
#[derive(Clone, Copy)]
pub enum FileList<'a> {
    /// The command has no list.
    None,
    Inputs(NamedInputs<'a>),
    Sections(NamedSections<'a>),
    /// The names of the ELF files that a process had mapped.
    Mapped(&'a [String]),
}

/// The files of a command. It borrows the words, and making it allocates nothing.
#[derive(Clone, Copy)]
pub struct CommandFiles<'a> {
    /// The name of the file that the command makes.
    pub out: Option<&'a str>,
    pub first: Option<Item<'a>>,
    pub second: Option<Item<'a>>,
    pub list: FileList<'a>,
}

impl<'a> FileList<'a> {
    /// Returns how many files the list names.
    pub fn len(&self) -> usize
        ensures { result ≡ length (list_items self.now) }
    {
        match self {
            FileList::None => 0,
            FileList::Inputs(inputs) => inputs.len(),
            FileList::Sections(sections) => sections.len(),
            FileList::Mapped(names) => names.len(),
        }
    }
}

/// Appends an item, if there is one.
fn push_item<'a>(items: &mut Vec<Item<'a>>, item: Option<Item<'a>>) -> Result<(), AllocError>
    ensures { OnOk result (map item_of items.new.items ≡ map item_of items.old.items ++ items_in item.entry) }
{
    if let Some(item) = item {
        items.push(item)?;
    }
    Ok(())
}

/// Appends the files that the words name.
fn push_files<'a, F: FileWord<'a>>(
    items: &mut Vec<Item<'a>>,
    words: &'a [String],
) -> Result<(), AllocError>
    requires { FilesNamed F.Says (map string_bytes words.now) }
    ensures { (named : FilesNamed F.Says (map string_bytes words.now)) → OnOk result (map item_of items.new.items ≡ map item_of items.old.items ++ map F.item_said named.0) }
{
    for index in 0..words.len() {
        items.push(file_at::<F>(words, index).item())?;
    }
    Ok(())
}

/// Appends the mapped files of these names.
fn push_mapped<'a>(items: &mut Vec<Item<'a>>, names: &'a [String]) -> Result<(), AllocError>
    ensures { OnOk result (map item_of items.new.items ≡ map item_of items.old.items ++ list_items (FileList.Mapped names.entry)) }
{
    for name in names {
        items.push(Item::Mapped(name))?;
    }
    Ok(())
}

/// Appends the files that a list names.
fn push_list<'a>(items: &mut Vec<Item<'a>>, list: FileList<'a>) -> Result<(), AllocError>
    ensures { OnOk result (map item_of items.new.items ≡ map item_of items.old.items ++ list_items list.entry) }
{
    match list {
        FileList::None => Ok(()),
        FileList::Inputs(inputs) => push_files::<InputFile<'_>>(items, inputs.words),
        FileList::Sections(sections) => push_files::<SectionFile<'_>>(items, sections.words),
        FileList::Mapped(names) => push_mapped(items, names),
    }
}

/// Returns the files that a command reads, in order.
pub(crate) fn items<'a>(
    alloc: Global,
    command: &CommandFiles<'a>,
) -> Result<Vec<Item<'a>>, NoMemory>
    ensures { IfOk result (λ items. map item_of items.items ≡ items_of (files_of command.now)) }
{
    let mut items = Vec::new(alloc);
    push_item(&mut items, command.first)?;
    push_item(&mut items, command.second)?;
    push_list(&mut items, command.list)?;
    Ok(items)
}
