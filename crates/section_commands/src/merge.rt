//! `merge OUT@AT FILE@AT ..`: the union of sections.

ghost use Rattle.std.specs.Prelude.{◌≡◌, ◌≤◌, List, ℕ, None, length, map, IfOk, IfErr, IfSome, IsSomeAnd};
ghost use Rattle.std.specs.List.{zip};
ghost use Rattle.std.specs.String.{string_bytes};
ghost use Rattle.sf_decode.specs.View.{table_of};
ghost use Rattle.sf_words.specs.Files.{files_of, items_of};
ghost use Rattle.sf_words.specs.Items.{Section};
ghost use Rattle.sf_words.specs.Loading.{files_limit, loaded_bytes, loaded_items};
ghost use Rattle.sf_words.specs.Named.{named_sections};
ghost use Rattle.section_commands.specs.Coming.{Coming};
ghost use Rattle.section_commands.specs.Making.{ComesAs, ComesTo};
ghost use Rattle.section_commands.specs.Merge.{AreWithin, IsMerge, MergeComes, MergeWords, ReadingStops, coming_of_merging, merge_files, merge_of};

use crate::limits::exceeded_limit;
use crate::made::{Made, Outcome};
use crate::section::undecoded;
use sf_decode::View;
use sf_merge::{MergeFault, merge};
use sf_text::{Output, merged};
use sf_words::{
    CommandFiles, FileList, Item, Limit, Loaded, NamedSections, Refusal, SectionFile,
    out_and_items, section_file,
};
use std::alloc::Global;

/// The words of `merge OUT@AT FILE@AT ..`.
#[derive(Clone, Copy)]
pub struct Merge<'a> {
    pub out: SectionFile<'a>,
    pub sections: NamedSections<'a>,
}

/// Returns why sections were not merged, as a refusal of the run.
fn unmerged<'a>(fault: MergeFault) -> Refusal<'a>
    ensures memory { (fault ≡ MergeFault.NoMemory) → (result ≡ Refusal.Memory) }
    ensures is { ComesAs (λ (coming : Coming). coming ≡ coming_of_merging fault) result }
{
    match fault {
        MergeFault::NoMemory => Refusal::Memory,
        MergeFault::TooManyFunctions => Refusal::Limit(Limit::Functions),
        MergeFault::TooManyRows => Refusal::Limit(Limit::Rows),
        MergeFault::MixedArch(_, _) | MergeFault::Overlap(_, _, _, _) | MergeFault::OutOfReach(_) =>
            { Refusal::Input(fault.notice(None)) }
    }
}

/// Returns the sections of these bytes, in order. The limits are checked after each section, before the next is read.
fn views_of<'a, 'm>(
    alloc: Global,
    sections: NamedSections<'_>,
    loaded: &'m [Loaded<'a>],
) -> Result<Vec<View<'m>>, Refusal<'a>>
    requires items { loaded_items loaded.now ≡ map Section (named_sections sections) }
    requires few { length (named_sections sections) ≤ 512 }
    ensures count { IfOk result (λ views. length views.items ≡ length loaded.now) }
    ensures are { IfOk result (λ views. AreWithin (zip (named_sections sections.entry) (loaded_bytes loaded.now)) (map table_of views.items)) }
    ensures stops { IfErr result (ComesAs (ReadingStops (zip (named_sections sections.entry) (loaded_bytes loaded.now)))) }
{
    let mut views: Vec<View<'m>> = Vec::new(alloc);
    let mut functions = 0;
    let mut rows = 0;
    for file in loaded {
        let Item::Section(section) = file.item else {
            unreachable!();
        };
        let item = views.len() as u32;
        let view = match View::parse(file.bytes(), section.at) {
            Ok(view) => view,
            Err(fault) => return Err(undecoded(fault, item)),
        };
        functions += view.len() as usize;
        rows += view.row_count() as usize;
        if let Some(limit) = exceeded_limit(functions, rows) {
            return Err(Refusal::Limit(limit));
        }
        views.push(view)?;
    }
    Ok(views)
}

impl<'a> Merge<'a> {
    /// Returns what the words ask for, if they have this form.
    pub fn read(words: &'a [String]) -> Option<Merge<'a>>
        ensures found { IfSome result (λ merge. IsMerge (map string_bytes words.now) (merge_of merge)) }
        ensures only { (merge : MergeWords) → IsMerge (map string_bytes words.now) merge → IsSomeAnd result (λ found. merge_of found ≡ merge) }
    {
        let (command, out, sections) = out_and_items(words)?;
        if command != "merge" {
            return None;
        }
        let out = section_file(out)?;
        let sections = NamedSections::read(sections)?;
        Some(Merge { out, sections })
    }

    /// Returns the files of the command.
    pub fn files(&self) -> CommandFiles<'a>
        ensures { files_of result ≡ merge_files (merge_of self.now) }
    {
        CommandFiles {
            out: Some(self.out.name),
            first: None,
            second: None,
            list: FileList::Sections(self.sections),
        }
    }

    /// Returns the merged section.
    ///
    /// # Errors
    ///
    /// `Refusal::Input` shows what is refused, `Refusal::Limit` has the limit of functions or rows that is exceeded,
    /// and `Refusal::Memory` means that memory ran out.
    pub fn make<'m>(&self, alloc: Global, loaded: &'m [Loaded<'a>]) -> Result<Made<'m>, Refusal<'a>>
        requires asked { (words : List (List ℕ)) × IsMerge words (merge_of self.now) }
        requires items { loaded_items loaded.now ≡ items_of (merge_files (merge_of self.now)) }
        requires within { files_limit (merge_files (merge_of self.now)) (loaded_bytes loaded.now) ≡ None }
        ensures comes { ComesTo (MergeComes (merge_of self.now) (loaded_bytes loaded.now)) result }
    {
        let views = views_of(alloc, self.sections, loaded)?;
        match merge(alloc, &views, self.out.at) {
            Ok(union) => {
                let text = merged(alloc, union.functions, union.rows)?;
                Ok(Made {
                    outcome: Outcome::Done,
                    section: Some(union.section),
                    output: Output::Text(text),
                })
            }
            Err(fault) => Err(unmerged(fault)),
        }
    }
}
