//! The functions of one section in order. Their rows stay in the section.

ghost use Rattle.std.specs.Prelude.{◌≡◌, ◌<◌, length, get_or};
ghost use Rattle.sf_decode.specs.View.{head_of, rows_left};
ghost use Rattle.sf_merge.specs.InSection.{AreSectionEntries, IsEntry, all_at};
ghost use Rattle.sf_merge.specs.declared.located.Located.{Located as located_fact};

use sf_decode::{RowIter, View};
use sf_functions::{HasSize, HasStart};
use sf_model::FuncHead;
use std::marker::Model;

/// The entry of a function of a section, and the addresses that the function takes up.
#[derive(Clone, Copy)]
pub struct SectionEntry {
    pub start: u64,
    pub size: u32,
    /// The number of the entry in the section, from 0.
    pub number: u32,
}

impl HasStart for SectionEntry {
    ghost first_address = { λ e. e.start };

    #[inline(always)]
    fn start(&self) -> u64 {
        self.start
    }
}

impl HasSize for SectionEntry {
    ghost size_of = { λ e. e.size };

    #[inline(always)]
    fn size(&self) -> u64 {
        u64::from(self.size)
    }
}

/// Functions of a section. A contract sees them as a list. Their rows are read from the section when they
/// are asked for: 16 bytes are kept for each function.
#[derive(Drop)]
pub struct SectionFunctions<'a> {
    pub(crate) view: View<'a>,
    pub(crate) entries: Vec<SectionEntry>,
}

impl<'a> Model for SectionFunctions<'a> {
    ghost use Rattle.std.specs.Prelude.{All, List};
    ghost use Rattle.sf_merge.specs.declared.located.Located.{Located as located};
    ghost use Rattle.sf_merge.specs.InSection.{IsEntry, all_at};

    ghost Value = { List located };

    ghost view = { λ f. all_at f.view f.entries.items };

    ghost invariant = { λ f. All (IsEntry f.view) f.entries.items };
}

impl<'a> SectionFunctions<'a> {
    /// Returns how many functions there are.
    #[inline(always)]
    pub fn len(&self) -> usize
        ensures { result ≡ length self.now }
    {
        self.entries.len()
    }

    /// Returns where the function at a place of the order starts.
    #[inline(always)]
    pub fn start(&self, place: usize) -> u64
        requires { place < length self.now }
        ensures { (d : located_fact) → result ≡ (get_or self.now place d).func.start }
    {
        self.entries[place].start
    }

    /// Returns the function at a place of the order, without its rows.
    #[inline(always)]
    pub fn head(&self, place: usize) -> FuncHead
        requires { place < length self.now }
        ensures { (d : located_fact) → result ≡ head_of (get_or self.now place d).func }
    {
        self.view.func(self.entries[place].number)
    }

    /// Returns the rows of the function at a place of the order.
    #[inline(always)]
    pub fn rows(&self, place: usize) -> RowIter<'a>
        requires { place < length self.now }
        ensures { (d : located_fact) → rows_left result ≡ (get_or self.now place d).func.rows }
    {
        self.view.rows(self.entries[place].number)
    }

    /// Returns the entries of the functions.
    pub fn entries(&self) -> &[SectionEntry]
        ensures { AreSectionEntries result.now self.now }
    {
        self.entries.as_slice()
    }
}
