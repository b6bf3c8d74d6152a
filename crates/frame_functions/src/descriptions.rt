//! Omitted functions as their records describe them.

ghost use Rattle.std.specs.Prelude.{◌≡◌, ◌<◌, ◌++◌, [], ◌∷◌, IfOk, OnOk, get_or, length};
ghost use Rattle.frame_functions.specs.Functions.{Function as function};
ghost use Rattle.frame_functions.specs.Descriptions.{AreByStart, HasInitial, IsItemIn, CanBeRun, common_view, function_by_item, item_function, described_function};

use crate::description::{CommonPart, Description, DescriptionItem};
use sf_functions::sort_by_start;
use sf_model::FdeFacts;
use std::alloc::{AllocError, Global};
use std::marker::Model;

/// Functions as their records describe them, with their instructions lent from the inputs. What the functions of one
/// common information entry share is held once.
#[derive(Drop)]
pub struct Descriptions<'a> {
    common: Vec<CommonPart<'a>>,
    items: Vec<DescriptionItem<'a>>,
}

impl<'a> Model for Descriptions<'a> {
    ghost use Rattle.std.specs.Prelude.{All, map};
    ghost use Rattle.frame_functions.specs.Descriptions.{IsItemIn, DescriptionsView, commons_of, item_function};

    ghost Value = { DescriptionsView };

    ghost view = { λ s. record { common = commons_of s.common.items; functions = map (item_function (commons_of s.common.items)) s.items.items } };

    ghost invariant = { λ s. All (IsItemIn (commons_of s.common.items)) s.items.items };
}

/// Puts a function together of what it shares and what it has of its own.
#[inline(always)]
fn put_together<'a>(common: &CommonPart<'a>, item: &DescriptionItem<'a>) -> Description<'a>
    requires { CanBeRun (function_by_item (common_view common.now) item.now) }
    ensures { described_function result ≡ function_by_item (common_view common.now) item.now }
{
    Description {
        arch: common.arch,
        facts: FdeFacts {
            start: item.start,
            size: item.size,
            column: common.column,
            signal: common.signal,
            key: common.key,
        },
        code: common.code,
        factor: common.factor,
        initial: common.initial,
        row: common.row,
        own: item.own,
        origin: item.origin,
    }
}

impl<'a> Descriptions<'a> {
    /// Makes an empty list.
    pub(crate) fn new(alloc: Global) -> Descriptions<'a>
        ensures { result.functions ≡ [] }
    {
        Descriptions {
            common: Vec::new(alloc),
            items: Vec::new(alloc),
        }
    }

    /// Counts the functions.
    #[inline(always)]
    pub fn len(&self) -> usize
        ensures { result ≡ length self.now.functions }
    {
        self.items.len()
    }

    /// Returns the first address of a function.
    #[inline(always)]
    pub fn start(&self, number: usize) -> u64
        requires { number < length self.now.functions }
        ensures { (d : function) → result ≡ (get_or self.now.functions number d).start }
    {
        self.items[number].start
    }

    /// Returns the size of a function in bytes.
    #[inline(always)]
    pub fn size(&self, number: usize) -> u64
        requires { number < length self.now.functions }
        ensures { (d : function) → result ≡ (get_or self.now.functions number d).size }
    {
        self.items[number].size
    }

    /// Returns a function, put together of what it shares and what it has of its own.
    pub fn get(&self, number: usize) -> Description<'a>
        requires { number < length self.now.functions }
        ensures { (d : function) → described_function result ≡ get_or self.now.functions number d }
    {
        let item = &self.items[number];
        let common = &self.common[item.common as usize];
        put_together(common, item)
    }

    /// Returns the number of what a function shares with others: functions with the same number have the same initial
    /// instructions.
    #[inline(always)]
    pub fn common_number(&self, number: usize) -> u32
        requires { number < length self.now.functions }
        ensures { (d : function) → HasInitial self.now.common result (get_or self.now.functions number d).initial }
    {
        self.items[number].common
    }

    /// Adds what the functions of one more common information entry share, and returns its number.
    ///
    /// # Errors
    ///
    /// Out of memory; 2^32 of them count as that.
    pub(crate) fn add_common(&mut self, common: CommonPart<'a>) -> Result<u32, AllocError>
        ensures number { IfOk result (λ number. number ≡ length self.old.common) }
        ensures common { OnOk result (self.new.common ≡ self.old.common ++ common_view common.entry ∷ []) }
        ensures functions { OnOk result (self.new.functions ≡ self.old.functions) }
    {
        let number = u32::try_from(self.common.len()).map_err(|_| AllocError)?;
        self.common.push(common)?;
        Ok(number)
    }

    /// Adds a function.
    #[inline(always)]
    pub(crate) fn push(&mut self, item: DescriptionItem<'a>) -> Result<(), AllocError>
        requires { IsItemIn self.old.common item }
        ensures common { OnOk result (self.new.common ≡ self.old.common) }
        ensures functions { OnOk result (self.new.functions ≡ self.old.functions ++ item_function self.old.common item.entry ∷ []) }
    {
        self.items.push(item)?;
        Ok(())
    }

    /// Brings the functions into order by their starts. Those with one start stay in order.
    pub fn sort(&mut self) -> Result<(), AllocError>
        ensures { OnOk result (AreByStart self.old.functions self.new.functions) }
    {
        sort_by_start(&mut self.items)?;
        Ok(())
    }
}
