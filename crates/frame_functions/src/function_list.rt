//! The functions that were read, whose rows are kept in one list.

ghost use Rattle.std.specs.Prelude.{◌≡◌, ◌++◌, [], ◌∷◌, IfOk, OnOk, length};
ghost use Rattle.frame_functions.specs.ReadFunction.{IsSound};
ghost use Rattle.frame_functions.specs.ListedFunctions.{HasRows, read_in, outcome_in};
ghost use Rattle.frame_functions.specs.Kept.{outcome_by};
ghost use Rattle.frame_functions.specs.Order.{InOrder};
ghost use Rattle.sf_write.specs.declared.stored.StoredFunction.{StoredFunction as stored_fact};
ghost use Rattle.sf_write.specs.Stored.{IsStored, stored_in};

use crate::descriptions::Descriptions;
use crate::read_function::{Expressed, ListedFunction, ReadFunction};
use sf_functions::{FunctionsWithRows, sort_by_start};
use sf_model::{Arch, Func, Omission, Omitted, Span};
use sf_write::{PackedRows, StoredRows};
use std::alloc::{AllocError, Global};
use std::marker::Model;

/// Functions that were read, kept or omitted, which a contract sees as the list of them.
#[derive(Drop)]
pub struct FunctionList {
    heads: Vec<ListedFunction>,
    rows: StoredRows,
}

/// The functions of all inputs together, the kept and the omitted ones.
#[derive(Drop)]
pub struct InputFunctions<'a> {
    /// The machine of all inputs.
    pub arch: Arch,
    /// The rows of the kept functions.
    pub rows: StoredRows,
    /// The functions that SFrame can express, by rising start.
    pub kept: FunctionsWithRows<ListedFunction>,
    /// The functions that it can't, by start and then origin.
    pub omitted: Vec<Omitted>,
    /// The same as their records describe them, in the same order. There are none unless they are lent.
    pub descriptions: Descriptions<'a>,
}

impl Model for FunctionList {
    ghost use Rattle.std.specs.Prelude.{List};
    ghost use Rattle.frame_functions.specs.declared.read_function.ReadFunction.{ReadFunction as entry};
    ghost use Rattle.frame_functions.specs.ListedFunctions.{HaveRows, all_read_in};

    ghost Value = { List entry };

    ghost view = { λ e. all_read_in e.rows e.heads.items };

    ghost invariant = { λ e. HaveRows e.rows e.heads.items };
}

/// Stores the rows of a kept function. Their memory goes to `spare`.
#[inline(always)]
fn store(
    rows: &mut StoredRows,
    arch: Arch,
    entry: ReadFunction,
    spare: &mut PackedRows,
) -> Result<ListedFunction, AllocError>
    requires { IsSound arch entry }
    ensures stored { IfOk result (λ head. HasRows rows.new head × (read_in rows.new head ≡ entry)) }
    ensures keeps { (f : stored_fact) → IsStored rows.old f → IsStored rows.new f × (stored_in rows.new f ≡ stored_in rows.old f) }
{
    let ReadFunction { span, outcome } = entry;
    match outcome {
        Expressed::Kept(function) => {
            let stored = rows.push_packed(arch, &function)?;
            *spare = function.into_rows();
            Ok(ListedFunction::Kept(stored, span.origin))
        }
        Expressed::LeftOut(omission) => Ok(ListedFunction::LeftOut(Omitted {
            start: span.start,
            size: span.size,
            origin: span.origin,
            omission,
        })),
    }
}

/// Reads the function of a head with a list of its rows, or its omission.
fn function_of(
    alloc: Global,
    rows: &StoredRows,
    head: &ListedFunction,
) -> Result<Result<Func, Omission>, AllocError>
    requires { HasRows rows.now head.now }
    ensures { IfOk result (λ given. outcome_in rows.now head.now ≡ outcome_by given) }
{
    match head {
        ListedFunction::Kept(stored, _) => Ok(Ok(rows.function(alloc, stored)?)),
        ListedFunction::LeftOut(omitted) => Ok(Err(omitted.omission)),
    }
}

impl FunctionList {
    ghost use Rattle.std.specs.Prelude.{◌<◌, All, get_or, length, map};
    ghost use Rattle.frame_functions.specs.declared.read_function.ReadFunction.{ReadFunction as entry};
    ghost use Rattle.frame_functions.specs.ReadFunction.{kept_of, omitted_of};

    /// Makes an empty list.
    pub fn new(alloc: Global) -> FunctionList
        ensures { result ≡ [] }
    {
        FunctionList {
            heads: Vec::new(alloc),
            rows: StoredRows::new(alloc),
        }
    }

    /// Counts the functions.
    #[inline(always)]
    pub fn len(&self) -> usize
        ensures { result ≡ length self.now }
    {
        self.heads.len()
    }

    /// Adds a function. The memory of its rows goes to `spare`.
    #[inline(always)]
    pub fn push(
        &mut self,
        arch: Arch,
        entry: ReadFunction,
        spare: &mut PackedRows,
    ) -> Result<(), AllocError>
        requires { IsSound arch entry }
        ensures { OnOk result (self.new ≡ self.old ++ entry ∷ []) }
    {
        let head = store(&mut self.rows, arch, entry, spare)?;
        self.heads.push(head)?;
        Ok(())
    }

    /// Brings the functions into the order of their starts. Those with one start stay in order.
    pub fn in_order(mut self) -> Result<FunctionList, AllocError>
        ensures { IfOk result (λ ordered. InOrder self ordered) }
    {
        sort_by_start(&mut self.heads)?;
        Ok(self)
    }

    /// Returns the addresses and the origin of a function.
    #[inline(always)]
    pub fn span(&self, number: usize) -> Span
        requires { number < length self.now }
        ensures { (d : entry) → result ≡ (get_or self.now number d).span }
    {
        self.heads[number].span()
    }

    /// Lists the omitted functions.
    fn omitted(&self, alloc: Global) -> Result<Vec<Omitted>, AllocError>
        ensures { IfOk result (λ omitted. omitted.items ≡ omitted_of self.now) }
    {
        let mut omitted = Vec::new(alloc);
        for head in self.heads.as_slice() {
            if let ListedFunction::LeftOut(function) = head {
                omitted.push(*function)?;
            }
        }
        Ok(omitted)
    }

    /// Parts the kept functions from the omitted ones, all of which are of one machine. The descriptions are those of the
    /// omitted ones, or none.
    pub fn part<'a>(
        self,
        alloc: Global,
        arch: Arch,
        descriptions: Descriptions<'a>,
    ) -> Result<InputFunctions<'a>, AllocError>
        ensures arch { IfOk result (λ parted. parted.arch ≡ arch) }
        ensures stored { IfOk result (λ parted. All (IsStored parted.rows) parted.kept) }
        ensures kept { IfOk result (λ parted. map (stored_in parted.rows) parted.kept ≡ kept_of self) }
        ensures omitted { IfOk result (λ parted. parted.omitted.items ≡ omitted_of self) }
        ensures descriptions { IfOk result (λ parted. parted.descriptions ≡ descriptions.entry) }
    {
        let omitted = self.omitted(alloc)?;
        let FunctionList { heads, rows } = self;
        Ok(InputFunctions {
            arch,
            rows,
            kept: FunctionsWithRows::of(heads),
            omitted,
            descriptions,
        })
    }

    /// Reads a function with a list of its rows, or its omission.
    pub fn function(
        &self,
        alloc: Global,
        number: usize,
    ) -> Result<Result<Func, Omission>, AllocError>
        requires { number < length self.now }
        ensures { IfOk result (λ given. (d : entry) → (get_or self.now number d).outcome ≡ outcome_by given) }
    {
        function_of(alloc, &self.rows, &self.heads[number])
    }
}
