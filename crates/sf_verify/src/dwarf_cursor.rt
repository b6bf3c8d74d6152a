//! The contents of call frame information, asked for by rising address.

ghost use Rattle.std.specs.Prelude.{◌≡◌, ◌≤◌, ◌<◌, ◌+◌, ◌^◌, ℕ, [], map, length, get_or, None, OnOk, IfOk, IsTrue, false};
ghost use Rattle.sf_model.specs.declared.function.Func.{Func as function};
ghost use Rattle.sf_model.specs.declared.machine.Arch.{Arch as machine};
ghost use Rattle.sf_decode.specs.View.{head_of, rows_left};
ghost use Rattle.sf_express.specs.ContentRanges.{AreRanges, RangesHave, range_of_row};
ghost use Rattle.frame_functions.specs.ContentAt.{AllFit, Answers, form_content};
ghost use Rattle.frame_functions.specs.Functions.{Function as lent};
ghost use Rattle.frame_functions.specs.Descriptions.{described_function};
ghost use Rattle.sf_verify.specs.Comparing.{func_read, function_content};
ghost use Rattle.sf_verify.specs.Asking.{AreHolders, Finds, FindsKept, FindsOmitted, IsHeld, IsReady, IsSame, KeptPassed, Knows, OmittedPassed, answers_of, contents_of};

use crate::kept::Kept;
use cfa_machine::Runner;
use frame_functions::{Description, Descriptions, KeyedContent, content_ranges};
use sf_base::NoMemory;
use sf_decode::RowIter;
use sf_express::{ContentRange, range_at};
use sf_model::{Arch, FuncHead, Key};
use std::alloc::Global;

/// The content at an address, and the last address up to which it stays the same.
#[derive(Clone, Copy, PartialEq, Eq)]
pub struct ContentUntil {
    pub said: KeyedContent,
    pub last: u64,
}

/// A function, and its contents from offset to offset.
#[derive(Drop)]
pub struct CurrentFunction {
    start: u64,
    size: u64,
    key: Key,
    ranges: Vec<ContentRange>,
}

/// The functions of the inputs by rising start, kept and omitted ones, and how far they are scanned.
#[derive(Drop)]
pub struct DwarfCursor<'a> {
    arch: Arch,
    kept: Kept<'a>,
    omitted: &'a Descriptions<'a>,
    // Functions before these end by the address that was asked for last.
    next_kept: usize,
    next_omitted: usize,
    run: Runner<'a>,
    // The function that was found last.
    held: CurrentFunction,
}

/// Returns the place of the first kept function, from a place on, that ends after an address.
fn pass_kept(kept: &Kept<'_>, passed: usize, pc: u64) -> usize
    requires passed { KeptPassed kept.now passed pc }
    requires ends { (i : ℕ) (d : function) → i < length kept.now → (get_or kept.now i d).start + (get_or kept.now i d).size ≤ 2 ^ 64 }
    ensures passed { KeptPassed kept.now result pc }
    ensures after { (d : function) → result < length kept.now → pc < (get_or kept.now result d).start + (get_or kept.now result d).size }
{
    let mut next = passed;
    while next < kept.len() && kept_ends_by(&kept.head(next), pc) {
        next += 1;
    }
    next
}

/// Returns whether a function ends at an address or below it.
#[inline(always)]
fn ends_by(start: u64, size: u64, pc: u64) -> bool
    ensures by { IsTrue result → start + size ≤ pc }
    ensures after { result ≡ false → pc < start + size }
{
    start <= pc && size <= pc - start
}

/// Returns whether a kept function ends at an address or below it.
#[inline(always)]
fn kept_ends_by(head: &FuncHead, pc: u64) -> bool
    ensures by { IsTrue result → head.now.start + head.now.size ≤ pc }
    ensures after { result ≡ false → pc < head.now.start + head.now.size }
{
    ends_by(head.start, u64::from(head.size), pc)
}

/// Returns whether there is a kept function at a place, and it starts at an address or below it.
#[inline(always)]
fn kept_starts(kept: &Kept<'_>, place: usize, pc: u64) -> bool
    ensures within { IsTrue result → place < length kept.now }
    ensures starts { (d : function) → IsTrue result → (get_or kept.now place d).start ≤ pc }
    ensures after { (d : function) → result ≡ false → place < length kept.now → pc < (get_or kept.now place d).start }
{
    place < kept.len() && kept.head(place).start <= pc
}

/// Returns whether there is a kept function at a place, and it is this one without its rows.
#[inline(always)]
fn has_head(kept: &Kept<'_>, place: usize, head: &FuncHead) -> bool
    ensures within { IsTrue result → place < length kept.now }
    ensures is { (d : function) → IsTrue result → head_of (get_or kept.now place d) ≡ head.now }
{
    place < kept.len() && kept.head(place) == *head
}

/// Returns whether there is an omitted function at a place, and it starts at an address or below it.
#[inline(always)]
fn omitted_starts(omitted: &Descriptions<'_>, place: usize, pc: u64) -> bool
    ensures within { IsTrue result → place < length omitted.now.functions }
    ensures starts { (d : lent) → IsTrue result → (get_or omitted.now.functions place d).start ≤ pc }
    ensures after { (d : lent) → result ≡ false → place < length omitted.now.functions → pc < (get_or omitted.now.functions place d).start }
{
    place < omitted.len() && omitted.start(place) <= pc
}

/// Returns the place of the first omitted function, from a place on, that ends after an address.
fn pass_omitted(omitted: &Descriptions<'_>, passed: usize, pc: u64) -> usize
    requires passed { OmittedPassed omitted.now.functions passed pc }
    ensures passed { OmittedPassed omitted.now.functions result pc }
    ensures after { (d : lent) → result < length omitted.now.functions → pc < (get_or omitted.now.functions result d).start + (get_or omitted.now.functions result d).size }
{
    let mut next = passed;
    while next < omitted.len() && ends_by(omitted.start(next), omitted.size(next), pc) {
        next += 1;
    }
    next
}

/// Takes the rows of a kept function as ranges.
fn hold_kept(held: &mut CurrentFunction, head: &FuncHead, rows: RowIter<'_>) -> Result<(), NoMemory>
    ensures start { OnOk result (held.new.start ≡ head.now.start) }
    ensures size { OnOk result (held.new.size ≡ head.now.size) }
    ensures key { OnOk result (held.new.key ≡ head.now.key) }
    ensures ranges { OnOk result (held.new.ranges.items ≡ map range_of_row (rows_left rows.entry)) }
{
    held.start = head.start;
    held.size = u64::from(head.size);
    held.key = head.key;
    held.ranges.clear();
    for row in rows {
        held.ranges.push(ContentRange {
            start: u64::from(row.start),
            content: Some(row.content),
        })?;
    }
    Ok(())
}

/// Runs the instructions of an omitted function, and returns it with its contents.
fn hold_omitted<'a>(
    alloc: Global,
    description: &Description<'a>,
    run: &mut Runner<'a>,
) -> Result<CurrentFunction, NoMemory>
    requires { 0 < description.now.facts.size }
    ensures start { IfOk result (λ held. held.start ≡ description.now.facts.start) }
    ensures size { IfOk result (λ held. held.size ≡ description.now.facts.size) }
    ensures key { IfOk result (λ held. held.key ≡ description.now.facts.key) }
    ensures ranges { IfOk result (λ held. AreRanges description.now.facts.size held.ranges.items) }
    ensures says { IfOk result (λ held. RangesHave description.now.facts.size held.ranges.items (form_content (described_function description.now))) }
    ensures fits { IfOk result (λ held. AllFit description.now.arch held.ranges.items) }
{
    Ok(CurrentFunction {
        start: description.facts.start,
        size: description.facts.size,
        key: description.facts.key,
        ranges: content_ranges(alloc, description, run)?,
    })
}

impl CurrentFunction {
    /// Returns a function without addresses.
    fn new(alloc: Global) -> CurrentFunction
        ensures size { result.size ≡ 0 }
        ensures none { result.ranges.items ≡ [] }
        ensures start { result.start ≡ 0 }
    {
        CurrentFunction {
            start: 0,
            size: 0,
            key: Key::A,
            ranges: Vec::new(alloc),
        }
    }

    /// Returns whether the function contains an address.
    #[inline(always)]
    fn has(&self, pc: u64) -> bool
        ensures has { IsTrue result → (self.now.start ≤ pc) × (pc < self.now.start + self.now.size) }
    {
        self.start <= pc && pc - self.start < self.size
    }

    /// Returns the function's content at one of its addresses, if there is one.
    fn known(&self, pc: u64) -> Option<ContentUntil>
        requires from { self.now.start ≤ pc }
        requires to { pc < self.now.start + self.now.size }
        requires end { self.now.start + self.now.size ≤ 2 ^ 64 }
        requires ranges { AreRanges self.now.size self.now.ranges.items }
        ensures { (arch : machine) (answers : Answers) → IsHeld arch answers self.now → Knows arch answers pc result }
    {
        let (content, last) = range_at(&self.ranges, self.size, pc - self.start);
        let content = content?;
        Some(ContentUntil {
            said: KeyedContent {
                content,
                key: self.key,
            },
            last: self.start + last,
        })
    }
}

impl<'a> DwarfCursor<'a> {
    /// Returns the functions of inputs, before any address is asked for.
    pub fn new(
        alloc: Global,
        arch: Arch,
        kept: Kept<'a>,
        omitted: &'a Descriptions<'a>,
    ) -> DwarfCursor<'a>
        requires { AreHolders arch (answers_of kept omitted.now.functions) kept omitted.now.functions }
        ensures ready { IsReady result 0 }
        ensures says { contents_of result ≡ answers_of kept.entry omitted.now.functions }
        ensures arch { result.arch ≡ arch }
    {
        DwarfCursor {
            arch,
            kept,
            omitted,
            next_kept: 0,
            next_omitted: 0,
            run: Runner::new(),
            held: CurrentFunction::new(alloc),
        }
    }

    /// Returns the machine of all functions.
    #[inline(always)]
    pub fn arch(&self) -> Arch
        ensures { result ≡ self.now.arch }
    {
        self.arch
    }

    /// Returns whether a function of a section is the first kept one that ends after its start, with the same bytes of rows.
    /// Call frame information then says what it says.
    pub fn keeps(&mut self, head: &FuncHead, rows: &RowIter<'_>) -> bool
        requires { IsReady self.old head.now.start }
        ensures same { IsSame self.old self.new }
        ensures ready { IsReady self.new head.now.start }
        ensures kept { IsTrue result → (pc : ℕ) → head.now.start ≤ pc → pc < head.now.start + head.now.size → contents_of self.old pc ≡ function_content (func_read head.now rows.now) pc }
    {
        self.next_kept = pass_kept(&self.kept, self.next_kept, head.start);
        if !has_head(&self.kept, self.next_kept, head) {
            return false;
        }
        self.kept.are_spelled(self.next_kept, rows)
    }

    /// Finds the kept function that contains an address.
    fn find_kept(&mut self, pc: u64) -> Result<bool, NoMemory>
        requires { IsReady self.old pc }
        ensures same { OnOk result (IsSame self.old self.new) }
        ensures ready { OnOk result (IsReady self.new pc) }
        ensures found { IfOk result (FindsKept self.new pc) }
    {
        self.next_kept = pass_kept(&self.kept, self.next_kept, pc);
        if !kept_starts(&self.kept, self.next_kept, pc) {
            return Ok(false);
        }
        let head = self.kept.head(self.next_kept);
        let rows = self.kept.rows(self.next_kept);
        hold_kept(&mut self.held, &head, rows)?;
        Ok(true)
    }

    /// Finds the omitted function that contains an address, and runs its instructions.
    fn find_omitted(&mut self, alloc: Global, pc: u64) -> Result<bool, NoMemory>
        requires { IsReady self.old pc }
        ensures same { OnOk result (IsSame self.old self.new) }
        ensures ready { OnOk result (IsReady self.new pc) }
        ensures found { IfOk result (FindsOmitted self.new pc) }
    {
        self.next_omitted = pass_omitted(self.omitted, self.next_omitted, pc);
        if !omitted_starts(self.omitted, self.next_omitted, pc) {
            return Ok(false);
        }
        let omitted = self.omitted;
        let description = omitted.get(self.next_omitted);
        self.held = hold_omitted(alloc, &description, &mut self.run)?;
        Ok(true)
    }

    /// Finds the function that contains an address.
    fn find(&mut self, alloc: Global, pc: u64) -> Result<bool, NoMemory>
        requires { IsReady self.old pc }
        ensures same { OnOk result (IsSame self.old self.new) }
        ensures ready { OnOk result (IsReady self.new pc) }
        ensures found { IfOk result (Finds self.new pc) }
    {
        if self.held.has(pc) {
            return Ok(true);
        }
        if self.find_kept(pc)? {
            return Ok(true);
        }
        self.find_omitted(alloc, pc)
    }

    /// Returns the content at an address that isn't below the one asked for last, if there is one.
    pub fn ask(&mut self, alloc: Global, pc: u64) -> Result<Option<ContentUntil>, NoMemory>
        requires { IsReady self.old pc }
        ensures same { OnOk result (IsSame self.old self.new) }
        ensures ready { OnOk result (IsReady self.new pc) }
        ensures known { IfOk result (Knows self.old.arch (contents_of self.old) pc) }
    {
        if !self.find(alloc, pc)? {
            return Ok(None);
        }
        Ok(self.held.known(pc))
    }
}
