//! The functions of inputs as lists, the section of one input, and the row at an address. No command calls these.

ghost use Rattle.std.specs.Prelude.{◌≡◌, ◌≤◌, ◌<◌, ◌+◌, ◌^◌, ◌&&◌, All, List, [], ◌∷◌, Ok, None, length, map, nat_le, nat_lt, IfOk, IfErr, IsTrue};
ghost use Rattle.std.specs.List.{find};
ghost use Rattle.std.specs.Option.{option_map};
ghost use Rattle.sf_model.specs.Function.{AreWritable};
ghost use Rattle.sf_model.specs.Lookup.{contains};
ghost use Rattle.sf_express.specs.ContentRanges.{AreRanges, AreRangesOf, range_of_row};
ghost use Rattle.sf_asm.specs.declared.fault.GatherFault.TheVariants as gather_fault;
ghost use Rattle.sf_asm.specs.Accepted.{CanBeGathered};
ghost use Rattle.sf_asm.specs.Answers.{AreGathered, IsAssembled, IsFirstGathered, IsFirstLinked};
ghost use Rattle.frame_functions.specs.ContentAt.{RowAt, GivesUpTo, form_content, content_in_function};
ghost use Rattle.sf_asm.specs.Described.{Describe};
ghost use Rattle.frame_functions.specs.ReadFunction.{kept_by_item, omitted_of, spans_of};
ghost use Rattle.frame_functions.specs.Functions.{holds_address, Function};
ghost use Rattle.sf_asm.specs.Fault.{is_answered, is_gather_answered};
ghost use Rattle.sf_asm.specs.Functions.{object_of};
ghost use Rattle.sf_asm.specs.Inputs.{HaveMachine};
ghost use Rattle.frame_functions.specs.Descriptions.{described_function};
ghost use Rattle.sf_asm.specs.Descriptions.{AreWithDescriptions};
ghost use Rattle.sf_write.specs.Stored.{IsStored, stored_in};

use crate::fault::{GatherFault, LinkFault};
use crate::gathering::{first_item, gather_together, gather_with_descriptions, ordered};
use crate::input::Input;
use crate::linked::{Linked, link_gathered};
use cfa_machine::Runner;
use frame_functions::{
    Description, Descriptions, FunctionList, InputFunctions, ListedFunction, content_ranges,
};
use sf_base::NoMemory;
use sf_express::{ContentRange, range_at, ranges_of_rows};
use sf_functions::FunctionsWithRows;
use sf_model::{Arch, Content, Func, Key, Omitted, Span};
use sf_write::{StoredList, StoredRows};
use std::alloc::{AllocError, Global};

/// The functions of the inputs.
#[derive(Drop)]
pub struct Gathered {
    /// The machine of all inputs.
    pub arch: Arch,
    /// The functions that SFrame can express, a list for each input, by rising start.
    pub kept: Vec<Vec<Func>>,
    /// The functions that it can't, by start and then origin.
    pub omitted: Vec<Omitted>,
    /// The addresses of all functions, by start and then origin.
    pub spans: Vec<Span>,
}

/// Makes `count` empty lists.
fn empty_lists(alloc: Global, count: usize) -> Result<Vec<Vec<Func>>, AllocError>
    ensures count { IfOk result (λ lists. length lists.items ≡ count) }
    ensures empty { IfOk result (λ lists. All (λ list. list.items ≡ []) lists.items) }
{
    let mut lists = Vec::new(alloc);
    for _ in 0..count {
        lists.push(Vec::new(alloc))?;
    }
    Ok(lists)
}

/// Sorts out the functions of `count` inputs that are numbered from `first` on.
fn sort_out(
    alloc: Global,
    arch: Arch,
    first: u32,
    count: usize,
    entries: &FunctionList,
) -> Result<Gathered, AllocError>
    requires { All (λ entry. (first ≤ entry.span.origin.item) × (entry.span.origin.item < first + count)) entries.now }
    ensures arch { IfOk result (λ g. g.arch ≡ arch) }
    ensures kept { IfOk result (λ g. map (λ list. list.items) g.kept.items ≡ kept_by_item first count entries.now) }
    ensures omitted { IfOk result (λ g. g.omitted.items ≡ omitted_of entries.now) }
    ensures spans { IfOk result (λ g. g.spans.items ≡ spans_of entries.now) }
{
    let mut gathered = Gathered {
        arch,
        kept: empty_lists(alloc, count)?,
        omitted: Vec::new(alloc),
        spans: Vec::new(alloc),
    };
    for number in 0..entries.len() {
        let span = entries.span(number);
        gathered.spans.push(span)?;
        let given = entries.function(alloc, number)?;
        match given {
            Ok(func) => gathered.kept[(span.origin.item - first) as usize].push(func)?,
            Err(omission) => gathered.omitted.push(Omitted {
                start: span.start,
                size: span.size,
                origin: span.origin,
                omission,
            })?,
        }
    }
    Ok(gathered)
}

/// Gathers the functions of 1 to 512 inputs, each of fewer than 2^32 bytes. `before` is the machine of an
/// item before them: the inputs are then numbered from 1, otherwise from 0. Of several
/// COMDAT groups with one signature, over all inputs, the first stays (ELF64 gABI, "Section Groups").
///
/// # Errors
///
/// The first fault of the first faulty input; then two machines, the limits of functions and rows, and two
/// functions that share an address, in this order; memory may run out at any time.
pub fn gather(
    alloc: Global,
    inputs: &[Input<'_>],
    before: Option<Arch>,
) -> Result<Gathered, GatherFault>
    requires some { (0 < length inputs.now) × (length inputs.now ≤ 512) }
    requires small { All (λ input. length (object_of input).bytes < 2 ^ 32) inputs.now }
    // The functions are those of the inputs, sorted out by rising start.
    ensures gathered { IfOk result (λ g. AreGathered before (map object_of inputs.now) g.arch (map (λ list. list.items) g.kept.items) g.omitted.items g.spans.items) }
    // One section can hold those of each input.
    ensures kept { IfOk result (λ g. All (λ list. AreWritable g.arch list.items) g.kept.items) }
    // All items have this machine.
    ensures machine { IfOk result (λ g. HaveMachine before (map object_of inputs.now) g.arch) }
    // A fault is the first one.
    ensures fault { IfErr result (IsFirstGathered before (map object_of inputs.now)) }
    ensures answered { IfErr result (λ fault. IsTrue (is_gather_answered fault)) }
{
    let read = ordered(alloc, inputs, before, false)?;
    let first = first_item(before);
    Ok(sort_out(alloc, read.arch, first, inputs.len(), &read.entries)?)
}

/// Makes the SFrame section of one input, for the address `at`.
///
/// # Errors
///
/// The first fault of the input; then the limits of functions and rows, two functions that share an
/// address, and a function too far from the section, in this order; memory may run out at any time.
pub fn assemble(alloc: Global, input: &Input<'_>, at: u64) -> Result<Linked, LinkFault>
    requires { length (object_of input.now).bytes < 2 ^ 32 }
    // The section is that of the input's kept functions, and these were omitted.
    ensures assembled { IfOk result (λ linked. IsAssembled (object_of input.now) at linked.section.items linked.kept linked.omitted.items) }
    // A fault is the first one.
    ensures fault { IfErr result (IsFirstLinked None (object_of input.now ∷ []) at) }
    ensures answered { IfErr result (λ fault. IsTrue (is_answered fault)) }
{
    let functions = gather_together(alloc, &[*input], None)?;
    link_gathered(alloc, functions, at)
}

/// Returns whether a function of this start and size has an address.
#[inline(always)]
fn has_address(start: u64, size: u64, pc: u64) -> bool
    ensures { result ≡ (nat_le start pc && nat_lt pc (start + size)) }
{
    start <= pc && u128::from(pc) < u128::from(start) + u128::from(size)
}

/// Returns whether a kept function has an address.
#[inline(always)]
fn kept_has(func: &Func, pc: u64) -> bool
    ensures { result ≡ contains pc func.now }
{
    has_address(func.start, u64::from(func.size), pc)
}

/// Finds the kept function that has an address.
fn kept_at(kept: &[Func], pc: u64) -> Option<&Func>
    ensures { option_map (λ f. f.now) result ≡ find (contains pc) kept.now }
{
    kept.iter().find(|func| kept_has(func, pc))
}

/// Finds the omitted function that has an address.
fn omitted_at<'a>(descriptions: &Descriptions<'a>, pc: u64) -> Option<Description<'a>>
    ensures { option_map described_function result ≡ find (holds_address pc) descriptions.now.functions }
{
    for number in 0..descriptions.len() {
        if has_address(descriptions.start(number), descriptions.size(number), pc) {
            return Some(descriptions.get(number));
        }
    }
    None
}

/// Returns the content that a function's ranges have at one of its addresses, and the last of its addresses up to which it
/// stays the same.
fn row_in(
    ranges: &[ContentRange],
    start: u64,
    size: u64,
    key: Key,
    pc: u64,
) -> Option<(Content, Key, u64)>
    requires from { start ≤ pc }
    requires to { pc < start + size }
    requires end { start + size ≤ 2 ^ 64 }
    requires ranges { AreRanges size ranges.now }
    ensures { (f : Function) → f.start ≡ start → f.size ≡ size → f.key ≡ key → AreRangesOf size (form_content f) ranges.now → GivesUpTo (λ p. content_in_function p f) f pc result }
{
    let (content, last) = range_at(ranges, size, pc - start);
    Some((content?, key, start + last))
}

/// Returns the same of a kept function, by its rows.
fn kept_row(alloc: Global, func: &Func, pc: u64) -> Result<Option<(Content, Key, u64)>, NoMemory>
    requires from { func.now.start ≤ pc }
    requires to { pc < func.now.start + func.now.size }
    requires end { func.now.start + func.now.size ≤ 2 ^ 64 }
    requires ranges { AreRanges func.now.size (map range_of_row func.now.rows) }
    ensures { IfOk result (λ row. (f : Function) → f.start ≡ func.now.start → f.size ≡ func.now.size → f.key ≡ func.now.key → AreRangesOf func.now.size (form_content f) (map range_of_row func.now.rows) → GivesUpTo (λ p. content_in_function p f) f pc row) }
{
    let ranges = ranges_of_rows(alloc, func.rows.as_slice())?;
    Ok(row_in(&ranges, func.start, u64::from(func.size), func.key, pc))
}

/// Returns the same of an omitted function, by its instructions.
fn omitted_row(
    alloc: Global,
    description: &Description<'_>,
    pc: u64,
) -> Result<Option<(Content, Key, u64)>, NoMemory>
    requires from { description.now.facts.start ≤ pc }
    requires to { pc < description.now.facts.start + description.now.facts.size }
    ensures { IfOk result (λ row. GivesUpTo (λ p. content_in_function p (described_function description.now)) (described_function description.now) pc row) }
{
    let facts = description.facts;
    let ranges = content_ranges(alloc, description, &mut Runner::new())?;
    Ok(row_in(&ranges, facts.start, facts.size, facts.key, pc))
}

/// Returns the one fault of inputs that can be gathered.
fn only_memory(fault: GatherFault) -> NoMemory
    requires { fault ≡ gather_fault.NoMemory }
{
    match fault {
        GatherFault::NoMemory => NoMemory,
        _ => unreachable!(),
    }
}

/// Gathers the functions of inputs that can be gathered.
fn gather_accepted<'a>(alloc: Global, inputs: &[Input<'a>]) -> Result<InputFunctions<'a>, NoMemory>
    requires some { (0 < length inputs.now) × (length inputs.now ≤ 512) }
    requires small { All (λ input. length (object_of input).bytes < 2 ^ 32) inputs.now }
    requires accepted { CanBeGathered None (map object_of inputs.now) }
    ensures gathered { IfOk result (λ g. AreWithDescriptions None (map object_of inputs.now) g.arch (map (stored_in g.rows) g.kept) g.omitted.items g.descriptions.functions) }
    ensures stored { IfOk result (λ g. All (IsStored g.rows) g.kept) }
{
    match gather_with_descriptions(alloc, inputs, None) {
        Ok(gathered) => Ok(gathered),
        Err(fault) => Err(only_memory(fault)),
    }
}

/// Reads the kept functions, each with a list of its rows.
fn functions(
    alloc: Global,
    rows: &StoredRows,
    kept: &FunctionsWithRows<ListedFunction>,
) -> Result<Vec<Func>, AllocError>
    requires { All (IsStored rows.now) kept.now }
    ensures { IfOk result (λ functions. functions.items ≡ map (stored_in rows.now) kept.now) }
{
    let mut functions = Vec::with_capacity(alloc, kept.len())?;
    for number in 0..kept.len() {
        functions.push(rows.function(alloc, kept.function(number))?)?;
    }
    Ok(functions)
}

/// Returns the content of the row at an address, in a kept or an omitted function, with the key of that function and its
/// greatest address up to which the content stays the same. Returns none if no function has the address, if SFrame has
/// no form for the function's frames, or if there is a reason against the row. The caller owes 1 to 512 inputs that can
/// be gathered, each of fewer than 2^32 bytes.
///
/// # Errors
///
/// `NoMemory` if memory runs out.
pub fn row_at(
    alloc: Global,
    inputs: &[Input<'_>],
    pc: u64,
) -> Result<Option<(Content, Key, u64)>, NoMemory>
    requires some { (0 < length inputs.now) × (length inputs.now ≤ 512) }
    requires small { All (λ input. length (object_of input).bytes < 2 ^ 32) inputs.now }
    requires accepted { CanBeGathered None (map object_of inputs.now) }
    // It is the row of the definition, for the functions of the inputs.
    ensures { IfOk result (λ row. (functions : List Function) → Describe 0 (map object_of inputs.now) (Ok functions) → RowAt functions pc row) }
{
    let gathered = gather_accepted(alloc, inputs)?;
    let kept = functions(alloc, &gathered.rows, &gathered.kept)?;
    if let Some(func) = kept_at(&kept, pc) {
        return kept_row(alloc, func, pc);
    }
    match omitted_at(&gathered.descriptions, pc) {
        Some(description) => omitted_row(alloc, &description, pc),
        None => Ok(None),
    }
}
