//! The machine that runs instructions: the present row, the remembered rows and the offset.

ghost use Rattle.std.specs.Prelude.{◌≡◌, ◌<◌, ◌&&◌, ◌*ℤ◌, ℕ, [], Ok, nat_lt, pos, IfSome};
ghost use Rattle.cfa_insn.specs.Listing.{item};
ghost use Rattle.cfa_machine.specs.Columns.{Changes};
ghost use Rattle.cfa_machine.specs.Pass.{state, cie_step, cie_item_step, step, item_step, ended, last_row, advanced, with_remembered, with_recalled, StartsBelow, MachineSteps, StepsInRow, Remembers, Recalls, latest_first};

use crate::columns::{Columns, change_row, restore_rule, set_cfa_offset, set_rule};
use crate::effect::{Effect, RowEffect, effect_of, scaled};
use crate::fault::MachineFault;
use crate::rule::Rule;
use arrayvec::ArrayVec;
use cfa_insn::{Insn, InsnFault};
use sf_model::Arch;

/// The most rows that are remembered at once.
pub const MOST_REMEMBERED: usize = 64;

/// What stays while a function's instructions run.
#[derive(Clone, Copy)]
pub struct FunctionContext {
    /// The machine of the code.
    pub arch: Arch,
    /// The code alignment factor, in bytes.
    pub code_alignment_factor: u64,
    /// The function's size in bytes.
    pub size: u64,
    /// The row that the common information entry gives.
    pub initial: Columns,
}

/// What changes while they run.
#[derive(Drop)]
pub struct Machine {
    /// The present row.
    pub columns: Columns,
    /// The offset that the advances reached, in bytes, or the greatest `u64` where they passed it.
    pub offset: u64,
    /// The remembered rows, the latest last.
    pub remembered: ArrayVec<Columns, MOST_REMEMBERED>,
}

// Changes the row of a common information entry by one more instruction, at `place`.
#[inline(always)]
fn define_at(
    arch: Arch,
    place: u64,
    effect: Effect,
    columns: &mut Columns,
) -> Result<(), MachineFault>
    ensures { Changes columns.new result (cie_step arch place effect columns.old) }
{
    match effect {
        Effect::Row(change) => change_row(arch, place, change, columns),
        Effect::Advance(_) => Err(MachineFault::CieInstruction(place)),
        Effect::Restore(_) => Err(MachineFault::CieInstruction(place)),
        Effect::Remember => Err(MachineFault::CieInstruction(place)),
        Effect::Recall => Err(MachineFault::CieInstruction(place)),
    }
}

/// Changes the row of a common information entry by one more item of its instructions.
#[inline(always)]
pub fn define_row(
    arch: Arch,
    data_alignment_factor: i64,
    read: Result<(u64, Insn<'_>), InsnFault>,
    columns: &mut Columns,
) -> Result<(), MachineFault>
    ensures { Changes columns.new result (cie_item_step arch data_alignment_factor (item read.entry) columns.old) }
{
    match read {
        Ok((place, insn)) => define_at(
            arch,
            place,
            effect_of(data_alignment_factor, insn),
            columns,
        ),
        Err(fault) => Err(MachineFault::Insn(fault)),
    }
}

// Returns the offset after an advance by `delta` code alignments, or the greatest `u64` where it passes it.
#[inline(always)]
fn offset_after(code_alignment_factor: u64, delta: u32, offset: u64) -> u64
    ensures { result ≡ advanced code_alignment_factor delta offset }
{
    offset.saturating_add(code_alignment_factor.saturating_mul(u64::from(delta)))
}

// Returns whether a row ends where the offset goes on to `next`.
#[inline(always)]
fn row_ends(size: u64, next: u64, offset: u64) -> bool
    ensures { result ≡ (nat_lt offset next && nat_lt offset size) }
{
    offset < next && offset < size
}

// Puts a row on the stack, at the instruction at `place`.
#[inline(always)]
fn remember(
    remembered: &mut ArrayVec<Columns, MOST_REMEMBERED>,
    place: u64,
    columns: Columns,
) -> Result<(), MachineFault>
    ensures { Remembers remembered.new result (with_remembered place columns (latest_first remembered.old)) }
{
    if remembered.is_full() {
        return Err(MachineFault::StateDepth(place));
    }
    remembered.push(columns);
    Ok(())
}

// Takes the latest row from the stack, at the instruction at `place`.
#[inline(always)]
fn recall(
    remembered: &mut ArrayVec<Columns, MOST_REMEMBERED>,
    place: u64,
) -> Result<Columns, MachineFault>
    ensures { Recalls remembered.new result (with_recalled place (latest_first remembered.old)) }
{
    match remembered.pop() {
        Some(columns) => Ok(columns),
        None => Err(MachineFault::StateEmpty(place)),
    }
}

impl Machine {
    /// Returns the machine before a function's first instruction.
    #[inline(always)]
    pub fn new(initial: Columns) -> Machine
        ensures { state result ≡ record { columns = initial; remembered = []; offset = 0 } }
    {
        Machine {
            columns: initial,
            offset: 0,
            remembered: ArrayVec::new(),
        }
    }

    /// Puts the machine before a function's first instruction again.
    #[inline(always)]
    pub fn restart(&mut self, initial: &Columns)
        ensures { state self.new ≡ record { columns = initial.now; remembered = []; offset = 0 } }
    {
        self.columns = *initial;
        self.offset = 0;
        self.remembered.clear();
    }

    /// Advances by `delta` code alignments, and returns the start of the row that ends there, if one does: its columns are the
    /// machine's.
    #[inline(always)]
    pub fn advance(&mut self, context: &FunctionContext, delta: u32) -> Option<u64>
        ensures steps { (place : ℕ) → MachineSteps self.new (Ok result) (step context.now place (Effect.Advance delta) (state self.old)) }
        ensures below { StartsBelow context.now.size (Ok result) }
    {
        let next = offset_after(context.code_alignment_factor, delta, self.offset);
        let start = self.offset;
        self.offset = next;
        if row_ends(context.size, next, start) {
            Some(start)
        } else {
            None
        }
    }

    /// Saves a register at the CFA plus a factored offset.
    #[inline(always)]
    pub fn save_at(
        &mut self,
        context: &FunctionContext,
        data_alignment_factor: i64,
        register: u8,
        factored: u8,
    )
        ensures { (place : ℕ) → StepsInRow self.new (Ok result) (step context.now place (Effect.Row (RowEffect.SetRule register (Rule.Offset (pos factored *ℤ data_alignment_factor)))) (state self.old)) }
    {
        let rule = Rule::Offset(scaled(u64::from(factored), data_alignment_factor));
        set_rule(context.arch, u64::from(register), rule, &mut self.columns);
    }

    /// Gives the CFA another offset, in bytes, by the instruction at `place`.
    #[inline(always)]
    pub fn move_cfa(&mut self, place: u64, bytes: u8) -> Result<(), MachineFault>
        ensures { (context : FunctionContext) → StepsInRow self.new result (step context place (Effect.Row (RowEffect.SetCfaOffset (pos bytes))) (state self.old)) }
    {
        set_cfa_offset(place, i128::from(bytes), &mut self.columns)
    }

    /// Runs one more item of the instructions, and returns the start of the row that ends there, if one does: its columns are the
    /// machine's.
    #[inline(always)]
    pub fn step(
        &mut self,
        context: &FunctionContext,
        data_alignment_factor: i64,
        read: Result<(u64, Insn<'_>), InsnFault>,
    ) -> Result<Option<u64>, MachineFault>
        ensures steps { MachineSteps self.new result (item_step context.now data_alignment_factor (item read.entry) (state self.old)) }
        ensures below { StartsBelow context.now.size result }
    {
        match read {
            Ok((place, insn)) => self.run(context, place, effect_of(data_alignment_factor, insn)),
            Err(fault) => Err(MachineFault::Insn(fault)),
        }
    }

    // Runs the instruction at `place`, and returns the start of the row that ends there.
    #[inline(always)]
    fn run(
        &mut self,
        context: &FunctionContext,
        place: u64,
        effect: Effect,
    ) -> Result<Option<u64>, MachineFault>
        ensures steps { MachineSteps self.new result (step context.now place effect (state self.old)) }
        ensures below { StartsBelow context.now.size result }
    {
        match effect {
            Effect::Row(change) => {
                change_row(context.arch, place, change, &mut self.columns)?;
                Ok(None)
            }
            Effect::Advance(delta) => Ok(self.advance(context, delta)),
            Effect::Restore(register) => {
                restore_rule(context.arch, register, &context.initial, &mut self.columns);
                Ok(None)
            }
            Effect::Remember => {
                remember(&mut self.remembered, place, self.columns)?;
                Ok(None)
            }
            Effect::Recall => {
                self.columns = recall(&mut self.remembered, place)?;
                Ok(None)
            }
        }
    }

    /// Returns the start of the row at the end, which covers all offsets from the last advance on.
    #[inline(always)]
    pub fn last(&self, size: u64) -> Option<u64>
        ensures is { ended self.now.columns result ≡ last_row size (state self.now) }
        ensures below { IfSome result (λ start. start < size) }
    {
        if self.offset < size {
            Some(self.offset)
        } else {
            None
        }
    }
}
