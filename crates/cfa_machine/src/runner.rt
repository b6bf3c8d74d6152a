//! The rows of a function one by one, each made when it is asked for.

ghost use Rattle.std.specs.Prelude.{◌≡◌, ◌<◌, [], List, Ok, OnOk, length};
ghost use Rattle.sf_bytes.specs.Cursor.{cursor};
ghost use Rattle.cfa_insn.specs.Listing.{Item, listing};
ghost use Rattle.cfa_insn.specs.Remaining.{items_left};
ghost use Rattle.cfa_machine.specs.Initial.{IsInitial};
ghost use Rattle.cfa_machine.specs.Left.{Follows, OnRow, Reaches, RunsNext, limit, present, rows_left, steps_left};
ghost use Rattle.cfa_machine.specs.Pass.{with_ended, last_row, rows_by, rows_from, state};

use crate::columns::{Columns, empty_columns};
use crate::fault::MachineFault;
use crate::machine::{FunctionContext, Machine};
use cfa_insn::Insns;
use sf_bytes::Part;
use sf_model::Arch;

/// Gives the rows of a function by rising start, and allocates nothing. It can be started again for the next
/// function.
#[derive(Drop)]
pub struct Runner<'a> {
    machine: Machine,
    context: FunctionContext,
    data_alignment_factor: i64,
    insns: Insns<'a>,
    ended: bool,
}

// Runs the next instruction, whichever it is, and returns the start of the row that ends there. It is not inlined, so that the loop
// over the frequent instructions is short.
#[inline(never)]
fn step_next(
    machine: &mut Machine,
    context: &FunctionContext,
    data_alignment_factor: i64,
    left: &mut Insns<'_>,
) -> Option<Result<Option<u64>, MachineFault>>
    ensures { RunsNext context.now data_alignment_factor machine.old machine.new result (items_left left.old) (items_left left.new) }
{
    let item = left.next()?;
    Some(machine.step(context, data_alignment_factor, item))
}

// Runs instructions up to the next row, whose start it returns, or to their end. The four kinds that are nearly all of a program's
// instructions are taken straight from their bytes, any other through its item.
#[inline(always)]
fn next_start(
    machine: &mut Machine,
    context: &FunctionContext,
    data_alignment_factor: i64,
    insns: &mut Insns<'_>,
) -> Result<Option<u64>, MachineFault>
    ensures reaches { Reaches machine.new.columns result (rows_from context.now data_alignment_factor (state machine.old) (items_left insns.old)) (rows_from context.now data_alignment_factor (state machine.new) (items_left insns.new)) (Ok (with_ended (last_row context.now.size (state machine.new)) [])) }
    ensures fewer { OnRow result (λ start. length (items_left insns.new) < length (items_left insns.old)) }
    ensures below { OnRow result (λ start. start < context.now.size) }
{
    let mut left = *insns;
    loop {
        if let Some(delta) = left.next_advance_loc() {
            if let Some(start) = machine.advance(context, u32::from(delta)) {
                *insns = left;
                return Ok(Some(start));
            }
        } else if let Some((place, offset)) = left.next_def_cfa_offset() {
            machine.move_cfa(place, offset)?;
        } else if let Some((register, factored)) = left.next_offset() {
            machine.save_at(context, data_alignment_factor, register, factored);
        } else if left.next_nop() {
            continue;
        } else {
            let mut rest = left;
            let Some(stepped) = step_next(machine, context, data_alignment_factor, &mut rest) else {
                *insns = rest;
                return Ok(None);
            };
            left = rest;
            if let Some(start) = stepped? {
                *insns = left;
                return Ok(Some(start));
            }
        }
    }
}

impl<'a> Runner<'a> {
    /// Returns the runner before any function.
    pub fn new() -> Runner<'a>
        ensures { rows_left result ≡ Ok [] }
    {
        let initial = empty_columns();
        Runner {
            machine: Machine::new(initial),
            context: FunctionContext {
                arch: Arch::Amd64,
                code_alignment_factor: 0,
                size: 0,
                initial,
            },
            data_alignment_factor: 0,
            insns: Insns::new(Part::new(&[], 0)),
            ended: true,
        }
    }

    /// Begins the rows of a function of `size` bytes, from the initial row that [`initial_row`](crate::initial_row) gives of
    /// its common information entry. The alignment factors are that entry's, and `fde` is the function's own instructions.
    #[inline(always)]
    pub fn start_from(
        &mut self,
        initial: &Columns,
        arch: Arch,
        code_alignment_factor: u64,
        data_alignment_factor: i64,
        fde: Part<'a>,
        size: u64,
    )
        ensures begins { (cie : List Item) → IsInitial arch data_alignment_factor cie initial.now → rows_left self.new ≡ rows_by arch code_alignment_factor data_alignment_factor size cie (listing (cursor fde.entry)) }
        ensures limit { limit self.new ≡ size }
    {
        self.machine.restart(initial);
        self.context.arch = arch;
        self.context.code_alignment_factor = code_alignment_factor;
        self.context.size = size;
        self.context.initial = *initial;
        self.data_alignment_factor = data_alignment_factor;
        self.insns = Insns::new(fde);
        self.ended = false;
    }

    /// Returns the start of the next row, or none after the last. [`columns`](Runner::columns) has its columns.
    ///
    /// # Errors
    ///
    /// The first fault of the function's own instructions.
    #[inline(always)]
    pub fn next_row(&mut self) -> Result<Option<u64>, MachineFault>
        ensures follows { Follows (present self.new) result (rows_left self.old) (rows_left self.new) }
        ensures fewer { OnRow result (λ start. steps_left self.new < steps_left self.old) }
        ensures below { OnRow result (λ start. start < limit self.old) }
        ensures limit { limit self.new ≡ limit self.old }
    {
        if self.ended {
            return Ok(None);
        }
        if let Some(start) = next_start(
            &mut self.machine,
            &self.context,
            self.data_alignment_factor,
            &mut self.insns,
        )? {
            return Ok(Some(start));
        }
        self.ended = true;
        Ok(self.machine.last(self.context.size))
    }

    /// Returns the columns of the row whose start was returned last.
    #[inline(always)]
    pub fn columns(&self) -> &Columns
        ensures { result.now ≡ present self.now }
    {
        &self.machine.columns
    }
}
