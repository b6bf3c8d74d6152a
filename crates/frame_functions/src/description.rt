//! Functions as their records describe them.

ghost use Rattle.std.specs.Prelude.{◌≡◌, ◌≤◌, ◌+◌, ◌^◌, IsTrue, is_ok, true};
ghost use Rattle.sf_bytes.specs.Cursor.{cursor};
ghost use Rattle.sf_model.specs.Function.{key_fits};
ghost use Rattle.cfa_insn.specs.Listing.{listing};
ghost use Rattle.cfa_machine.specs.Initial.{IsInitial};
ghost use Rattle.cfa_machine.specs.Pass.{rows_by};

use cfa_machine::Columns;
use sf_bytes::Part;
use sf_functions::HasStart;
use sf_model::{Arch, FdeFacts, Key, Origin};

/// A function as its records describe it (LSB Core, "The .eh_frame section"), with its instructions lent from
/// its input.
#[derive(Clone, Copy)]
pub struct Description<'a> {
    /// The machine of its input.
    pub arch: Arch,
    /// Its start and size in bytes, return column, signal frame and key.
    pub facts: FdeFacts,
    /// The code alignment factor.
    pub code: u64,
    /// The data alignment factor.
    pub factor: i64,
    /// The instructions of its common information entry.
    pub initial: Part<'a>,
    /// The row that they give.
    pub row: Columns,
    /// Its own instructions.
    pub own: Part<'a>,
    /// The record that it came from.
    pub origin: Origin,
    ghost ends: { facts.start + facts.size ≤ 2 ^ 64 },
    ghost has_key: { IsTrue (key_fits arch facts.key) },
    ghost given: { IsInitial arch factor (listing (cursor initial)) row },
    ghost ran: { is_ok (rows_by arch code factor facts.size (listing (cursor initial)) (listing (cursor own))) ≡ true },
}

/// What the functions of one common information entry share.
#[derive(Clone, Copy)]
pub struct CommonPart<'a> {
    /// The machine of their input.
    pub arch: Arch,
    /// The return column.
    pub column: u64,
    /// Whether their frames are signal frames.
    pub signal: bool,
    /// The key of signed return addresses.
    pub key: Key,
    /// The code alignment factor.
    pub code: u64,
    /// The data alignment factor.
    pub factor: i64,
    /// The entry's instructions.
    pub initial: Part<'a>,
    /// The row that they give.
    pub row: Columns,
    ghost has_key: { IsTrue (key_fits arch key) },
    ghost given: { IsInitial arch factor (listing (cursor initial)) row },
}

/// What a function has of its own.
#[derive(Clone, Copy)]
pub struct DescriptionItem<'a> {
    /// Its first address.
    pub start: u64,
    /// Its size in bytes.
    pub size: u64,
    /// Its own instructions.
    pub own: Part<'a>,
    /// The record that it came from.
    pub origin: Origin,
    /// The number of what it shares with others.
    pub common: u32,
    ghost ends: { start + size ≤ 2 ^ 64 },
}

impl<'a> HasStart for DescriptionItem<'a> {
    ghost first_address = { λ i. i.start };

    #[inline(always)]
    fn start(&self) -> u64 {
        self.start
    }
}
