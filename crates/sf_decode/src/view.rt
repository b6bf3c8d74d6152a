//! A section that was checked.

ghost use Rattle.std.specs.Prelude.{IsTrue, is_ok};
ghost use Rattle.sf_decode.specs.Decoding.{section_check};

use crate::entry::{
    entry_place, key_at, row_count_at, row_offset_at, shape_at, size_at, start_at, start_width_at,
};
use crate::fault::DecodeFault;
use crate::header;
use crate::iter::RowIter;
use crate::parsing::check_section;
use sf_model::{Arch, FuncHead};

/// An SFrame section that was checked, at its address. It lends the section's bytes.
#[derive(Clone, Copy)]
pub struct View<'a> {
    bytes: &'a [u8],
    at: u64,
    ghost checked: { IsTrue (is_ok (section_check bytes.now at)) },
}

impl<'a> View<'a> {
    ghost use Rattle.std.specs.Prelude.{◌≡◌, ◌<◌, ◌≤◌, ◌^◌, IfOk, IsOkAnd, length};
    ghost use Rattle.sf_model.specs.Section.{Section};
    ghost use Rattle.sf_model.specs.Table as table;
    ghost use Rattle.sf_model.specs.Table.{Table};
    ghost use Rattle.sf_decode.specs.Checking.{verdict};
    ghost use Rattle.sf_decode.specs.Decoding.{table_in};
    ghost use Rattle.sf_decode.specs.Entry as entry;
    ghost use Rattle.sf_decode.specs.View.{section_address, section_bytes, table_of, function_of, head_of, rows_left};

    /// Checks the bytes of a section at an address: the header, the number of rows, and then each function
    /// descriptor entry with its rows. The fault is that of the first check that fails.
    pub fn parse(bytes: &'a [u8], at: u64) -> Result<View<'a>, DecodeFault>
        // What was read is a section of the table that the view shows.
        ensures sound { IfOk result (λ view. Section bytes.now at (table_of view)) }
        // Each section is read, as its table.
        ensures complete { (t : Table) → Section bytes.now at t → IsOkAnd result (λ view. table_of view ≡ t) }
        // It is read exactly where no check fails; else the fault is that of the first that does.
        ensures exact { verdict result ≡ section_check bytes.now at }
        ensures table { IfOk result (λ view. table_of view ≡ table_in bytes.now at) }
        ensures bytes { IfOk result (λ view. section_bytes view ≡ bytes.now) }
        ensures address { IfOk result (λ view. section_address view ≡ at) }
    {
        check_section(bytes, at)?;
        Ok(View { bytes, at })
    }

    /// Returns the view of bytes that were checked at this address before: the one that [`View::parse`]
    /// returns for them, in constant time. The caller owes that no check fails.
    #[inline(always)]
    pub fn of_checked(bytes: &'a [u8], at: u64) -> View<'a>
        requires { IsTrue (is_ok (section_check bytes.now at)) }
        ensures table { table_of result ≡ table_in bytes.now at }
        ensures bytes { section_bytes result ≡ bytes.now }
        ensures address { section_address result ≡ at }
    {
        View { bytes, at }
    }

    /// Returns the section's bytes.
    #[inline(always)]
    pub(crate) fn bytes(&self) -> &'a [u8]
        ensures { result.now ≡ section_bytes self.now }
    {
        self.bytes
    }

    /// Returns the section's address.
    #[inline(always)]
    pub(crate) fn address(&self) -> u64
        ensures { result ≡ section_address self.now }
    {
        self.at
    }

    /// Returns the machine that the section is for.
    #[inline(always)]
    pub fn arch(&self) -> Arch
        ensures { result ≡ (table_of self.now).arch }
    {
        header::arch_of(self.bytes)
    }

    /// Returns the section's flags.
    pub fn flags(&self) -> u8
        ensures { result ≡ (table_of self.now).flags }
    {
        header::flags_of(self.bytes)
    }

    /// Returns how many functions the section has.
    #[tactic(auto, using(crate::proofs::Checked::functions_length, crate::proofs::Joined::function_limit_checked))]
    #[inline(always)]
    pub fn len(&self) -> u32
        ensures value { result ≡ length (table_of self.now).functions }
        ensures most { result ≤ 2 ^ 21 }
    {
        header::function_count(self.bytes)
    }

    /// Returns how many rows all functions have together.
    #[tactic(auto, using(crate::proofs::Checked::row_count_checked, crate::proofs::Joined::row_limit_checked))]
    pub fn row_count(&self) -> u32
        ensures value { result ≡ table.row_count (table_of self.now).functions }
        ensures most { result ≤ 2 ^ 24 }
    {
        header::row_count(self.bytes)
    }

    /// Returns the place of a function descriptor entry in the section.
    #[inline(always)]
    pub fn entry_place(&self, i: u32) -> u64
        ensures { result ≡ entry.entry_place (section_bytes self.now) i }
    {
        entry_place(self.bytes, i)
    }

    /// Returns where a function starts.
    #[tactic(auto, using(crate::proofs::Checked::in_memory_checked), unfolding(crate::specs::Entry::function_in))]
    #[inline(always)]
    pub fn start(&self, i: u32) -> u64
        requires { i < length (table_of self.now).functions }
        ensures { result ≡ (function_of self.now i).start }
    {
        start_at(self.bytes, self.at, entry_place(self.bytes, i))
    }

    /// Returns a function without its rows.
    #[tactic(auto, using(crate::proofs::Checked::rows_length), unfolding(crate::specs::Entry::function_in))]
    pub fn func(&self, i: u32) -> FuncHead
        requires { i < length (table_of self.now).functions }
        ensures { result ≡ head_of (function_of self.now i) }
    {
        let place = entry_place(self.bytes, i);
        FuncHead {
            start: self.start(i),
            size: size_at(self.bytes, place),
            shape: shape_at(self.bytes, place),
            key: key_at(self.bytes, place),
            rows: row_count_at(self.bytes, place),
        }
    }

    /// Returns the rows of a function, in order.
    #[tactic(auto, unfolding(crate::specs::Entry::function_in))]
    pub fn rows(&self, i: u32) -> RowIter<'a>
        requires { i < length (table_of self.now).functions }
        ensures { rows_left result ≡ (function_of self.now i).rows }
    {
        let place = entry_place(self.bytes, i);
        RowIter::new(
            header::arch_of(self.bytes),
            header::row_bytes(self.bytes),
            start_width_at(self.bytes, place),
            row_offset_at(self.bytes, place),
            row_count_at(self.bytes, place),
        )
    }
}
