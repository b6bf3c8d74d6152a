//! A whole section.

ghost use Rattle.std.specs.Prelude.{◌≡◌, ◌++◌, ℕ, List, None, All, map, IfOk, OnOk, IfErr, vec_len};
ghost use Rattle.std.specs.List.{flat_map};
ghost use Rattle.sf_model.specs.Function.{AreWritable};
ghost use Rattle.sf_model.specs.Section.{AreBytes};
ghost use Rattle.sf_write.specs.Stored.{IsStored, stored_in};
ghost use Rattle.sf3_model.specs.Section.{Section};
ghost use Rattle.sf3_write.specs.Attributes.{data_bytes};
ghost use Rattle.sf3_write.specs.Rows.{Refuses, first_with_too_many_rows};
ghost use Rattle.sf3_write.specs.Section.{section_bytes, section_len, table_of};
ghost use Rattle.sf3_write.specs.Stored.{HasFewRows};
ghost use Rattle.sf3_write.specs.Tight.{Tight};

use crate::attributes::push_attributes;
use crate::entry::push_entries;
use crate::fault::WriteFault;
use crate::header::push_header;
use crate::layout::{ATTRIBUTES_LEN, FUNCTION_ENTRY_LEN, HEADER_LEN};
use crate::rows::check_rows;
use sf_model::Arch;
use sf_write::{StoredList, StoredRows, totals_of};
use std::alloc::{AllocError, Global};

/// Makes the Version 3 section of stored functions, in their order, for the address `at`: the one list of bytes that is a section
/// of their table without gaps and with the least widths. Their rows are copied range by range, and memory is allocated once.
///
/// # Errors
///
/// `TooManyRows` names the first function of more than 65,535 rows.
#[tactic(auto, unfolding(crate::specs::Section::section_bytes))]
pub fn write_stored<L: StoredList>(
    alloc: Global,
    arch: Arch,
    at: u64,
    rows: &StoredRows,
    functions: &L,
) -> Result<Vec<u8>, WriteFault>
    requires stored { All (IsStored rows.now) (L.listed functions.now) }
    requires writable { AreWritable arch (map (stored_in rows.now) (L.listed functions.now)) }
    ensures section { IfOk result (λ v. Section v.items at (table_of arch (map (stored_in rows.now) (L.listed functions.now)))) }
    ensures tight { IfOk result (λ v. Tight v.items at (table_of arch (map (stored_in rows.now) (L.listed functions.now)))) }
    ensures only { IfOk result (λ v. (other : List ℕ) → AreBytes other → Tight other at (table_of arch (map (stored_in rows.now) (L.listed functions.now))) → other ≡ v.items) }
    ensures are_bytes { IfOk result (λ v. AreBytes v.items) }
    ensures bytes { IfOk result (λ v. v.items ≡ section_bytes arch at (map (stored_in rows.now) (L.listed functions.now))) }
    ensures len { IfOk result (λ v. vec_len v ≡ section_len (map (stored_in rows.now) (L.listed functions.now))) }
    ensures few { OnOk result (first_with_too_many_rows (map (stored_in rows.now) (L.listed functions.now)) ≡ None) }
    ensures fault { IfErr result (λ e. Refuses e (first_with_too_many_rows (map (stored_in rows.now) (L.listed functions.now)))) }
{
    check_rows(functions)?;
    let totals = totals_of(functions);
    let count = functions.len() as u32;
    let data_len = ATTRIBUTES_LEN * count + totals.row_bytes;
    let len = HEADER_LEN + FUNCTION_ENTRY_LEN * count + data_len;
    let mut bytes = Vec::with_capacity(alloc, len as usize)?;
    push_header(&mut bytes, arch, count, totals.rows, data_len)?;
    push_entries(&mut bytes, at, functions)?;
    push_all_data(&mut bytes, rows, functions)?;
    Ok(bytes)
}

/// Appends the attributes and the rows of all functions.
fn push_all_data<L: StoredList>(
    bytes: &mut Vec<u8>,
    rows: &StoredRows,
    functions: &L,
) -> Result<(), AllocError>
    requires stored { All (IsStored rows.now) (L.listed functions.now) }
    requires few { All HasFewRows (L.listed functions.now) }
    ensures { OnOk result (bytes.new.items ≡ bytes.old.items ++ flat_map data_bytes (map (stored_in rows.now) (L.listed functions.now))) }
{
    for number in 0..functions.len() {
        let stored = functions.function(number);
        push_attributes(bytes, stored.width, &stored.head)?;
        bytes.extend_from_slice(rows.range(stored))?;
    }
    Ok(())
}
