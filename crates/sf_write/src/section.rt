//! A whole section.

ghost use Rattle.std.specs.Prelude.{◌≡◌, ◌++◌, ℕ, List, None, All, map, IfOk, OnOk, IfErr, vec_len};
ghost use Rattle.std.specs.List.{flat_map};
ghost use Rattle.sf_model.specs.Function.{AreWritable};
ghost use Rattle.sf_model.specs.Section.{AreBytes, Section};
ghost use Rattle.sf_model.specs.Tight.{Narrow, Tight};
ghost use Rattle.sf_model.specs.declared.function.Func.{Func as func_fact};
ghost use Rattle.sf_write.specs.Row.{rows_bytes};
ghost use Rattle.sf_write.specs.Reach.{first_out_of_reach, Refuses};
ghost use Rattle.sf_write.specs.Section.{section_bytes, section_len, table_of};
ghost use Rattle.sf_write.specs.Stored.{IsStored, stored_in};

use crate::entry::push_entries;
use crate::fault::WriteFault;
use crate::header::push_header;
use crate::layout::{FUNCTION_ENTRY_LEN, HEADER_LEN};
use crate::list::StoredList;
use crate::stored::{StoredFunction, StoredRows};
use crate::totals::totals_of;
use sf_model::{Arch, Func};
use std::alloc::{AllocError, Global};

/// Makes the section of these functions, in their order, for the address `at`: the one list of bytes that
/// is a section of their table with flags 0x5, without gaps and with the least widths. It stores the rows,
/// and then writes the section by [`write_stored`].
///
/// # Errors
///
/// `OutOfReach` names the first start that does not lie within -2^31 to 2^31-1 bytes of its own field.
pub fn write(alloc: Global, arch: Arch, at: u64, funcs: &[Func]) -> Result<Vec<u8>, WriteFault>
    requires { AreWritable arch funcs.now }
    ensures section { IfOk result (λ v. Section v.items at (table_of arch funcs.now)) }
    ensures tight { IfOk result (λ v. Tight v.items at (table_of arch funcs.now)) }
    ensures narrow { IfOk result (λ v. Narrow v.items (table_of arch funcs.now)) }
    ensures only { IfOk result (λ v. (other : List ℕ) → AreBytes other → Tight other at (table_of arch funcs.now) → Narrow other (table_of arch funcs.now) → other ≡ v.items) }
    ensures are_bytes { IfOk result (λ v. AreBytes v.items) }
    ensures bytes { IfOk result (λ v. v.items ≡ section_bytes arch at funcs.now) }
    ensures len { IfOk result (λ v. vec_len v ≡ section_len funcs.now) }
    ensures in_reach { OnOk result (first_out_of_reach at 0 funcs.now ≡ None) }
    ensures fault { IfErr result (λ e. Refuses e (first_out_of_reach at 0 funcs.now)) }
{
    let (rows, functions) = stored(alloc, arch, funcs)?;
    write_stored(alloc, arch, at, &rows, &functions)
}

// Stores the functions in their order.
fn stored(
    alloc: Global,
    arch: Arch,
    funcs: &[Func],
) -> Result<(StoredRows, Vec<StoredFunction>), AllocError>
    requires { AreWritable arch funcs.now }
    ensures stored { IfOk result (λ s. All (IsStored s.0) s.1.items) }
    ensures functions { IfOk result (λ s. map (stored_in s.0) s.1.items ≡ funcs.now) }
{
    let mut rows = StoredRows::new(alloc);
    let mut functions = Vec::with_capacity(alloc, funcs.len())?;
    for func in funcs {
        functions.push(rows.push(arch, func)?)?;
    }
    Ok((rows, functions))
}

/// Makes the section of stored functions, in their order, for the address `at`: the one that [`write`]
/// makes of the functions. Their rows are copied range by range, and memory is allocated once, for the
/// section.
///
/// # Errors
///
/// `OutOfReach` names the first start that does not lie within -2^31 to 2^31-1 bytes of its own field.
#[tactic(auto, unfolding(crate::specs::Section::section_bytes))]
pub fn write_stored<L: StoredList>(
    alloc: Global,
    arch: Arch,
    at: u64,
    rows: &StoredRows,
    functions: &L,
) -> Result<Vec<u8>, WriteFault>
    requires stored { All (IsStored rows.now) (L.listed functions.now) }
    requires writable { AreWritable arch (map (stored_in rows.now) (L.listed functions.now)) }
    ensures section { IfOk result (λ v. Section v.items at (table_of arch (map (stored_in rows.now) (L.listed functions.now)))) }
    ensures tight { IfOk result (λ v. Tight v.items at (table_of arch (map (stored_in rows.now) (L.listed functions.now)))) }
    ensures narrow { IfOk result (λ v. Narrow v.items (table_of arch (map (stored_in rows.now) (L.listed functions.now)))) }
    ensures only { IfOk result (λ v. (other : List ℕ) → AreBytes other → Tight other at (table_of arch (map (stored_in rows.now) (L.listed functions.now))) → Narrow other (table_of arch (map (stored_in rows.now) (L.listed functions.now))) → other ≡ v.items) }
    ensures are_bytes { IfOk result (λ v. AreBytes v.items) }
    ensures bytes { IfOk result (λ v. v.items ≡ section_bytes arch at (map (stored_in rows.now) (L.listed functions.now))) }
    ensures len { IfOk result (λ v. vec_len v ≡ section_len (map (stored_in rows.now) (L.listed functions.now))) }
    ensures in_reach { OnOk result (first_out_of_reach at 0 (map (stored_in rows.now) (L.listed functions.now)) ≡ None) }
    ensures fault { IfErr result (λ e. Refuses e (first_out_of_reach at 0 (map (stored_in rows.now) (L.listed functions.now)))) }
{
    let totals = totals_of(functions);
    let count = functions.len() as u32;
    let len = HEADER_LEN + FUNCTION_ENTRY_LEN * count + totals.row_bytes;
    let mut bytes = Vec::with_capacity(alloc, len as usize)?;
    push_header(&mut bytes, arch, count, totals)?;
    push_entries(&mut bytes, at, functions)?;
    push_all_rows(&mut bytes, rows, functions)?;
    Ok(bytes)
}

/// Appends the rows of all functions.
fn push_all_rows<L: StoredList>(
    bytes: &mut Vec<u8>,
    rows: &StoredRows,
    functions: &L,
) -> Result<(), AllocError>
    requires { All (IsStored rows.now) (L.listed functions.now) }
    ensures { OnOk result (bytes.new.items ≡ bytes.old.items ++ flat_map (λ (f : func_fact). rows_bytes f.rows) (map (stored_in rows.now) (L.listed functions.now))) }
{
    for number in 0..functions.len() {
        bytes.extend_from_slice(rows.range(functions.function(number)))?;
    }
    Ok(())
}
