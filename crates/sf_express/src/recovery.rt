//! Laws: a row of the call frame instructions and its content in SFrame Version 2 recover the same of the
//! caller's frame.

ghost use Rattle.std.specs.Prelude.{◌≡◌, ◌<◌, ℕ, ℤ, List, None, Ok};
ghost use Rattle.sf_model.specs.declared.machine.Arch.{Arch};
ghost use Rattle.sf_model.specs.declared.content.Content.{Content};
ghost use Rattle.sf_model.specs.declared.rows.Row.{Row};
ghost use Rattle.cfa_insn.specs.Listing.{Item};
ghost use Rattle.cfa_machine.specs.declared.columns.Columns.{Columns};
ghost use Rattle.cfa_machine.specs.declared.row.DwRow.{DwRow};
ghost use Rattle.cfa_machine.specs.Columns.{row_from};
ghost use Rattle.cfa_machine.specs.RowAtOffset.{row_at_offset, MatchInstructions};
ghost use Rattle.cfa_machine.specs.FullRow.{FullRow, columns_of};
ghost use Rattle.sf_express.specs.Rules.{content_of};
ghost use Rattle.sf_express.specs.Offsets.{latest_content, HaveSameContents};
ghost use Rattle.sf_express.specs.Alike.{RecoverAlike, ColumnsRecoverAlike, FoundAlike};

/// States that a row that SFrame Version 2 can express recovers by its rules (DWARF 5, section 6.4.1) what
/// its content recovers, with every key, all registers and all memory.
pub fn rows_recover_alike()
    // By the rules of all registers, in a function whose return address column is the machine's own.
    ensures rows { (arch : Arch) (start : ℕ) (row : FullRow) (content : Content) → content_of arch (row_from start (columns_of arch row)) ≡ Ok content → RecoverAlike arch row content }
    // By the columns alone.
    ensures columns { (arch : Arch) (start : ℕ) (columns : Columns) (content : Content) → content_of arch (row_from start columns) ≡ Ok content → ColumnsRecoverAlike arch columns content }
{}

/// States that at each offset of a function the kept rows have a content, which recovers what the full row
/// there recovers.
pub fn functions_recover_alike()
    ensures { (arch : Arch) (code : ℕ) (factor : ℤ) (size : ℕ) (cie fde : List Item) (rows : List DwRow) (kept : List Row) → MatchInstructions arch code factor size cie fde rows → HaveSameContents arch rows kept → (o : ℕ) → o < size → FoundAlike arch (row_at_offset code factor cie fde o) (latest_content o None kept) }
{}
