//! All checks of a file, in their order.

ghost use Rattle.std.specs.Prelude.{◌≡◌, ◌<◌, ◌^◌, length, OnOk};
ghost use Rattle.elf_read.specs.Header.{header_fields};
ghost use Rattle.elf_read.specs.Sections as fields;
ghost use Rattle.elf_read.specs.InTurn as spec;
ghost use Rattle.elf_read.specs.Parsing.{file_check};

use crate::compressed::check_compressed;
use crate::fault::ElfFault;
use crate::header::is_core_file;
use crate::identity::{check_first_section, check_identity, check_purpose, needs_sections};
use crate::names::{check_names, check_sections};
use crate::sections::section_count;
use crate::segments::check_core;
use crate::total_size::check_room;
use crate::used_checks::{check_all_entries, check_groups, check_relas};

// Checks section 0's header, where it is needed.
#[tactic(auto, unfolding(crate::specs::InTurn::table_check))]
fn check_table(file: &[u8]) -> Result<(), ElfFault>
    ensures { result ≡ spec.table_check file.now }
{
    if !needs_sections(file) {
        return Ok(());
    }
    check_first_section(file)
}

// Checks the sections that are used.
#[tactic(auto, unfolding(crate::specs::InTurn::used_check))]
fn check_used(file: &[u8], count: u32) -> Result<(), ElfFault>
    requires small { length file.now < 2 ^ 32 }
    requires headers { (header_fields file.now).e_shoff < 2 ^ 32 }
    requires count { count ≡ fields.section_count file.now }
    ensures { result ≡ spec.used_check file.now }
{
    check_relas(file, count)?;
    check_room(file, count)?;
    check_groups(file, count)?;
    check_compressed(file, count)?;
    check_all_entries(file, count)
}

// Checks the segments of a core file, or the sections of another.
#[tactic(auto, unfolding(crate::specs::InTurn::content_check, crate::specs::Sections::section_count))]
fn check_content(file: &[u8]) -> Result<(), ElfFault>
    requires { length file.now < 2 ^ 32 }
    ensures check { result ≡ spec.content_check file.now }
    ensures count { OnOk result (fields.section_count file.now < 2 ^ 32) }
    ensures headers { OnOk result (0 < fields.section_count file.now → (header_fields file.now).e_shoff < 2 ^ 32) }
{
    if is_core_file(file) {
        return check_core(file);
    }
    check_sections(file)?;
    let count = section_count(file) as u32;
    check_names(file, count)?;
    check_used(file, count)
}

// Makes the checks in their order.
#[tactic(auto, unfolding(crate::specs::InTurn::checks_in_turn))]
fn check_in_turn(file: &[u8]) -> Result<(), ElfFault>
    requires { length file.now < 2 ^ 32 }
    ensures check { result ≡ spec.checks_in_turn file.now }
    ensures count { OnOk result (fields.section_count file.now < 2 ^ 32) }
    ensures headers { OnOk result (0 < fields.section_count file.now → (header_fields file.now).e_shoff < 2 ^ 32) }
{
    check_identity(file)?;
    check_purpose(file)?;
    check_table(file)?;
    check_content(file)
}

/// Checks all that is asked of a file: the first row that it breaks gives the fault.
pub fn check_file(file: &[u8]) -> Result<(), ElfFault>
    requires { length file.now < 2 ^ 32 }
    ensures check { result ≡ file_check file.now }
    ensures count { OnOk result (fields.section_count file.now < 2 ^ 32) }
    ensures headers { OnOk result (0 < fields.section_count file.now → (header_fields file.now).e_shoff < 2 ^ 32) }
{
    check_in_turn(file)
}
