//! SFrame Version 3 sections whose function descriptor entries are all of the default type, as definitions.
//!
//! `Section` of `specs/Section.antt` says when bytes at an address have the content of a `Table`, `found_at` of
//! `specs/Lookup.antt` what is found at an address, and `step_at` what that recovers. A row is looked up, and read, as in
//! Version 2: functions, rows, contents and recovery are those of `sf_model`. `specs/Flexible.antt` has the rows of the
//! flexible type, which no section here has.
//!
//! Laws: functions of Version 2 that have rows are found alike in Version 3
//! ([`version_3_finds_what_version_2_finds`]), a row of the default type can be expressed by a row of the flexible type
//! ([`a_flexible_row_can_express_a_row`]), and bytes at an address are a section of at most one table
//! ([`section_has_one_table`]).
#![tactic(auto)]

mod laws;

pub use laws::{
    a_flexible_row_can_express_a_row, section_has_one_table, version_3_finds_what_version_2_finds,
};
