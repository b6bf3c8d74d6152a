//! SFrame sections made, merged, shortened and verified for programs in C, as exports of a static library of its own, since
//! these calls allocate. `include/kiblawen-link.h` declares them, and says what their callers keep.
//!
//! [`linking`] and [`linking_plt`] make the section of inputs, [`slimming`] that of another section, [`merging`] that of
//! several. Each writes it into the caller's [`room`], whole or not at all. [`omissions`] has the functions that are
//! omitted, and [`refusals`] the reason if nothing is made. [`verifying`] compares a section with inputs, and [`placing`]
//! returns where a file is loaded.
//!
//! Each export promises what the Rust call under it promises: `sf_link::link`, `sf_plt::link_plt`, `sf_slim::slim`,
//! `sf_merge::merge`, `sf_verify::verify` and `elf_load::read_loading`. Memory is allocated by the kit's allocator over
//! `malloc`, `realloc` and `free` of the program, and freed before the call returns. What C has to keep is what Rust's
//! references ask, and what the fields of a section say.
#![tactic(auto)]

mod answer;
mod contents;
mod inputs;
mod linked;
mod linking;
mod linking_plt;
mod made;
mod merging;
mod omissions;
mod placing;
mod refusals;
mod room;
mod slimming;
mod verifying;
