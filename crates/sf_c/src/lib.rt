//! SFrame sections for programs in C: opening, look-up, recovery and walks of samples, as exports of a static library.
//! `include/kiblawen.h` declares them, and says what its callers keep.
//!
//! [`opening`] checks the bytes of a section once, and closes it. The other exports lend its view without checking
//! again, and treat a closed section as one that has no functions. [`finding`] looks an address up, [`recovering`]
//! recovers the caller's frame of a sample, and [`walking`] lists the frames of a sample, into an array of the
//! caller's, by one section or by the sections of a process's [`modules`]. [`walking_on`] walks on from a state, by
//! modules in any order, which [`order`] has made an index of, and by a cache.
//!
//! Each export promises what the Rust call under it promises: `section_check` of `sf_decode`, `found_at` of `sf_model`,
//! `recover_by_rows` and `look_up_walk` of `sf_model`, `walk_on` of `sample_walk`. Nothing allocates, and no function
//! calls itself but the sort of `kiblawen_index`. What C has to keep is what Rust's references ask (a pointer that is
//! not null, aligned, to as many values as are declared, which no one writes meanwhile), what the section's fields say,
//! that modules are in order or have an index, and that a cache is right for them.
#![tactic(auto)]

mod finding;
mod indexed;
mod modules;
mod opening;
mod order;
mod recovering;
mod rows;
mod sample;
mod section;
mod walking;
mod walking_on;
