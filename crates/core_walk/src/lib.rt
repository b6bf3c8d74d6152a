//! Walks of a thread's stack by the rows of SFrame sections.
//!
//! [`walk`] lists the frames of a thread of a core file, from the innermost on, and why it stops: `section_walk` of
//! `sf_model`, over the functions of the view's table and any [`sf_model::Memory`]. [`walk_by`] does so over any
//! [`LookUp`], by `look_up_walk` of `sf_model`: a view, or for many walks by one section an [`sf_lookup::Indexed`].
//! Both take any section, thread, memory and depth, and their caller owes nothing.
//!
//! [`step`] takes one step of a walk, for walks whose frames are kept elsewhere.
//!
//! A memory of which only parts were read serves too: a walk by it is the walk by the whole, unless it stopped at
//! bytes that the whole has (`a_walk_by_a_part_is_the_walk`).
//!
//! A step looks the row up and recovers the caller's frame, and allocates nothing; the list of frames is what grows.
#![tactic(auto)]

mod laws;
mod look_up;
pub mod step;
mod walking;

pub use laws::a_walk_by_a_part_is_the_walk;
pub use look_up::LookUp;
pub use walking::{walk, walk_by};
