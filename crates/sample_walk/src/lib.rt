//! Walks of samples that go on: past a caller's frame pointer that can't be read, on processors without pointer
//! authentication, and from the state where a walk ended.
//!
//! [`step`] gives the frame of a [`State`], and the caller's state or why the walk stops. [`walk_on`] lists frames into
//! an array of the caller's, each with the index of its module, over any [`Modules`] and any [`sf_model::Memory`], and
//! gives the state where it ends. A [`CacheEntry`] keeps what was found at an address; a walk lists the same frames with
//! any cache that is right, and without one.
//!
//! A walk by a part of a memory, as by the copy of a stack, lists the first frames of the walk by the whole memory.
//!
//! The laws over `walk_on` of `specs/` are functions that do nothing: a walk of n + m frames is one of n frames and then
//! one of m from its state, and a walk lists what `look_up_walk` of `sf_model` lists, and goes on where that stops at a
//! value that can't be read, or without a mask at a return address in the address space.
//!
//! The caller owes that a cache is right: that it was cleared, and has been used with these modules alone since then.
//! Nothing allocates.
#![tactic(auto)]

mod cache;
mod laws;
mod modules;
mod rule;
mod signature;
mod state;
mod stepping;
mod walking;

pub use cache::{CacheEntry, clear, locate};
pub use laws::{goes_on_from_its_state, goes_on_past_stops, lists_first_frames};
pub use modules::{Located, Modules};
pub use rule::{Rule, rule_of};
pub use signature::in_address_space;
pub use state::{State, Value};
pub use stepping::step;
pub use walking::{Ended, ModuleFrame, walk_on};
