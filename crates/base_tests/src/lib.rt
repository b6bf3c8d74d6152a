//! What no clause says of the crates that all others stand on, `sf_base`, `sf_fakes` and `sf_bytes`: values from outside, and one call of
//! each public function that allocates, with ample memory. `tables` is for all crates of tests.
#![tactic(auto)]

#[cfg(test)]
mod base;
#[cfg(test)]
mod bytes;
#[cfg(test)]
mod same;
#[cfg(test)]
mod storing;
pub mod tables;
