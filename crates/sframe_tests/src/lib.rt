//! What no clause says of the crates of SFrame sections, from `sf_model` to `sf_merge`, and of the texts of `sf_text`: values from
//! outside that no run of the program shows, and one call of each public function that allocates and that the program doesn't call, with
//! ample memory.
#![tactic(auto)]

#[cfg(test)]
mod decode;
#[cfg(test)]
mod express;
#[cfg(test)]
mod lookup;
#[cfg(test)]
mod merge;
#[cfg(test)]
mod model;
#[cfg(test)]
mod same;
pub mod samples;
#[cfg(test)]
mod sizes;
#[cfg(test)]
mod text;
#[cfg(test)]
mod write;
