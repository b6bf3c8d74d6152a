//! What no clause says of the crates of core files and walks, `core_notes`, `core_walk`, `core_parts`, `elf_mapped`, `signal_frames` and
//! `process_walk`: values from outside, and one call of each public function that allocates, with ample memory.
#![tactic(auto)]

#[cfg(test)]
mod files;
#[cfg(test)]
mod mapped;
#[cfg(test)]
mod notes;
#[cfg(test)]
mod parts;
#[cfg(test)]
mod signal;
#[cfg(test)]
mod walk;
