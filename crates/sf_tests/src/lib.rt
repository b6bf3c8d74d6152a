//! What no clause says of linking and of whole runs: values from outside, and one call of each public function that
//! allocates, with ample memory. The crates below `sf_asm` have their tests in
//! `base_tests`, `elf_dwarf_tests`, `sframe_tests` and `core_tests`.
#![tactic(auto)]

#[cfg(test)]
mod assembling;
#[cfg(test)]
mod linking;
#[cfg(test)]
mod modules;
#[cfg(test)]
mod running;
#[cfg(test)]
mod shown;
#[cfg(test)]
mod tables;
