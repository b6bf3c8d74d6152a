//! What no clause says of the crates of ELF files and call frame information, from `elf_read` to `cfa_machine`, and of the
//! objects that `sf_gen` makes: values from outside, and one call of each public function that allocates, with ample memory.
#![tactic(auto)]

#[cfg(test)]
mod elf;
#[cfg(test)]
mod generated;
#[cfg(test)]
mod groups;
#[cfg(test)]
mod insn;
#[cfg(test)]
mod machine;
#[cfg(test)]
mod parts;
#[cfg(test)]
mod placing;
#[cfg(test)]
mod pointer;
#[cfg(test)]
mod records;
#[cfg(test)]
mod relocating;
#[cfg(test)]
mod same;
pub mod samples;
