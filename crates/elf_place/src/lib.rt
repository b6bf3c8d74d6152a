//! Where the sections of an ELF file lie (ELF64 gABI, "Sections" and "Section Groups").
//!
//! [`Placed::new`] gives each section that is loaded its address: an object's sections follow one another
//! from a base on, those of another file lie at their own addresses, moved by the base. Members of groups
//! that the caller names are dropped and have no address.
//!
//! [`Placed::relocation_sections`] finds the sections with relocations of a section by halves.
//!
//! The meaning of a placed file is the list of its sections' addresses (`specs/Place.antt`) and of what is
//! dropped (`specs/Dropped.antt`), as functions of the file's bytes; which sections have relocations of which
//! is in `specs/Relocations.antt`. Only `Placed::new` allocates. Time grows with the groups' members, and
//! with the sections times the logarithm of their number.
#![tactic(auto)]

mod addresses;
mod checks;
mod dropped;
mod eh_frames;
mod fault;
mod placed;
mod relocations;

pub use fault::PlaceFault;
pub use placed::Placed;
pub use relocations::RelocationSection;
