//! Which COMDAT groups of ELF files are dropped (ELF64 gABI, "Section Groups"): of several groups with one
//! signature, over all inputs, the first stays.
//!
//! A set of signatures, [`SeenSignatures`], is empty at first. [`SeenSignatures::dropped_groups`] lists the numbers of a file's COMDAT groups
//! whose signature it has, or an earlier group of the file, by rising number, and puts those of the file into the set. So
//! files are asked for in the order of the inputs. A group that is dropped counts as an earlier one of its signature;
//! signatures are compared as bytes. What is a group, and what its signature is, is read by `elf_read`.
//!
//! Which groups are dropped is a definition of its own (`specs/Dropped.antt`, `AreDroppedGroups`): no signatures are
//! collected there. The meaning of the set is the list of the signatures that were seen (`specs/SeenSignatures.antt`, `HasSeen`), and
//! `dropped_groups` returns what that list and the file's bytes come to (`specs/Groups.antt`). A law joins them
//! ([`groups_of_earlier_signatures_are_dropped`]).
//!
//! The caller owes nothing but files that `elf_read` has read, in the order of the inputs. The one error is out of
//! memory; then nothing is known of the set, and it is not used again. A file's bytes are looked at once for the ends of
//! its texts, and each 256 bytes before an end once for their number, whatever names its signatures have in common. A
//! look-up compares at most 256 bytes with those of as many texts as the logarithm of their number.
#![tactic(auto)]

mod file_strings;
mod groups;
mod laws;
mod string_ends;
mod text_numbers;

pub use groups::SeenSignatures;
pub use laws::groups_of_earlier_signatures_are_dropped;
