//! The words of a command line, and the files that they name.
//!
//! [`input_file`] and [`section_file`] read a word that names a file. [`NamedInputs`] and [`NamedSections`] are lists of
//! such words, each read when it is asked for, so that nothing is allocated before the files of a command are counted.
//! Forms that commands share, such as [`section_and_inputs`], are in `forms.rt`. [`CommandFiles`] says which files a
//! command makes and reads, and [`load_all`] loads them in order, each [`Item`] within the limits of its kind. An ELF file
//! that is linked or was mapped is read by the parts that are needed, and a core file as far as the run wants it:
//! [`load_cores_again`] loads the core files alone once more, where a run wants more of them. [`Refusal`] is why a run makes
//! nothing. Words are defined in specs/Words.antt, the limits in specs/Loading.antt.
#![tactic(auto)]

mod file_word;
mod files;
mod forms;
mod item;
mod item_read;
mod lists;
mod loaded;
mod loading;
mod loading_again;
mod named;
mod refusal;
mod words;

pub use files::{CommandFiles, FileList};
pub use forms::{
    MOST_FRAMES, SectionAndInputs, four_and_items, four_words, number_up_to, out_and_items,
    section_and_inputs, three_and_items, three_words, two_words,
};
pub use item::Item;
pub use item_read::ItemRead;
pub use lists::are_named;
pub use loaded::Loaded;
pub use loading::load_all;
pub use loading_again::load_cores_again;
pub use named::{NamedInputs, NamedSections};
pub use refusal::{Limit, Refusal};
pub use words::{InputFile, SectionFile, input_file, section_file};
