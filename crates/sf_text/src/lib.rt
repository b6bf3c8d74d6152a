//! The texts that a program of this repository prints: the reports of links, the counts of a merge or an upgrade, what
//! slimming saves, the content of a section, what a look-up finds, a verdict, what a walk lists, with the files
//! of a process or without, the summary of a made object's link, the line of a fault, the line of an item that is
//! too long, the lines of files that are passed, and the names of files.
//!
//! Each text is a definition in `specs/`, and the calls return it byte for byte: [`report`] is `report_text`,
//! [`report_plt`] is `plt_report_text`, [`merged`] is `merged_text`, [`slim_line`] is `slim_text`, [`upgraded`] is
//! `upgraded_text`, [`found`] is `found_text`, [`verdict`] is `verdict_text`, [`thread_text`] is `walk_text`, [`file_frames_text`] is
//! `file_frames_text`, [`passed_lines`] is `passed_lines`, [`summary`] is `summary_text`.
//! [`put_output`] appends such a text, or `dump_text` of the table that a view shows, to a sink, and
//! [`fault_line`], [`file_limit_line`] and [`put_name`] append `fault_text`, `file_limit_text` and `shown_name`.
//! The caller owes a notice that has a line to `fault_line`, and nothing to the others.
//!
//! What appends to a sink allocates nothing: the content of a section goes there in pieces, and is never held
//! whole. [`dump`] returns it as one text.
//! The others build their text in one growing buffer, in the time of its length; they fail only out of memory.
#![tactic(auto)]

mod buffer;
mod content;
mod digits;
mod file_frames;
mod file_limit;
mod found_row;
mod frames;
mod gen_summary;
mod link_report;
mod list_forms;
mod merge_text;
mod names;
mod number;
mod output;
mod passed;
mod plt_report;
mod pushed_name;
mod refusal;
mod section_dump;
mod shown;
mod shown_name;
mod slim_text;
mod upgrade_text;
mod verdict_text;

pub use file_frames::{FileFrame, ShownFile, file_frames_text};
pub use file_limit::file_limit_line;
pub use found_row::found;
pub use frames::thread_text;
pub use gen_summary::summary;
pub use link_report::report;
pub use list_forms::dump;
pub use merge_text::merged;
pub use output::{Output, put_output};
pub use passed::{PassedFile, passed_lines};
pub use plt_report::report_plt;
pub use refusal::fault_line;
pub use shown_name::put_name;
pub use slim_text::slim_line;
pub use upgrade_text::upgraded;
pub use verdict_text::verdict;
