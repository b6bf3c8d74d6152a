//! The text of a walk through the files that a process had mapped.

ghost use Rattle.std.specs.Prelude.{◌≡◌, ◌++◌, map, string_bytes, IfOk, OnOk, Some};
ghost use Rattle.std.specs.Option.{option_map};
ghost use Rattle.sf_text.specs.FileFrames as spec;
ghost use Rattle.sf_text.specs.FileFrames.{file_frame_line, file_frame_view, file_text, file_view, signal_text};
ghost use Rattle.sf_text.specs.Frames.{numbered_lines};

use crate::frames::{push_stop, push_thread, push_words};
use crate::pushed_name::push_name;
use crate::shown::Hexadecimal;
use sf_base::NoMemory;
use sf_model::{Frame, Stop};
use std::alloc::{AllocError, Global};
use std::fmt::Write;

/// A file that a process had mapped.
#[derive(Clone, Copy)]
pub struct ShownFile<'n> {
    /// The last part of its name.
    pub name: &'n str,
    /// How far up it was mapped: what is added to an address of the file, modulo 2^64.
    pub base: u64,
}

/// A frame of a walk through these files.
#[derive(Clone, Copy)]
pub struct FileFrame<'n> {
    /// Its program counter and its canonical frame address.
    pub frame: Frame,
    /// The file that has its program counter, if one has.
    pub file: Option<ShownFile<'n>>,
    /// Whether it is a signal frame that was stepped over: the frame after it was interrupted.
    pub is_signal: bool,
}

/// Returns the text of a thread's walk as [`thread_text`](crate::thread_text) does, where the line of a frame also has its
/// file with the address there, and the word `signal` for a signal frame.
#[tactic(auto, unfolding(crate::specs::FileFrames::file_frames_text))]
pub fn file_frames_text(
    alloc: Global,
    number: u32,
    pid: u32,
    frames: &[FileFrame<'_>],
    stop: Stop,
) -> Result<Vec<u8>, NoMemory>
    ensures { IfOk result (λ text. text.items ≡ spec.file_frames_text number pid (map file_frame_view frames.now) stop) }
{
    let mut text = String::new(alloc);
    push_thread(&mut text, number, pid)?;
    push_frames(&mut text, frames)?;
    push_stop(&mut text, stop)?;
    Ok(text.into_bytes())
}

/// Appends the lines of the frames.
fn push_frames(text: &mut String, frames: &[FileFrame<'_>]) -> Result<(), AllocError>
    ensures { OnOk result (string_bytes text.new ≡ string_bytes text.old ++ numbered_lines file_frame_line 0 (map file_frame_view frames.now)) }
{
    for (number, frame) in frames.iter().enumerate() {
        push_frame(text, number, frame)?;
    }
    Ok(())
}

/// Appends a frame's line.
#[tactic(auto, unfolding(crate::specs::FileFrames::file_frame_line))]
fn push_frame(text: &mut String, number: usize, frame: &FileFrame<'_>) -> Result<(), AllocError>
    ensures { OnOk result (string_bytes text.new ≡ string_bytes text.old ++ file_frame_line number (file_frame_view frame.now)) }
{
    push_words(text, number, &frame.frame)?;
    push_file(text, frame.frame.pc, frame.file)?;
    push_signal(text, frame.is_signal)?;
    text.push_str("\n")
}

/// Appends the file that has a program counter and the address there, if one has.
fn push_file(text: &mut String, pc: u64, file: Option<ShownFile<'_>>) -> Result<(), AllocError>
    ensures { OnOk result (string_bytes text.new ≡ string_bytes text.old ++ file_text pc (option_map file_view file.entry)) }
{
    match file {
        Some(found) => push_place(text, pc, &found),
        None => text.push_str(""),
    }
}

/// Appends a file and the address of a program counter there.
fn push_place(text: &mut String, pc: u64, file: &ShownFile<'_>) -> Result<(), AllocError>
    ensures { OnOk result (string_bytes text.new ≡ string_bytes text.old ++ file_text pc (Some (file_view file.now))) }
{
    text.push_str(" ")?;
    push_name(text, file.name)?;
    write!(text, "+{}", Hexadecimal(pc.wrapping_sub(file.base)))
}

/// Appends the word for a signal frame.
fn push_signal(text: &mut String, is_signal: bool) -> Result<(), AllocError>
    ensures { OnOk result (string_bytes text.new ≡ string_bytes text.old ++ signal_text is_signal) }
{
    if is_signal {
        text.push_str(" signal")
    } else {
        text.push_str("")
    }
}
