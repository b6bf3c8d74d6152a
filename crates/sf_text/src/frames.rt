//! The text of a walk.

ghost use Rattle.std.specs.Prelude.{◌≡◌, ◌++◌, string_bytes, OnOk, IfOk};
ghost use Rattle.sf_text.specs.Frames.{cfa_text, frame_line, frame_lines, frame_words, stop_line, stop_text, thread_line, walk_text};

use crate::shown::Hexadecimal;
use sf_base::NoMemory;
use sf_model::{Frame, Stop, Walk};
use std::alloc::{AllocError, Global};
use std::fmt::Write;

/// Returns the text of a thread's walk: a line for the thread with its number and the system's, a line for each
/// frame, and a line on why the walk stopped.
#[tactic(auto, unfolding(crate::specs::Frames::walk_text))]
pub fn thread_text(alloc: Global, number: u32, pid: u32, walk: &Walk) -> Result<Vec<u8>, NoMemory>
    ensures { IfOk result (λ text. text.items ≡ walk_text number pid walk.now.frames.items walk.now.stop) }
{
    let mut text = String::new(alloc);
    push_thread(&mut text, number, pid)?;
    push_frames(&mut text, walk.frames.as_slice())?;
    push_stop(&mut text, walk.stop)?;
    Ok(text.into_bytes())
}

/// Appends the thread's line.
#[tactic(auto, unfolding(crate::specs::Frames::thread_line))]
pub(crate) fn push_thread(text: &mut String, number: u32, pid: u32) -> Result<(), AllocError>
    ensures { OnOk result (string_bytes text.new ≡ string_bytes text.old ++ thread_line number pid) }
{
    write!(text, "thread {} pid {}\n", number, pid)
}

/// Appends the lines of the frames.
fn push_frames(text: &mut String, frames: &[Frame]) -> Result<(), AllocError>
    ensures { OnOk result (string_bytes text.new ≡ string_bytes text.old ++ frame_lines 0 frames.now) }
{
    for (number, frame) in frames.iter().enumerate() {
        push_frame(text, number, frame)?;
    }
    Ok(())
}

/// Appends a frame's line.
#[tactic(auto, unfolding(crate::specs::Frames::frame_line))]
fn push_frame(text: &mut String, number: usize, frame: &Frame) -> Result<(), AllocError>
    ensures { OnOk result (string_bytes text.new ≡ string_bytes text.old ++ frame_line number frame.now) }
{
    push_words(text, number, frame)?;
    text.push_str("\n")
}

/// Appends a frame's number, its program counter and its canonical frame address.
#[tactic(auto, unfolding(crate::specs::Frames::frame_words))]
pub(crate) fn push_words(text: &mut String, number: usize, frame: &Frame) -> Result<(), AllocError>
    ensures { OnOk result (string_bytes text.new ≡ string_bytes text.old ++ frame_words number frame.now) }
{
    write!(text, "  #{} pc {}", number, Hexadecimal(frame.pc))?;
    push_cfa(text, frame.cfa)
}

/// Appends the canonical frame address, where it is known.
fn push_cfa(text: &mut String, cfa: Option<u64>) -> Result<(), AllocError>
    ensures { OnOk result (string_bytes text.new ≡ string_bytes text.old ++ cfa_text cfa) }
{
    match cfa {
        Some(address) => write!(text, " cfa {}", Hexadecimal(address)),
        None => text.push_str(""),
    }
}

/// Appends the line on why the walk stopped.
#[tactic(auto, unfolding(crate::specs::Frames::stop_line))]
pub(crate) fn push_stop(text: &mut String, stop: Stop) -> Result<(), AllocError>
    ensures { OnOk result (string_bytes text.new ≡ string_bytes text.old ++ stop_line stop) }
{
    text.push_str("  stop ")?;
    push_reason(text, stop)?;
    text.push_str("\n")
}

/// Appends why a walk stopped.
fn push_reason(text: &mut String, stop: Stop) -> Result<(), AllocError>
    ensures { OnOk result (string_bytes text.new ≡ string_bytes text.old ++ stop_text stop) }
{
    match stop {
        Stop::Depth => text.push_str("depth"),
        Stop::Outside(address) => write!(text, "outside {}", Hexadecimal(address)),
        Stop::Unreadable(address) => write!(text, "unreadable {}", Hexadecimal(address)),
        Stop::Signed(address) => write!(text, "signed {}", Hexadecimal(address)),
    }
}
