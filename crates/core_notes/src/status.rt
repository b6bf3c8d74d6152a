//! The content of a thread's notes (Linux core files: NT_PRSTATUS, NT_ARM_PAC_MASK; psABIs for the registers).

ghost use Rattle.std.specs.Prelude.{◌≡◌};
ghost use Rattle.core_notes.specs.Note.{note_view};
ghost use Rattle.core_notes.specs.Thread as spec;

use crate::layout::{
    AARCH64_PC, AARCH64_SP, AARCH64_X29, AARCH64_X30, AMD64_RBP, AMD64_RIP, AMD64_RSP, CORE,
    INSN_MASK, LINUX, NT_ARM_PAC_MASK, NT_FILE, NT_PRSTATUS, PR_PID, PRSTATUS_LEN_AARCH64,
    PRSTATUS_LEN_AMD64,
};
use crate::note::Note;
use elf_read::{u32_at, u64_at};
use sf_model::{Arch, Regs};

/// A thread as it was stopped.
#[derive(Clone, Copy, Debug, PartialEq, Eq)]
pub struct Thread {
    /// Its number in the system.
    pub pid: u32,
    /// Its program counter.
    pub pc: u64,
    /// The registers that a walk of its stack starts with; the link register is 0 on AMD64.
    pub regs: Regs,
    /// The bits of a return address that hold its signature, or `None` without a note of them.
    pub mask: Option<u64>,
}

// Returns whether a note has this name and type.
#[tactic(auto, unfolding(crate::specs::Thread::has_name_and_type))]
fn has_name_and_type(note: &Note<'_>, name: &[u8], kind: u32) -> bool
    ensures { result ≡ spec.has_name_and_type name.now kind (note_view note.now) }
{
    note.kind == kind && note.name == name
}

/// Returns whether a note is the status of a thread.
pub fn is_status(note: &Note<'_>) -> bool
    ensures { result ≡ spec.is_status (note_view note.now) }
{
    has_name_and_type(note, CORE, NT_PRSTATUS)
}

/// Returns whether a note lists the mapped files.
pub fn is_file_note(note: &Note<'_>) -> bool
    ensures { result ≡ spec.is_file_note (note_view note.now) }
{
    has_name_and_type(note, CORE, NT_FILE)
}

/// Returns whether a note has the masks of a thread's addresses.
pub fn is_mask_note(arch: Arch, note: &Note<'_>) -> bool
    ensures { result ≡ spec.is_mask_note arch (note_view note.now) }
{
    arch == Arch::Aarch64 && has_name_and_type(note, LINUX, NT_ARM_PAC_MASK)
}

/// Returns the size of a status.
pub fn status_size(arch: Arch) -> u64
    ensures { result ≡ spec.status_size arch }
{
    match arch {
        Arch::Amd64 => PRSTATUS_LEN_AMD64,
        Arch::Aarch64 => PRSTATUS_LEN_AARCH64,
    }
}

/// Returns the thread of a status, with its mask.
#[tactic(auto, unfolding(crate::specs::Thread::thread_of))]
pub fn thread_of(arch: Arch, status: &[u8], mask: Option<u64>) -> Thread
    ensures { result ≡ spec.thread_of arch status.now mask }
{
    let pid = u32_at(status, PR_PID);
    match arch {
        Arch::Amd64 => Thread {
            pid,
            pc: u64_at(status, AMD64_RIP),
            regs: Regs {
                sp: u64_at(status, AMD64_RSP),
                fp: u64_at(status, AMD64_RBP),
                lr: 0,
            },
            mask,
        },
        Arch::Aarch64 => Thread {
            pid,
            pc: u64_at(status, AARCH64_PC),
            regs: Regs {
                sp: u64_at(status, AARCH64_SP),
                fp: u64_at(status, AARCH64_X29),
                lr: u64_at(status, AARCH64_X30),
            },
            mask,
        },
    }
}

/// Returns the mask of instruction addresses of a mask note.
pub fn mask_of(note: &Note<'_>) -> u64
    ensures { result ≡ spec.mask_in (note_view note.now) }
{
    u64_at(note.descriptor.bytes, INSN_MASK)
}
