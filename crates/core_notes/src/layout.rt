//! The numbers of the format, by the standards' names (ELF64 gABI; Linux core files; psABIs).

/// The type of a segment that is loaded.
pub const PT_LOAD: u32 = 1;
/// The type of a segment of notes.
pub const PT_NOTE: u32 = 4;

/// The number of bytes to a multiple of which fields are padded.
pub const NOTE_ALIGN: u32 = 4;

/// The name of notes of the kernel's core files, with its zero byte.
pub const CORE: &[u8] = b"CORE\0";

/// The name of notes on registers that only some machines have, with its zero byte.
pub const LINUX: &[u8] = b"LINUX\0";

/// The type of a thread's status.
pub const NT_PRSTATUS: u32 = 1;

/// The type of a note with the masks of a thread's addresses.
pub const NT_ARM_PAC_MASK: u32 = 0x406;

/// The type of the note on mapped files.
pub const NT_FILE: u32 = 0x4649_4c45;

/// The size of a mask note's descriptor.
pub const PAC_MASK_LEN: u64 = 16;

/// The place of the mask of instruction addresses in it.
pub const INSN_MASK: u64 = 8;

/// The size of a status for AMD64.
pub const PRSTATUS_LEN_AMD64: u64 = 336;

/// The size of a status for AArch64.
pub const PRSTATUS_LEN_AARCH64: u64 = 392;

/// The place of the thread's number in a status.
pub const PR_PID: u64 = 32;

/// The place of rbp in a status for AMD64.
pub const AMD64_RBP: u64 = 144;

/// The place of rip.
pub const AMD64_RIP: u64 = 240;

/// The place of rsp.
pub const AMD64_RSP: u64 = 264;

/// The place of x29 in a status for AArch64.
pub const AARCH64_X29: u64 = 344;

/// The place of x30.
pub const AARCH64_X30: u64 = 352;

/// The place of sp.
pub const AARCH64_SP: u64 = 360;

/// The place of pc.
pub const AARCH64_PC: u64 = 368;

/// The greatest number of threads.
pub const MAX_THREADS: u32 = 4096;
