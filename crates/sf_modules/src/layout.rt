//! The numbers of the formats, by the standards' names (ELF64 gABI; Linux core files, NT_FILE).

/// The type of a segment that is loaded.
pub const PT_LOAD: u32 = 1;

/// The type of a note with a build identifier.
pub const NT_GNU_BUILD_ID: u32 = 3;

/// The name of a note with a build identifier, with its zero byte.
pub const GNU: &[u8] = b"GNU\0";

/// The text that Linux adds to the name of a mapped file that was deleted.
pub const DELETED: &[u8] = b" (deleted)";

/// The number of bytes before the entries of the note on mapped files.
pub const FILE_NOTE_HEADER_LEN: u64 = 16;

/// The number of bytes of an entry.
pub const FILE_ENTRY_LEN: u64 = 24;

/// The place of the number of entries.
pub const FILE_COUNT: u64 = 0;

/// The place of the page size.
pub const FILE_PAGE_SIZE: u64 = 8;

/// The place of an entry's start, from the beginning of the entry on.
pub const FILE_START: u64 = 0;

/// The place of its end.
pub const FILE_END: u64 = 8;

/// The place of its offset in the file.
pub const FILE_OFFSET: u64 = 16;
