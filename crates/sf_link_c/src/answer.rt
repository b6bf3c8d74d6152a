//! The answers of the calls, by the names of `kiblawen-link.h`.

/// The call made what it was asked for.
pub const MADE: u32 = 0;

/// The caller's room is too short for the section.
pub const ROOM: u32 = 1;

/// The file is loaded nowhere.
pub const NOT_LOADED: u32 = 1;

/// The section and the inputs differ.
pub const DIFFERS: u32 = 1;

/// A file or a section is refused.
pub const REFUSED: u32 = 2;

/// There are more than 2^21 functions.
pub const FUNCTIONS: u32 = 3;

/// There are more than 2^24 rows.
pub const ROWS: u32 = 4;

/// Memory ran out.
pub const MEMORY: u32 = 5;

/// The caller didn't keep the limits of the arguments, or a section is closed.
pub const UNFIT: u32 = 6;
