//! The limits of functions and rows.

/// The most functions of one section, and of all inputs of one run, omitted ones included.
pub const MOST_FUNCTIONS: usize = 1 << 21;

/// The most rows of one section, and of all inputs of one run.
pub const MOST_ROWS: usize = 1 << 24;
