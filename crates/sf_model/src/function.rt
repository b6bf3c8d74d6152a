//! Functions of a section (SFrame Version 2, function descriptor entries).

use crate::machine::Key;
use crate::rows::Rows;

/// How a function's rows are looked up.
#[derive(Clone, Copy, Debug, PartialEq, Eq)]
pub enum Shape {
    /// By the offset from the function's start.
    Plain,
    /// By that offset modulo this many bytes, which is not 0.
    Repeat(u8),
}

/// A function without its rows.
#[derive(Clone, Copy, Debug, PartialEq, Eq)]
pub struct FuncHead {
    /// Its first address.
    pub start: u64,
    /// Its size in bytes.
    pub size: u32,
    /// How its rows are looked up.
    pub shape: Shape,
    /// The key of its signed return addresses.
    pub key: Key,
    /// The number of its rows.
    pub rows: u32,
}

/// A function with its rows.
#[derive(Drop)]
pub struct Func {
    /// Its first address.
    pub start: u64,
    /// Its size in bytes.
    pub size: u32,
    /// How its rows are looked up.
    pub shape: Shape,
    /// The key of its signed return addresses.
    pub key: Key,
    /// Its rows, by rising start.
    pub rows: Rows,
}
