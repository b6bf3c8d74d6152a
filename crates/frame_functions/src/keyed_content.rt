//! What is said of the caller's frame at an address.

use sf_model::{Content, Key};

/// What is said of the caller's frame: a content, with the key of its function.
#[derive(Clone, Copy, PartialEq, Eq)]
pub struct KeyedContent {
    /// The content.
    pub content: Content,
    /// The key of the function's signed return addresses.
    pub key: Key,
}
