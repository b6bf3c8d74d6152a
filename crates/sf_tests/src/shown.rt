//! Bytes as a text, which a table wants.

use std::alloc::Global;
use std::test::Fail;

/// Returns bytes as two hexadecimal digits each.
pub fn hex_of(alloc: Global, bytes: &[u8]) -> Result<String, Fail> {
    let mut text = String::new(alloc);
    for byte in bytes {
        if !text.is_empty() {
            text.push(' ')?;
        }
        text.push_str(&format!(in alloc; "{byte:02x}")?)?;
    }
    Ok(text)
}
