//! Tables of worked rows as texts. A text costs a proof nothing for a row, and a constant array of rows does.

use std::alloc::Global;
use std::fmt::Debug;
use std::num::ParseIntError;
use std::test::Fail;

/// Returns what a line of a table gives and what it wants, on both sides of `=>`. An empty line has neither, and a line that begins with
/// `#` is a remark.
pub fn row(line: &str) -> Option<(&str, &str)> {
    let line = line.trim();
    if line.is_empty() || line.starts_with('#') {
        return None;
    }
    let (given, wanted) = line.split_once("=>").unwrap_or((line, "a row has `=>`"));
    Some((given.trim(), wanted.trim()))
}

/// Fails unless a value is printed so, and names the case.
pub fn prints<T: Debug>(alloc: Global, case: &str, found: &T, wanted: &str) -> Result<(), Fail> {
    expect(case, format!(in alloc; "{found:?}")?.as_str(), wanted)
}

/// Fails unless a text is this one, and names the case.
pub fn expect(case: &str, found: &str, wanted: &str) -> Result<(), Fail> {
    if found == wanted {
        return Ok(());
    }
    Err(Fail::new(format_args!("{case}: found {found}")))
}

/// Reads a number in decimal, or in hexadecimal after `0x`.
pub fn number(word: &str) -> Result<u64, ParseIntError> {
    match word.strip_prefix("0x") {
        Some(digits) => u64::from_str_radix(digits, 16),
        None => word.parse::<u64>(),
    }
}

/// Appends bytes of two hexadecimal digits each: `00*9` is nine of them.
fn push_bytes(bytes: &mut Vec<u8>, text: &str) -> Result<(), Fail> {
    for word in text.split_whitespace() {
        let (byte, count) = word.split_once('*').unwrap_or((word, "1"));
        for _ in 0..count.parse::<u32>()? {
            bytes.push(u8::from_str_radix(byte, 16)?)?;
        }
    }
    Ok(())
}

/// Returns the bytes of a text, of two hexadecimal digits each: `00*9` is nine of them.
pub fn bytes_of(alloc: Global, text: &str) -> Result<Vec<u8>, Fail> {
    let mut bytes = Vec::new(alloc);
    push_bytes(&mut bytes, text)?;
    Ok(bytes)
}

/// Writes bytes over others: after `@` and a place follow those from there on, of two hexadecimal digits each.
pub fn put(bytes: &mut [u8], edits: &str) -> Result<(), Fail> {
    let mut place = 0;
    for word in edits.split_whitespace() {
        if let Some(digits) = word.strip_prefix('@') {
            place = number(digits)? as usize;
        } else if place < bytes.len() {
            bytes[place] = u8::from_str_radix(word, 16)?;
            place += 1;
        } else {
            return Err("a byte past the end")?;
        }
    }
    Ok(())
}
