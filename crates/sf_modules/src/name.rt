//! The parts of pathnames.

ghost use Rattle.std.specs.Prelude.{◌≡◌, ◌-◌, true, length, slice_get};
ghost use Rattle.std.specs.Option.{option_map_or};
ghost use Rattle.sf_modules.specs.Name as spec;

// Returns whether a part begins after these bytes: there are none, or the last is a slash.
fn ends_part(bytes: &[u8]) -> bool
    ensures { result ≡ option_map_or spec.is_slash (slice_get bytes.now (length bytes.now - 1)) true }
{
    match bytes.last() {
        Some(byte) => *byte == b'/',
        None => true,
    }
}

/// Returns the last part of a name: what is after its last slash.
pub fn last_part(name: &[u8]) -> &[u8]
    ensures { result.now ≡ spec.last_part name.now }
{
    for passed in 0..name.len() {
        let start = name.len() - passed;
        if name[start - 1] == b'/' {
            return &name[start..];
        }
    }
    name
}

/// Returns how many parts two names have in common, from the last on.
pub fn common_tail(name: &[u8], other: &[u8]) -> u128
    ensures { result ≡ spec.common_tail name.now other.now }
{
    let mut parts = 0;
    // The names before the bytes that they have in common.
    let mut rest = name;
    let mut others = other;
    for passed in 0..name.len() {
        let Some((byte, front)) = rest.split_last() else {
            break;
        };
        let Some((other_byte, other_front)) = others.split_last() else {
            break;
        };
        if *byte != *other_byte {
            break;
        }
        if *byte == b'/' {
            parts += 1;
        }
        rest = front;
        others = other_front;
    }
    if ends_part(rest) && ends_part(others) {
        parts += 1;
    }
    parts
}
