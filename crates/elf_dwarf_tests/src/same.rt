//! Comparisons of what was found with what is wanted.

use std::fmt::Debug;
use std::process::Abort;

/// Asserts that both are equal.
pub fn same<T: PartialEq + Debug>(rt: &impl Abort, found: &T, wanted: &T) {
    assert_eq!(rt; *found, *wanted);
}
