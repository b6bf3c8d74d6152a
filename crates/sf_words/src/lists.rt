//! Lists of words that name files of one kind.

ghost use Rattle.std.specs.Prelude.{◌≡◌, ◌<◌, List, get_or, map, length, IsTrue, All};
ghost use Rattle.std.specs.List.{AllZip};
ghost use Rattle.std.specs.String.{string_bytes};
ghost use Rattle.sf_words.specs.Naming.{FilesNamed};

use crate::file_word::FileWord;

/// Returns whether each word names a file.
pub(crate) fn are_files<'a, F: FileWord<'a>>(words: &'a [String]) -> bool
    ensures all { IsTrue result → All (λ word. (file : F.Said) × F.Says (string_bytes word) file) words.now }
    ensures only { (files : List F.Said) → AllZip F.Says (map string_bytes words.now) files → IsTrue result }
{
    for word in words {
        if F::read(word).is_none() {
            return false;
        }
    }
    true
}

/// Returns the file that the word at a place names.
pub(crate) fn file_at<'a, F: FileWord<'a>>(words: &'a [String], index: usize) -> F
    requires named { FilesNamed F.Says (map string_bytes words.now) }
    requires within { index < length words.now }
    ensures { (named : FilesNamed F.Says (map string_bytes words.now)) (other : F.Said) → F.said result ≡ get_or named.0 index other }
{
    match F::read(&words[index]) {
        Some(file) => file,
        None => unreachable!(),
    }
}

/// Returns whether no word is empty.
pub fn are_named(words: &[String]) -> bool
    ensures all { IsTrue result → All (λ word. 0 < length (string_bytes word)) words.now }
    ensures only { All (λ word. 0 < length (string_bytes word)) words.now → IsTrue result }
{
    for word in words {
        if word.is_empty() {
            return false;
        }
    }
    true
}
