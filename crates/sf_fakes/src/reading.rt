// An open file in memory.
ghost use Rattle.std.specs.Prelude.{◌≡◌, ◌+◌, ◌<◌, ◌^◌, length, drop, min, take};
ghost use Rattle.sf_fakes.specs.Pairs.{pairs_of, contents_at};

use crate::copying::copy_front;

// The file's place in the list, and how many of its bytes were read.
#[derive(Clone, Copy)]
pub(crate) struct Reading {
    pub place: usize,
    pub done: usize,
}

// Copies as many bytes of what is left as it can, up to `most`, and returns how many.
pub(crate) fn read_at(
    files: &[(String, Vec<u8>)],
    place: usize,
    done: usize,
    buf: &mut [u8],
    most: usize,
) -> usize
    requires { place < length files.now }
    ensures count { result ≡
        min (min (length (drop done (contents_at (pairs_of files.now) place))) (length buf.old)) most }
    ensures copied { take result buf.new ≡ take result (drop done (contents_at (pairs_of files.now) place)) }
    ensures fits { done + result < 2 ^ 64 }
{
    let bytes = files[place].1.as_slice();
    copy_front(&bytes[done.min(bytes.len())..], buf, most)
}

// Returns how many bytes the file at a place of the list has.
pub(crate) fn len_at(files: &[(String, Vec<u8>)], place: usize) -> u64
    requires { place < length files.now }
    ensures { result ≡ length (contents_at (pairs_of files.now) place) }
{
    files[place].1.len() as u64
}
