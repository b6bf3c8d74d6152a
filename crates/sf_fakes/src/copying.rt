// Parts of the bytes of a file.
ghost use Rattle.std.specs.Prelude.{◌≡◌, length, min, take, drop};

// Copies as many bytes as it can, up to `most`, and returns how many.
pub(crate) fn copy_front(bytes: &[u8], buf: &mut [u8], most: usize) -> usize
    ensures count { result ≡ min (min (length bytes.now) (length buf.old)) most }
    ensures copied { take result buf.new ≡ take result bytes.now }
{
    let n = bytes.len().min(buf.len()).min(most);
    buf[..n].copy_from_slice(&bytes[..n]);
    n
}

// Returns the bytes from a place on.
pub(crate) fn bytes_from(bytes: &[u8], place: u64) -> &[u8]
    ensures { result.now ≡ drop place bytes.now }
{
    match bytes.get(place as usize..) {
        Some(rest) => rest,
        None => &[],
    }
}
