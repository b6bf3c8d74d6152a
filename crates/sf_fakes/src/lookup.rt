// Finding a file by its name, in a list of names with bytes.
ghost use Rattle.std.specs.Prelude.{◌≡◌, ◌<◌, ◌≤◌, length, IfOk, IfSome, OnOk, OnErr, Some, is_some, position, string_bytes, vec_len};
ghost use Rattle.std.specs.Option.{option_map};
ghost use Rattle.std.specs.Str.{bytes_eq};
ghost use Rattle.sf_base.specs.Contents.{contents_of};
ghost use Rattle.sf_fakes.specs.Pairs.{pairs_of, has_name, place_named, with_file, with_appended, name_at, contents_at};

use sf_base::NoMemory;
use std::alloc::Global;

fn first_named(files: &[(String, Vec<u8>)], name: &str) -> Option<usize>
    ensures { result ≡ position (λ file. bytes_eq (string_bytes file.0) name.now) files.now }
{
    files.iter().position(|file| file.0.as_str() == name)
}

// Returns the place of the first file with this name.
pub(crate) fn find_file(files: &[(String, Vec<u8>)], name: &str) -> Option<usize>
    ensures place { result ≡ place_named (pairs_of files.now) name.now }
    ensures below { IfSome result (λ place. place < length files.now) }
    ensures found { is_some result ≡ has_name (pairs_of files.now) name.now }
    ensures bytes { IfSome result (λ place.
        contents_at (pairs_of files.now) place ≡ contents_of (pairs_of files.now) name.now) }
    ensures name { IfSome result (λ place. name_at (pairs_of files.now) place ≡ name.now) }
{
    first_named(files, name)
}

// Returns the bytes of the first file with this name.
pub(crate) fn find_bytes<'a>(files: &'a [(String, Vec<u8>)], name: &str) -> Option<&'a [u8]>
    ensures found { is_some result ≡ has_name (pairs_of files.now) name.now }
    ensures bytes { IfSome result (λ bytes. bytes.now ≡ contents_of (pairs_of files.now) name.now) }
{
    let place = find_file(files, name)?;
    Some(files[place].1.as_slice())
}

// Returns the bytes of the first file with this name, or no bytes if there is no such file.
pub(crate) fn bytes_of<'a>(files: &'a [(String, Vec<u8>)], name: &str) -> &'a [u8]
    ensures { result.now ≡ contents_of (pairs_of files.now) name.now }
{
    match find_bytes(files, name) {
        Some(bytes) => bytes,
        None => &[],
    }
}

// Returns the name at this place.
pub(crate) fn name_in(files: &[(String, Vec<u8>)], place: usize) -> &str
    requires { place < length files.now }
    ensures { result.now ≡ name_at (pairs_of files.now) place }
{
    files[place].0.as_str()
}

// Copies a name, if there is memory for it.
pub(crate) fn copy_name(alloc: Global, name: &str) -> Option<String>
    ensures { IfSome (option_map string_bytes result) (λ copy. copy ≡ name.now) }
{
    String::from_str(alloc, name).ok()
}

// Gives the first file with this name these bytes, or adds it at the end if there is none. Returns its place.
pub(crate) fn set_file(
    alloc: Global,
    files: &mut Vec<(String, Vec<u8>)>,
    name: &str,
    bytes: Vec<u8>,
) -> Result<usize, NoMemory>
    ensures place { IfOk result (λ place. place < vec_len files.new) }
    ensures name { IfOk result (λ place. name_at (pairs_of files.new.items) place ≡ name.now) }
    ensures ok { OnOk result (
        pairs_of files.new.items ≡ with_file (pairs_of files.old.items) name.now bytes.items) }
    ensures longer { vec_len files.old ≤ vec_len files.new }
    ensures err { OnErr result (pairs_of files.new.items ≡ pairs_of files.old.items) }
{
    if let Some(place) = find_file(files, name) {
        files[place].1 = bytes;
        return Ok(place);
    }
    let name = String::from_str(alloc, name)?;
    files.push((name, bytes))?;
    Ok(files.len() - 1)
}

// Returns the place of the first file with the name of the file at this place.
fn first_like(files: &[(String, Vec<u8>)], place: usize) -> usize
    requires { place < length files.now }
    ensures first { place_named (pairs_of files.now) (name_at (pairs_of files.now) place) ≡ Some result }
    ensures below { result < length files.now }
{
    let name = files[place].0.as_str();
    find_file(files, name).unwrap_or(place)
}

// Appends the bytes to the first file with the name of the file at this place.
fn append_to(files: &mut [(String, Vec<u8>)], place: usize, piece: &[u8]) -> Result<(), NoMemory>
    requires { place < length files.old }
    ensures ok { OnOk result (pairs_of files.new ≡ with_appended (pairs_of files.old) place piece.now) }
    ensures err { OnErr result (pairs_of files.new ≡ pairs_of files.old) }
{
    let first = first_like(files, place);
    files[first].1.extend_from_slice(piece)?;
    Ok(())
}

// Appends the bytes to the first file of a vector with the name of the file at this place. Each name stays at
// its place.
pub(crate) fn append_file(
    files: &mut Vec<(String, Vec<u8>)>,
    place: usize,
    piece: &[u8],
) -> Result<(), NoMemory>
    requires { place < vec_len files.old }
    ensures ok { OnOk result (pairs_of files.new.items ≡ with_appended (pairs_of files.old.items) place piece.now) }
    ensures err { OnErr result (pairs_of files.new.items ≡ pairs_of files.old.items) }
    ensures len { vec_len files.new ≡ vec_len files.old }
{
    append_to(files, place, piece)
}
