//! All checks of an executable or a shared object, by parts of it.

ghost use Rattle.std.specs.Prelude.{◌≡◌, ◌==◌, ◌<◌, ◌≤◌, ◌+◌, ◌*◌, ◌^◌, ℕ, true, false, Ok, length, IsTrue, IfSome};
ghost use Rattle.std.specs.Cmp.Lexicographic.{pointwise};
ghost use Rattle.elf_read.specs.Checking.{each_below};
ghost use Rattle.elf_read.specs.Checks as checks;
ghost use Rattle.elf_read.specs.Linked.{AreLinkedParts, IsLinkedHead, IsOnlyEhFrame, HasLinkedParts, linked_file, whole_of};
ghost use Rattle.elf_read.specs.Number.{EndsTexts};
ghost use Rattle.elf_read.specs.Parsing.{file_check};
ghost use Rattle.elf_read.specs.Sections as spec;
ghost use Rattle.sf_bytes.specs.Parts.{IsPart};

use crate::header::{e_shentsize, e_shnum, e_shoff, e_shstrndx, is_core_file, is_object};
use crate::headers::Headers;
use crate::identity::{check_identity, check_purpose};
use crate::layout::{EH_FRAME, FILE_HEADER_LEN, SECTION_HEADER_LEN, SHN_XINDEX, SHT_STRTAB};
use crate::linked_elf::LinkedElf;
use crate::linked_parts::{LinkedParts, bytes_if_at};
use crate::number::lies;
use crate::text::{text_is, texts_end};
use boxcar::tag::Tag;
use sf_bytes::FilePart;

// Returns whether a file header is that of an executable or a shared object that has sections with names.
fn is_linked_head(header: &[u8]) -> bool
    ensures { IsTrue result → IsLinkedHead header.now }
{
    if let Err(_) = check_identity(header) {
        return false;
    }
    if let Err(_) = check_purpose(header) {
        return false;
    }
    if is_object(header) || is_core_file(header) {
        return false;
    }
    if u64::from(e_shentsize(header)) != SECTION_HEADER_LEN {
        return false;
    }
    if e_shoff(header) == 0 || e_shnum(header) == 0 {
        return false;
    }
    if e_shstrndx(header) == SHN_XINDEX || e_shstrndx(header) == 0 {
        return false;
    }
    true
}

// Returns the headers of such a file, if these parts are its headers.
fn headers_of<'a>(
    len: u64,
    whole: &'a Tag,
    header: &'a FilePart,
    sections: &'a FilePart,
) -> Option<Headers<'a>>
    requires len { len ≡ length whole.now.numbers }
    requires small { length whole.now.numbers < 2 ^ 32 }
    requires header { IsPart whole.now.numbers header.now }
    requires sections { IsPart whole.now.numbers sections.now }
    ensures file { IfSome result (λ headers. whole_of headers ≡ whole.now.numbers) }
    ensures head { IfSome result (λ headers. IsLinkedHead (whole_of headers)) }
    ensures header { IfSome result (λ headers. headers.header.now ≡ header.now.bytes.items) }
    ensures sections { IfSome result (λ headers. headers.sections.now ≡ sections.now.bytes.items) }
    ensures headers { IfSome result (λ headers. length headers.sections.now ≡ 64 * headers.count) }
{
    let header = bytes_if_at(header, 0, FILE_HEADER_LEN)?;
    if !is_linked_head(header) {
        return None;
    }
    let count = u32::from(e_shnum(header));
    let sections = bytes_if_at(
        sections,
        e_shoff(header),
        SECTION_HEADER_LEN * u64::from(count),
    )?;
    Some(Headers {
        len,
        whole,
        header,
        sections,
        count,
    })
}

// Returns whether a section's bytes lie in the file.
#[tactic(auto, unfolding(crate::specs::Checks::bytes_check, crate::specs::Sections::has_bytes))]
fn bytes_lie(headers: &Headers<'_>, i: u32) -> bool
    requires { i < headers.now.count }
    ensures { IsTrue result → checks.bytes_check (whole_of headers.now) i ≡ Ok tt }
{
    let header = headers.section(i);
    !header.is_in_file() || lies(headers.len, header.offset(), header.size(), 1)
}

// Returns whether the bytes of each section lie in the file.
fn all_bytes_lie(headers: &Headers<'_>) -> bool
    ensures { IsTrue result → each_below headers.now.count (checks.bytes_check (whole_of headers.now)) ≡ Ok tt }
{
    for i in 0..headers.count {
        if !bytes_lie(headers, i) {
            return false;
        }
    }
    true
}

// Returns a part's bytes, if these are a section's. A section without bytes in the file has no such part.
fn section_bytes<'a>(headers: &Headers<'_>, part: &'a FilePart, i: u32) -> Option<&'a [u8]>
    requires index { i < headers.now.count }
    requires part { IsPart (whole_of headers.now) part.now }
    ensures part { IfSome result (λ bytes. bytes.now ≡ part.now.bytes.items) }
    ensures bytes { IfSome result (λ bytes. bytes.now ≡ spec.section_bytes (whole_of headers.now) i) }
{
    let header = headers.section(i);
    if !header.is_in_file() {
        return None;
    }
    bytes_if_at(part, header.offset(), header.size())
}

// Returns the name table's bytes, if it is a string table and the part has its bytes.
#[tactic(auto, unfolding(crate::specs::Checks::is_string_table))]
fn names_of<'a>(headers: &Headers<'_>, names: &'a FilePart) -> Option<&'a [u8]>
    requires head { IsLinkedHead (whole_of headers.now) }
    requires part { IsPart (whole_of headers.now) names.now }
    ensures bytes { IfSome result (λ names. names.now ≡ spec.section_bytes (whole_of headers.now) (spec.name_table (whole_of headers.now))) }
    ensures kind { IfSome result (λ names. checks.is_string_table (whole_of headers.now) (spec.name_table (whole_of headers.now)) ≡ true) }
{
    let table = u32::from(e_shstrndx(headers.header));
    if table >= headers.count || headers.section(table).kind() != SHT_STRTAB {
        return None;
    }
    section_bytes(headers, names, table)
}

// Returns whether a section's name is in the name table, whose texts end there.
#[tactic(auto, unfolding(crate::specs::Checks::name_check))]
fn name_stands(headers: &Headers<'_>, end: u64, i: u32) -> bool
    requires index { i < headers.now.count }
    requires end { EndsTexts (spec.section_bytes (whole_of headers.now) (spec.name_table (whole_of headers.now))) end }
    ensures { IsTrue result → checks.name_check (whole_of headers.now) i ≡ Ok tt }
{
    u64::from(headers.section(i).name()) < end
}

// Returns whether the name of each section is in the name table.
fn all_names_stand(headers: &Headers<'_>, names: &[u8]) -> bool
    requires { names.now ≡ spec.section_bytes (whole_of headers.now) (spec.name_table (whole_of headers.now)) }
    ensures { IsTrue result → each_below headers.now.count (checks.name_check (whole_of headers.now)) ≡ Ok tt }
{
    let end = texts_end(names);
    for i in 0..headers.count {
        if !name_stands(headers, end, i) {
            return false;
        }
    }
    true
}

// Returns whether a section has this name.
fn is_named(headers: &Headers<'_>, names: &[u8], i: u32, name: &[u8]) -> bool
    requires index { i < headers.now.count }
    requires names { names.now ≡ spec.section_bytes (whole_of headers.now) (spec.name_table (whole_of headers.now)) }
    requires head { IsLinkedHead (whole_of headers.now) }
    requires short { length name.now < 2 ^ 32 }
    ensures { result ≡ pointwise (λ (a b : ℕ). a == b) (spec.section_name (whole_of headers.now) i) name.now }
{
    text_is(names, u64::from(headers.section(i).name()), name)
}

// Returns whether a section holds call frame information that is loaded.
#[tactic(auto, unfolding(crate::specs::Sections::is_eh_frame, crate::specs::Sections::is_allocated))]
fn is_eh_frame(headers: &Headers<'_>, names: &[u8], i: u32) -> bool
    requires index { i < headers.now.count }
    requires names { names.now ≡ spec.section_bytes (whole_of headers.now) (spec.name_table (whole_of headers.now)) }
    requires head { IsLinkedHead (whole_of headers.now) }
    ensures { result ≡ spec.is_eh_frame (whole_of headers.now) i }
{
    headers.section(i).is_allocated() && is_named(headers, names, i, EH_FRAME)
}

// Returns the first section with call frame information.
fn first_eh_frame(headers: &Headers<'_>, names: &[u8]) -> Option<u32>
    requires names { names.now ≡ spec.section_bytes (whole_of headers.now) (spec.name_table (whole_of headers.now)) }
    requires head { IsLinkedHead (whole_of headers.now) }
    ensures within { IfSome result (λ first. first < headers.now.count) }
    ensures is { IfSome result (λ first. spec.is_eh_frame (whole_of headers.now) first ≡ true) }
    ensures before { IfSome result (λ first. (k : ℕ) → k < first → spec.is_eh_frame (whole_of headers.now) k ≡ false) }
{
    for i in 0..headers.count {
        if is_eh_frame(headers, names, i) {
            return Some(i);
        }
    }
    None
}

// Returns whether no section after this one has call frame information.
fn is_last_eh_frame(headers: &Headers<'_>, names: &[u8], first: u32) -> bool
    requires names { names.now ≡ spec.section_bytes (whole_of headers.now) (spec.name_table (whole_of headers.now)) }
    requires head { IsLinkedHead (whole_of headers.now) }
    requires within { first < headers.now.count }
    ensures { IsTrue result → (k : ℕ) → first < k → k < headers.now.count → spec.is_eh_frame (whole_of headers.now) k ≡ false }
{
    let count = headers.count;
    for i in first + 1..count {
        if is_eh_frame(headers, names, i) {
            return false;
        }
    }
    true
}

// Returns the one section with call frame information.
fn only_eh_frame(headers: &Headers<'_>, names: &[u8]) -> Option<u32>
    requires names { names.now ≡ spec.section_bytes (whole_of headers.now) (spec.name_table (whole_of headers.now)) }
    requires head { IsLinkedHead (whole_of headers.now) }
    ensures { IfSome result (λ only. IsOnlyEhFrame (whole_of headers.now) only) }
{
    let first = first_eh_frame(headers, names)?;
    if !is_last_eh_frame(headers, names, first) {
        return None;
    }
    Some(first)
}

// What is found of a file that passes every check.
#[derive(Clone, Copy)]
struct Found {
    count: u32,
    eh_frame: u32,
}

// Returns how many sections a file has and which has call frame information, if the file passes every check by these parts.
fn found_by_parts(len: u64, whole: &Tag, parts: &LinkedParts) -> Option<Found>
    requires len { len ≡ length whole.now.numbers }
    requires small { length whole.now.numbers < 2 ^ 32 }
    requires parts { AreLinkedParts whole.now.numbers parts.now }
    ensures { IfSome result (λ found. HasLinkedParts whole.now.numbers parts.now found.count found.eh_frame) }
{
    let headers = headers_of(len, whole, &parts.header, &parts.sections)?;
    if !all_bytes_lie(&headers) {
        return None;
    }
    let names = names_of(&headers, &parts.names)?;
    if !all_names_stand(&headers, names) {
        return None;
    }
    let eh_frame = only_eh_frame(&headers, names)?;
    if headers.section(eh_frame).is_compressed() {
        return None;
    }
    let _ = section_bytes(&headers, &parts.eh_frame, eh_frame)?;
    Some(Found {
        count: headers.count,
        eh_frame,
    })
}

/// Returns an executable or a shared object of `len` bytes by parts of it, if these are enough for every check of the
/// whole file, and it passes them all. It has to have exactly one section with call frame information, with bytes in the
/// file. Nothing is said of any other file: [`Elf::parse`](crate::Elf::parse) of its bytes gives its fault, or says that
/// it has none. Clauses see all its bytes in `whole`.
pub fn linked_of(len: u64, whole: Tag, parts: LinkedParts) -> Option<LinkedElf>
    requires len { len ≡ length whole.numbers }
    requires small { length whole.numbers < 2 ^ 32 }
    requires parts { AreLinkedParts whole.numbers parts }
    ensures file { IfSome result (λ elf. linked_file elf ≡ whole.numbers) }
    ensures checked { IfSome result (λ elf. file_check (linked_file elf) ≡ Ok tt) }
    ensures head { IfSome result (λ elf. IsLinkedHead (linked_file elf)) }
    ensures only { IfSome result (λ elf. IsOnlyEhFrame (linked_file elf) elf.eh_frame) }
{
    let found = found_by_parts(len, &whole, &parts)?;
    let LinkedParts {
        header,
        sections,
        names: _,
        eh_frame,
    } = parts;
    Some(LinkedElf {
        whole,
        len,
        header: header.bytes,
        sections: sections.bytes,
        count: found.count,
        eh_frame: found.eh_frame,
        eh_frame_bytes: eh_frame.bytes,
    })
}
