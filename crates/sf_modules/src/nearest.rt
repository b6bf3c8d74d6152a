//! Which entry is a file's.

ghost use Rattle.std.specs.Prelude.{◌≡◌, IfOk, Some, map};
ghost use Rattle.std.specs.List.{find, list_any};
ghost use Rattle.std.specs.Option.{option_map};
ghost use Rattle.elf_mapped.specs.Program.{program_bytes};
ghost use Rattle.sf_modules.specs.Candidates.{candidates};
ghost use Rattle.sf_modules.specs.Entry.{mapping_view};
ghost use Rattle.sf_modules.specs.Fault.{OnlyRefuses, verdict};
ghost use Rattle.sf_modules.specs.Match as spec;
ghost use Rattle.sf_modules.specs.Process.{process_view};
ghost use Rattle.sf_modules.specs.Reading.{nearest_part};

use crate::entry::Entry;
use crate::fault::ModuleFault;
use crate::file::Program;
use crate::fit::fits;
use crate::name::common_tail;
use crate::process::Process;

// Returns the most parts that an entry's name has in common with a word.
fn longest_tail(process: &Process<'_>, word: &[u8]) -> u128
    ensures { result ≡ spec.longest_tail word.now (map mapping_view process.now.entries.now) }
{
    let mut longest = 0;
    for entry in process.candidates(word) {
        longest = common_tail(word, entry.name).max(longest);
    }
    longest
}

/// Returns whether an entry of the note on mapped files has the last part of a word for a file.
pub fn is_mapped_name(process: &Process<'_>, word: &[u8]) -> bool
    ensures { result ≡ spec.is_candidate word.now (process_view process.now).entries }
{
    longest_tail(process, word) > 0
}

// Returns whether an entry's name has `tail` parts in common with a word, and the program fits there.
fn matches(
    process: &Process<'_>,
    word: &[u8],
    tail: u128,
    program: &Program<'_>,
    misfit: &mut u32,
    entry: &Entry<'_>,
) -> bool
    ensures { result ≡ spec.matches (process_view process.now) word.now (program_bytes program.now.elf) program.now.load tail (mapping_view entry.now) }
{
    common_tail(word, entry.name) == tail && fits(process, program, misfit, entry)
}

// Returns the first entry whose name has `tail` parts in common with a word, and at which the program fits.
fn first_match<'p>(
    process: &Process<'p>,
    word: &[u8],
    tail: u128,
    program: &Program<'_>,
) -> Option<&'p Entry<'p>>
    ensures { option_map (λ e. mapping_view e.now) result ≡ find (spec.matches (process_view process.now) word.now (program_bytes program.now.elf) program.now.load tail) (candidates word.now (map mapping_view process.now.entries.now)) }
{
    let mut misfit = program.load;
    for entry in process.candidates(word) {
        if matches(process, word, tail, program, &mut misfit, entry) {
            return Some(entry);
        }
    }
    None
}

// Returns whether the program also fits at an entry that has another name than one that was found, and as many parts of it in
// common with the word.
fn matches_too(
    process: &Process<'_>,
    word: &[u8],
    tail: u128,
    program: &Program<'_>,
    misfit: &mut u32,
    found: &Entry<'_>,
    entry: &Entry<'_>,
) -> bool
    ensures { result ≡ spec.matches_too (process_view process.now) word.now (program_bytes program.now.elf) program.now.load tail (mapping_view found.now) (mapping_view entry.now) }
{
    common_tail(word, entry.name) == tail
        && entry.name != found.name
        && fits(process, program, misfit, entry)
}

// Returns whether the program fits at such an entry of another name.
fn other_matches(
    process: &Process<'_>,
    word: &[u8],
    tail: u128,
    program: &Program<'_>,
    found: &Entry<'_>,
) -> bool
    ensures { result ≡ list_any (spec.matches_too (process_view process.now) word.now (program_bytes program.now.elf) program.now.load tail (mapping_view found.now)) (candidates word.now (map mapping_view process.now.entries.now)) }
{
    let mut misfit = program.load;
    for entry in process.candidates(word) {
        if matches_too(process, word, tail, program, &mut misfit, found, entry) {
            return true;
        }
    }
    false
}

/// Finds the entry of a program for which this word is given.
pub fn entry_of<'p>(
    process: &Process<'p>,
    word: &[u8],
    program: &Program<'_>,
) -> Result<&'p Entry<'p>, ModuleFault>
    ensures check { verdict result ≡ nearest_part (process_view process.now) word.now (program_bytes program.now.elf) program.now.load }
    ensures refusal { OnlyRefuses result }
    ensures value { IfOk result (λ e. spec.matching_entry (process_view process.now) word.now (program_bytes program.now.elf) program.now.load ≡ Some (mapping_view e.now)) }
{
    let tail = longest_tail(process, word);
    if tail == 0 {
        return Err(ModuleFault::NotMapped);
    }
    let Some(entry) = first_match(process, word, tail, program) else {
        return Err(ModuleFault::Mapping);
    };
    if other_matches(process, word, tail, program, entry) {
        return Err(ModuleFault::Ambiguous);
    }
    Ok(entry)
}
