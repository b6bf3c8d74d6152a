//! Sections of several inputs, and why there is none. Numbers and bytes were found apart from this crate.

ghost use Rattle.std.specs.Prelude.{◌<◌, ◌^◌, IfOk, length};
ghost use Rattle.sf_asm.specs.Functions.{object_of};

mod cases;

use crate::shown::hex_of;
use base_tests::tables::{expect, number, row};
use cases::{AFTER_AARCH64, AFTER_AMD64, GROUPS, PAIRS, sample_of};
use elf_dwarf_tests::samples::file_of;
use sf_asm::{Gathered, Input, InputBytes, LinkFault, Linked, gather};
use sf_link::link;
use sf_model::{Arch, Form};
use std::alloc::Global;
use std::test::*;

/// An input that a table gives.
#[derive(Drop)]
struct Given {
    form: Form,
    bytes: Vec<u8>,
    base: u64,
}

/// Reads an input: the name of its bytes, its base, and what is written into them.
fn given_of(alloc: Global, text: &str) -> Result<Given, Fail>
    ensures { IfOk result (λ given. length given.bytes.items < 2 ^ 32) }
{
    let text = text.trim();
    let (word, edits) = text.split_once(' ').unwrap_or((text, ""));
    let (name, base) = word.split_once('@').ok_or("a base")?;
    let (form, bytes) = sample_of(name);
    Ok(Given {
        form,
        bytes: file_of(alloc, bytes, edits)?,
        base: number(base)?,
    })
}

/// Returns an input to link.
fn input_of(given: &Given) -> Input<'_>
    requires { length given.now.bytes.items < 2 ^ 32 }
    ensures { length (object_of result).bytes < 2 ^ 32 }
{
    Input {
        bytes: InputBytes::whole(given.form, &given.bytes),
        base: given.base,
    }
}

/// Returns a section in hexadecimal, or the fault.
fn shown(alloc: Global, linked: &Result<Linked, LinkFault>) -> Result<String, Fail> {
    match linked {
        Ok(linked) => hex_of(alloc, &linked.section),
        Err(fault) => Ok(format!(in alloc; "{fault:?}")?),
    }
}

/// Fails unless linking the two inputs of each row into a section at this address gives the section or the fault that the table wants. What
/// comes before them is for this machine.
fn expect_pairs(alloc: Global, at: u64, before: Option<Arch>, table: &str) -> Result<(), Fail> {
    for line in table.lines() {
        if let Some((given, wanted)) = row(line) {
            let (first, second) = given.split_once(';').ok_or("two inputs")?;
            let first = given_of(alloc, first)?;
            let second = given_of(alloc, second)?;
            let inputs = [input_of(&first), input_of(&second)];
            let linked = link(alloc, &inputs, at, before);
            expect(given, shown(alloc, &linked)?.as_str(), wanted)?;
        }
    }
    Ok(())
}

#[test]
fn two_inputs_are_linked_or_refused(rt: HostRuntime) -> Result<(), Fail> {
    let alloc = rt.alloc();
    expect_pairs(alloc, 0x3000, None, PAIRS)?;
    expect_pairs(alloc, 0x3000, Some(Arch::Amd64), AFTER_AMD64)?;
    expect_pairs(alloc, 0x3000, Some(Arch::Aarch64), AFTER_AARCH64)?;
    expect_pairs(alloc, 0x600000, None, GROUPS)
}

/// The starts of the kept functions, list by list, of the omitted ones, and of all.
fn starts_of(alloc: Global, gathered: &Gathered) -> Result<String, Fail> {
    let mut text = String::new(alloc);
    for list in gathered.kept.as_slice() {
        text.push_str("kept")?;
        for func in list.as_slice() {
            text.push_str(&format!(in alloc; " {:x}", func.start)?)?;
        }
        text.push('\n')?;
    }
    text.push_str("omitted")?;
    for omitted in gathered.omitted.as_slice() {
        text.push_str(&format!(in alloc; " {:x} of {}", omitted.start, omitted.origin.item)?)?;
    }
    text.push_str("\nall")?;
    for span in gathered.spans.as_slice() {
        text.push_str(&format!(in alloc; " {:x} of {}", span.start, span.origin.item)?)?;
    }
    Ok(text)
}

#[test]
fn functions_are_handed_out_by_inputs(rt: HostRuntime) -> Result<(), Fail> {
    let alloc = rt.alloc();
    let high = given_of(alloc, "pushes@0x2020")?;
    let omitted = given_of(alloc, "outermost@0x2010")?;
    let low = given_of(alloc, "pushes@0x2000")?;
    let inputs = [input_of(&high), input_of(&omitted), input_of(&low)];
    let gathered = gather(alloc, &inputs, Some(Arch::Amd64))?;
    let expected =
        "kept 1020\nkept\nkept 1000\nomitted 1010 of 2\nall 1000 of 3 1010 of 2 1020 of 1";
    expect("starts", starts_of(alloc, &gathered)?.as_str(), expected)
}
