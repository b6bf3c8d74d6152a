//! Printed texts that no run of the program shows, and the forms that only a caller in Rust asks for.

use crate::same::same;
use crate::samples::SIGNING;
use sf_decode::View;
use sf_fakes::MemSink;
use sf_model::{Frame, Omission, Omitted, Origin, Reason, Span, Stop};
use sf_text::{FileFrame, ShownFile, dump, file_frames_text, put_name, report, report_plt};
use std::test::Fail;

/// A name, and how it is shown.
const NAMES: [(&str, &str); 5] = [
    ("a.o", "a.o"),
    ("\u{1b}]0;x\u{7}", "\\x1b]0;x\\x07"),
    ("a\nb\u{7f}", "a\\x0ab\\x7f"),
    ("\u{80}a\u{9b}", "\\xc2\\x80a\\xc2\\x9b"),
    ("\\x1b \u{a0}é中😀", "\\x1b \u{a0}é中😀"),
];

#[test]
fn a_name_is_shown_without_control_characters(rt: HostRuntime) -> Result<(), Fail> {
    for (name, shown) in &NAMES {
        let mut sink = MemSink::new(rt.alloc(), 7, Vec::new(rt.alloc()));
        put_name(&mut sink, name)?;
        same(&rt, &sink.bytes(), &shown.as_bytes());
    }
    Ok(())
}

/// Returns where the first input has a function or a table.
fn origin(place: u32) -> Origin {
    Origin {
        item: 0,
        section: 0,
        place,
    }
}

/// Returns an omitted function at 0x1000.
fn omitted(size: u64, reason: Reason, offset: Option<u32>) -> Omitted {
    Omitted {
        start: 0x1000,
        size,
        origin: origin(0x18),
        omission: Omission { reason, offset },
    }
}

#[test]
fn a_report_has_a_line_for_each_omitted_function_and_the_counts(
    rt: HostRuntime,
) -> Result<(), Fail> {
    let functions = [
        omitted(6, Reason::RaRule, Some(0)),
        omitted(4294967296, Reason::SizeTooLarge, None),
    ];
    let text = report(rt.alloc(), 3, &functions)?;
    let expected = b"omit 0x1000 size 6 input 0 section 0 fde 0x18 RaRule at 0\n\
omit 0x1000 size 4294967296 input 0 section 0 fde 0x18 SizeTooLarge\n\
kept 3 omitted 2\n";
    same(&rt, &text.as_slice(), &expected.as_slice());
    Ok(())
}

/// Returns a procedure linkage table of the first input.
fn table(start: u64, size: u64, place: u32) -> Span {
    Span {
        start,
        size,
        origin: origin(place),
    }
}

#[test]
fn a_table_has_its_line_between_those_of_omitted_functions(rt: HostRuntime) -> Result<(), Fail> {
    let functions = [
        omitted(6, Reason::RaRule, Some(0)),
        omitted(48, Reason::CfaExpression, Some(16)),
    ];
    let plts = [table(4080, 32, 96), table(4096, 48, 25)];
    let text = report_plt(rt.alloc(), 3, &functions, &plts)?;
    let expected = b"plt 0xff0 size 32 input 0 section 0 fde 0x60\n\
omit 0x1000 size 6 input 0 section 0 fde 0x18 RaRule at 0\n\
omit 0x1000 size 48 input 0 section 0 fde 0x18 CfaExpression at 16\n\
plt 0x1000 size 48 input 0 section 0 fde 0x19\n\
kept 3 omitted 2 plt 2\n";
    same(&rt, &text.as_slice(), &expected.as_slice());
    Ok(())
}

#[test]
fn the_content_of_a_section_as_one_text(rt: HostRuntime) -> Result<(), Fail> {
    let view = View::parse(&SIGNING, 0x3000).ok().ok_or("a section")?;
    let text = dump(rt.alloc(), &view)?;
    let expected = b"sframe 2 aarch64 flags 0x5 functions 1 rows 5
func 0x1000 size 28 plain key b rows 5
  +0 cfa=sp+0
  +4 cfa=sp+0 signed
  +8 cfa=sp+32 ra=c-24 fp=c-32 signed
  +20 cfa=sp+0 signed
  +24 cfa=sp+0
";
    same(&rt, &text.as_slice(), &expected.as_slice());
    Ok(())
}

/// Returns a frame of a walk through the files of a process.
fn frame<'n>(pc: u64, cfa: u64, file: Option<ShownFile<'n>>, is_signal: bool) -> FileFrame<'n> {
    let cfa = Some(cfa);
    FileFrame {
        frame: Frame { pc, cfa },
        file,
        is_signal,
    }
}

#[test]
fn a_frame_has_its_file_with_the_address_there(rt: HostRuntime) -> Result<(), Fail> {
    let libc = ShownFile {
        name: "libc.so.6",
        base: 0x7f01c0dbb000,
    };
    let program = ShownFile {
        name: "a\nb",
        base: 0,
    };
    let frames = [
        frame(0x7f01c0de2a94, 0x7ffd0c11e5f0, Some(libc), false),
        frame(0x7f01c0dbb000, 0x7ffd0c11e5f8, Some(libc), true),
        frame(0x401136, 0x7ffd0c11e600, Some(program), false),
        frame(0x10, 0x7ffd0c11e610, None, false),
    ];
    let text = file_frames_text(rt.alloc(), 1, 4711, &frames, Stop::Depth)?;
    let expected = b"thread 1 pid 4711
  #0 pc 0x7f01c0de2a94 cfa 0x7ffd0c11e5f0 libc.so.6+0x27a94
  #1 pc 0x7f01c0dbb000 cfa 0x7ffd0c11e5f8 libc.so.6+0x0 signal
  #2 pc 0x401136 cfa 0x7ffd0c11e600 a\\x0ab+0x401136
  #3 pc 0x10 cfa 0x7ffd0c11e610
  stop depth
";
    same(&rt, &text.as_slice(), &expected.as_slice());
    Ok(())
}
