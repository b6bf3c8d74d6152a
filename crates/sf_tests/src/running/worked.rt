//! A run of each command that is done, with the values of its cases.

use base_tests::tables::row;

/// The words of a run, the files that it reads, the section that it leaves in `o`, and its text.
#[derive(Drop)]
pub struct Worked<'t> {
    pub words: &'t str,
    pub reads: &'t str,
    pub section: Option<&'static str>,
    pub text: &'static str,
}

/// The words of a run, and the files that it reads, in their order, each with its bytes and with the lengths of the parts that are read of it, or
/// none if it is read whole; and the section that it leaves.
pub const WORKED: &str = "
    link o@0x3000 eh-amd64:e@0x2000; e=function => function-section
    linkplt o@0x3000 eh-amd64:p@0x2000; p=plt => plt-section
    merge o@0x3000 s@0x3000 n@0x3000; s=function-section; n=no-functions => function-section
    slim o@0x3000 s@0x3000; s=function-section => function-section
    upgrade o@0x3000 s@0x3000; s=function-section => function-upgraded
    dump s@0x3000; s=function-section => none
    lookup s@0x3000 0x1005; s=function-section => none
    verify s@0x3000 eh-amd64:e@0x2000; s=function-section; e=function => none
    gen 1 => none
    # The file header, the program headers and the notes. No memory is where the stack pointer is, so the walk misses it, and the core file is
    # read again.
    walk s@0x3000 c 64; s=function-section; c=core 64 112 356; c=core 64 112 356 32 => none
    backtrace o@0x3000 c 64 eh-amd64:e@0x2000; c=core 64 112 356; e=function; c=core 64 112 356 32 => function-section
    # Also the first thread's stack, and the beginning of `/bin/a`. The file has no call frame information, so it is read again, whole.
    procwalk c 64 a; c=mapped-core 64 168 780 40; a=module 64 192 19; a=module => none
    # The file header, the section headers, their names, the call frame information, and the program header.
    procbacktrace c 64 a; c=mapped-core 64 168 780 40; a=calls 64 192 21 92 56 => none
    # The same without the program header.
    link o@0x3000 l@0x0; l=linked 64 192 21 60 => function-section
";

/// Returns the run of a line of the table.
pub fn worked_of(line: &str) -> Option<Worked<'_>> {
    let (given, section) = row(line)?;
    let (words, reads) = given.split_once(';').unwrap_or((given, ""));
    Some(Worked {
        words,
        reads,
        section: bytes_named(section),
        text: text_of(words),
    })
}

/// Returns the name of a file that a run reads, its bytes, and the lengths of the parts that are read of it.
pub fn read_of(text: &str) -> Option<(&str, &'static str, &str)> {
    let (name, rest) = text.trim().split_once('=')?;
    let (bytes, parts) = rest.split_once(' ').unwrap_or((rest, ""));
    Some((name, bytes_named(bytes)?, parts))
}

/// Returns the bytes that have this name in the table.
fn bytes_named(name: &str) -> Option<&'static str> {
    match name {
        "function" => Some(ONE_FUNCTION),
        "function-section" => Some(ONE_FUNCTION_SECTION),
        "function-upgraded" => Some(ONE_FUNCTION_UPGRADED),
        "no-functions" => Some(NO_FUNCTIONS_SECTION),
        "plt" => Some(PLT),
        "plt-section" => Some(PLT_SECTION),
        "core" => Some(CORE),
        "mapped-core" => Some(MAPPED_CORE),
        "module" => Some(MODULE),
        "linked" => Some(LINKED),
        "calls" => Some(CALLS),
        _ => None,
    }
}

/// Returns what a run prints.
fn text_of(words: &str) -> &'static str {
    match words.split_once(' ') {
        Some(("link", _)) => "kept 1 omitted 0\n",
        Some(("linkplt", _)) => {
            "plt 0x1000 size 48 input 0 section 0 fde 0x18\nkept 0 omitted 0 plt 1\n"
        }
        Some(("merge", _)) => "merged 1 functions 4 rows\n",
        Some(("slim", _)) => "slim 63 63 functions 1 rows 4\n",
        Some(("upgrade", _)) => "upgraded 1 functions 4 rows\n",
        Some(("dump", _)) => DUMPED,
        Some(("lookup", _)) => "0x1005 in 0x1000 row +5 cfa=sp+8 fp=c-16\n",
        Some(("verify", _)) => "agrees checked 1 missing 0 repeats 0\n",
        Some(("gen", _)) => "gen 1 kept 1 omitted 0 length 57 sum 1680\n",
        Some(("procwalk", _)) => PROCESS_WALKED,
        Some(("procbacktrace", _)) => FILES_WALKED,
        _ => WALKED,
    }
}

/// What the section has.
const DUMPED: &str =
    "sframe 2 amd64 flags 0x5 functions 1 rows 4\nfunc 0x1000 size 6 plain key a rows 4\n  \
     +0 cfa=sp+8\n  +1 cfa=sp+16 fp=c-16\n  +4 cfa=fp+16 fp=c-16\n  +5 cfa=sp+8 fp=c-16\n";

/// The frames of the core file's thread, by the section at 0x3000.
const WALKED: &str =
    "thread 0 pid 100\n  #0 pc 0x1004 cfa 0x7010\n  #1 pc 0x1005 cfa 0x7020\n  #2 pc 0x0\n  stop outside 0xffffffffffffffff\n";

/// The frames of the threads of the core file with mapped files, by the section in the module.
const PROCESS_WALKED: &str =
    "thread 0 pid 100\n  #0 pc 0x1004 cfa 0x7010\n  #1 pc 0x1005 cfa 0x7020\n  #2 pc 0x0\n  \
     stop outside 0xffffffffffffffff\nthread 1 pid 101\n  #0 pc 0x1000 cfa 0x9008\n  stop unreadable 0x9000\n";

/// The same with their file, by its call frame information.
const FILES_WALKED: &str =
    "thread 0 pid 100\n  #0 pc 0x1004 cfa 0x7010 a+0x4\n  #1 pc 0x1005 cfa 0x7020 a+0x5\n  #2 pc 0x0\n  \
     stop outside 0xffffffffffffffff\nthread 1 pid 101\n  #0 pc 0x1000 cfa 0x9008 a+0x0\n  stop unreadable 0x9000\n";

/// For AMD64 and the address 0x2000: one function of 6 bytes at 0x1000.
const ONE_FUNCTION: &str = "14 00*7 01 7a 52 00 01 78 10 01 1b 0c 07 08 90 01 00 00 \
     1c 00 00 00 1c 00 00 00 e0 ef ff ff 06 00*4 41 0e 10 86 02 43 0d 06 41 0c 07 08 00*7";

/// Its section at 0x3000.
const ONE_FUNCTION_SECTION: &str = "e2 de 02 05 03 00 f8 00 01 00*3 04 00*3 0f 00*7 14 00*3 \
     e4 df ff ff 06 00*7 04 00*7 00 03 08 01 05 10 f0 04 04 10 f0 05 05 08 f0";

/// Its Version 3 section for that address.
const ONE_FUNCTION_UPGRADED: &str = "e2 de 03 05 03 00 f8 00 01 00*3 04 00*3 14 00*7 10 00*3 \
     e4 df ff*6 06 00*7 04 00*4 00 03 08 01 05 10 f0 04 04 10 f0 05 05 08 f0";

/// No functions, for AMD64.
const NO_FUNCTIONS_SECTION: &str = "e2 de 02 05 03 00 f8 00*21";

/// For AMD64 and the address 0x2000: a plain lazy procedure linkage table of 48 bytes at 0x1000.
const PLT: &str =
    "14 00*7 01 7a 52 00 01 78 10 01 1b 0c 07 08 90 01 00 00 20 00 00 00 1c 00 00 00 e0 ef ff ff 30 00*4 \
     0e 10 46 0e 18 4a 0f 0b 77 08 80 00 3f 1a 3b 2a 33 24 22 00*4";

/// Its section at 0x3000.
const PLT_SECTION: &str =
    "e2 de 02 05 03 00 f8 00 02 00*3 04 00*3 0c 00*7 28 00*3 e4 df ff ff 10 00*7 02 00*7 \
     e0 df ff ff 20 00*3 06 00*3 02 00*3 10 10 00*3 03 10 06 03 18 00 03 08 0b 03 10";

/// A core file for AMD64 with two segments: notes, and 32 bytes at 0x7000, which hold 0x7010, 0x1005, 0 and 0, and one thread: pid 100 at
/// 0x1004 with the frame pointer 0x7000 and the stack pointer 0x6ff0.
const CORE: &str =
    "7f 45 4c 46 02 01 01 00*9 04 00 3e 00 01 00*11 40 00*19 40 00 38 00 02 00*7 04 00*7 b0 00*23 64 01 00*6 64 01 00*6 \
     01 00*7 01 00*7 14 02 00*7 70 00*14 20 00*7 20 00*7 01 00*7 05 00*3 50 01 00 00 01 00*3 43 4f 52 45 00*36 64 \
     00*112 70 00*94 04 10 00*22 f0 6f 00*70 10 70 00*6 05 10 00*22";

/// That core file with the stack pointer 0x7000 and a second thread, pid 101 at 0x1000 with the stack pointer 0x9000. A note on mapped
/// files has the first page of `/bin/a` at 0x1000, and a third segment its first eight bytes.
const MAPPED_CORE: &str =
    "7f 45 4c 46 02 01 01 00*9 04 00 3e 00 01 00*11 40 00*19 40 00 38 00 03 00*7 04 00*7 e8 00*23 0c 03 00*6 0c 03 00*6 \
     01 00*7 01 00*3 05 00*3 f8 03 00*7 10 00*14 08 00*8 10 00*6 01 00*7 01 00*8 04 00*7 70 00*14 20 00*7 20 00*7 01 00*7 \
     05 00*3 50 01 00 00 01 00*3 43 4f 52 45 00*36 64 00*112 70 00*94 04 10 00*23 70 00*70 \
     05 00*3 50 01 00 00 01 00*3 43 4f 52 45 00*36 65 00*208 10 00*23 90 00*70 05 00*3 \
     2f 00*3 45 4c 49 46 43 4f 52 45 00*4 01 00*8 10 00*7 10 00*7 20 00*14 2f 62 69 6e 2f 61 00*6 \
     7f 45 4c 46 02 01 01 00 10 70 00*6 05 10 00*22";

/// A shared object for AMD64, loaded from its first byte on, with a section `.sframe` at 0x200: a function of 6 bytes at 0.
const MODULE: &str =
    "7f 45 4c 46 02 01 01 00*9 03 00 3e 00 01 00*11 40 00*7 d0 00*11 40 00 38 00 01 00 40 00 03 00 02 00 01 00*47 01 00*7 \
     e2 de 02 01 03 00 f8 00 01 00*3 04 00*3 0f 00*7 14 00*4 fe ff ff 06 00*7 04 00*8 03 08 01 05 10 f0 04 04 10 f0 05 05 \
     08 f0 00 00 2e 73 66 72 61 6d 65 00 2e 73 68 73 74 72 74 61 62 00*70 01 00*3 01 00*3 02 00*8 02 00*6 78 00*7 3f 00*15 \
     01 00*15 09 00*3 03 00*19 b8 00*7 13 00*15 01 00*15";

/// A shared object for AMD64: its call frame information is that function's, at 0x2000.
const LINKED: &str =
    "7f 45 4c 46 02 01 01 00*9 03 00 3e 00 01 00*19 98 00*11 40 00*5 40 00 03 00 02 00 14 00*7 01 7a 52 00 01 78 10 01 1b 0c 07 08 \
     90 01 00 00 1c 00 00 00 1c 00 00 00 e0 ef ff ff 06 00*4 41 0e 10 86 02 43 0d 06 41 0c 07 08 00*11 00 2e 65 68 5f 66 72 61 \
     6d 65 00 2e 73 68 73 74 72 74 61 62 00*4 00*64 01 00*3 01 00*3 02 00*8 20 00*6 40 00*7 3c 00*15 08 00*15 0b 00*3 03 00*19 \
     80 00*7 15 00*15 01 00*15";

/// A shared object for AMD64 with a loaded segment. A function of 6 bytes at its first address saves its frame pointer.
const CALLS: &str =
    "7f 45 4c 46 02 01 01 00*9 03 00 3e 00 01 00*11 40 00*7 f0 00*11 40 00 38 00 01 00 40 00 03 00 02 00 01 00 00 00 \
     05 00*27 b0 01 00*7 30 00*7 10 00*6 14 00*7 01 7a 52 00 01 78 10 01 1b 0c 07 08 90 01 00 00 1c 00 00 00 1c 00 00 \
     00 e0 df ff ff 06 00*4 41 0e 10 86 02 43 0d 06 41 0c 07 08 00 00 00 1c 00 00 00 3c 00 00 00 d0 ef ff ff 06 00*4 \
     41 0e 10 86 02 43 0d 06 41 0c 07 08 00*8 2e 65 68 5f 66 72 61 6d 65 00 2e 73 68 73 74 72 74 61 62 00*72 01 00 00 \
     00 01 00 00 00 02 00*8 20 00*6 78 00*7 5c 00*15 08 00*15 0b 00 00 00 03 00*19 d4 00*7 15 00*15 01 00*15";
