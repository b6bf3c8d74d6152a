//! Sections of a list of functions, which the program writes from stored rows alone.

ghost use Rattle.std.specs.Prelude.{◌≡◌, [], ◌∷◌, IfOk, IsTrue};
ghost use Rattle.sframe_tests.specs.Writable.{are_writable, function_of, row_of};

use sf_model::{Arch, Base, Content, Func, Key, Ra, Row, Rows, Shape};
use sf_write::{WriteFault, write};
use std::alloc::Global;
use std::test::Fail;

fn row(start: u32, base: Base, cfa: i32, ra: Ra, fp: Option<i32>, signed: bool) -> Row
    ensures { result ≡ row_of start base cfa ra fp signed }
{
    let content = Content {
        base,
        cfa,
        ra,
        fp,
        signed,
    };
    Row { start, content }
}

/// Returns a plain function with these rows.
fn function(alloc: Global, start: u64, size: u32, key: Key, rows: &[Row]) -> Result<Func, Fail>
    ensures { IfOk result (λ f. f ≡ function_of start size key rows.now) }
{
    let mut list = Rows::new(alloc);
    for row in rows {
        list.push(*row)?;
    }
    Ok(Func {
        start,
        size,
        shape: Shape::Plain,
        key,
        rows: list,
    })
}

/// Writes the section of one function, at 0x3000.
fn section_of(
    alloc: Global,
    arch: Arch,
    start: u64,
    size: u32,
    key: Key,
    rows: &[Row],
) -> Result<Result<Vec<u8>, WriteFault>, Fail>
    requires { IsTrue (are_writable arch (function_of start size key rows.now ∷ [])) }
{
    let functions = [function(alloc, start, size, key, rows)?];
    Ok(write(alloc, arch, 0x3000, &functions))
}

#[test]
fn a_function_of_amd64_and_the_first_out_of_reach(rt: HostRuntime) -> Result<(), Fail> {
    let rows = [
        row(0, Base::Sp, 8, Ra::Fixed, None, false),
        row(1, Base::Sp, 16, Ra::Fixed, Some(-16), false),
        row(4, Base::Fp, 16, Ra::Fixed, Some(-16), false),
        row(5, Base::Sp, 8, Ra::Fixed, Some(-16), false),
    ];
    let section = section_of(rt.alloc(), Arch::Amd64, 0x1000, 6, Key::A, &rows)??;
    let expected =
        b"\xe2\xde\x02\x05\x03\x00\xf8\x00\x01\x00\x00\x00\x04\x00\x00\x00\x0f\x00\x00\x00\x00\x00\x00\x00\x14\x00\x00\x00\
\xe4\xdf\xff\xff\x06\x00\x00\x00\x00\x00\x00\x00\x04\x00\x00\x00\x00\x00\x00\x00\
\x00\x03\x08\x01\x05\x10\xf0\x04\x04\x10\xf0\x05\x05\x08\xf0";
    assert_eq!(rt; section.as_slice(), expected.as_slice());
    let far = section_of(rt.alloc(), Arch::Amd64, 0x8000_301c, 6, Key::A, &rows)?;
    assert!(rt; far.is_err_and(|fault| fault == WriteFault::OutOfReach(0x8000_301c)));
    Ok(())
}

#[test]
fn a_function_of_aarch64_that_signs_by_key_b(rt: HostRuntime) -> Result<(), Fail> {
    let rows = [
        row(0, Base::Sp, 0, Ra::Link, None, false),
        row(4, Base::Sp, 0, Ra::Link, None, true),
        row(8, Base::Sp, 32, Ra::At(-24), Some(-32), true),
        row(20, Base::Sp, 0, Ra::Link, None, true),
        row(24, Base::Sp, 0, Ra::Link, None, false),
    ];
    let section = section_of(rt.alloc(), Arch::Aarch64, 0x1000, 28, Key::B, &rows)??;
    let expected =
        b"\xe2\xde\x02\x05\x02\x00\x00\x00\x01\x00\x00\x00\x05\x00\x00\x00\x11\x00\x00\x00\x00\x00\x00\x00\x14\x00\x00\x00\
\xe4\xdf\xff\xff\x1c\x00\x00\x00\x00\x00\x00\x00\x05\x00\x00\x00\x20\x00\x00\x00\
\x00\x03\x00\x04\x83\x00\x08\x87\x20\xe8\xe0\x14\x83\x00\x18\x03\x00";
    assert_eq!(rt; section.as_slice(), expected.as_slice());
    Ok(())
}
