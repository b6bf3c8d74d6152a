//! Where the parts of the file are.

ghost use Rattle.std.specs.Prelude.{◌≡◌, ◌≤◌, ◌+◌, ◌*◌};

use crate::layout::{CIE_LEN, ENTRY_LEN, FDE_LEN, FILE_HEADER_LEN, FUNCTION_LEN, SYMBOL_COUNT};

/// The length of the string table of the sections' names.
pub(crate) const NAMES_LEN: u32 = 58;

/// The places of the parts after `.text`, in bytes from the file's first.
#[derive(Clone, Copy)]
pub(crate) struct Places {
    pub(crate) eh_frame: u32,
    pub(crate) rela: u32,
    pub(crate) symtab: u32,
    pub(crate) strtab: u32,
    pub(crate) shstrtab: u32,
    pub(crate) headers: u32,
}

/// Returns the places in a file with `n` functions.
pub(crate) fn places_of(n: u32) -> Places
    requires { n ≤ 100000 }
    ensures eh_frame { result.eh_frame ≡ 64 + 32 * n }
    ensures rela { result.rela ≡ 88 + 64 * n }
    ensures symtab { result.symtab ≡ 88 + 88 * n }
    ensures strtab { result.strtab ≡ 136 + 88 * n }
    ensures shstrtab { result.shstrtab ≡ 144 + 88 * n }
    ensures headers { result.headers ≡ 208 + 88 * n }
{
    let eh_frame = FILE_HEADER_LEN + FUNCTION_LEN * n;
    let rela = eh_frame + CIE_LEN + FDE_LEN * n;
    let symtab = rela + ENTRY_LEN * n;
    let strtab = symtab + SYMBOL_COUNT * ENTRY_LEN;
    let shstrtab = strtab + 8;
    let headers = shstrtab + NAMES_LEN.next_multiple_of(8);
    Places {
        eh_frame,
        rela,
        symtab,
        strtab,
        shstrtab,
        headers,
    }
}
