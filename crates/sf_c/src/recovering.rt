//! The caller's frame of a sample.

ghost use Rattle.std.specs.Prelude.{◌≡◌, is_some};
ghost use Rattle.std.specs.Option.{option_map};
ghost use Rattle.sf_model.specs.Recovery.{recovered};
ghost use Rattle.sf_model.specs.Walk.{recover_by_rows};
ghost use Rattle.sf_decode.specs.Kept.{functions_lent};
ghost use Rattle.sf_c.specs.Caller as spec;
ghost use Rattle.sf_c.specs.Sample.{stack_memory, registers_of};

use crate::finding::{flag, key_number};
use crate::sample::KiblawenSample;
use sf_decode::LentSection;
use sf_lookup::recover_at;
use sf_model::Recovered;

/// What is recovered of the caller's frame (SFrame Version 2, frame row entries).
#[repr(C)]
#[derive(Clone, Copy)]
pub struct KiblawenCaller {
    /// The canonical frame address, which is the caller's stack pointer.
    pub cfa: u64,
    /// The return address with its signature, 0 if it can't be read.
    pub ra: u64,
    /// The caller's frame pointer, 0 if it can't be read.
    pub fp: u64,
    /// 1 if the return address is known, else 0.
    pub ra_known: u32,
    /// 1 if the frame pointer is known, else 0.
    pub fp_known: u32,
    /// 0 if the return address is unsigned, 1 if it is signed by key A, 2 by key B.
    pub key: u32,
}

// Returns what is recovered, as C has it.
fn caller_shown(recovered: &Recovered) -> KiblawenCaller
    ensures { result ≡ spec.caller_shown recovered.now }
{
    KiblawenCaller {
        cfa: recovered.cfa,
        ra: recovered.ra.unwrap_or(0),
        fp: recovered.fp.unwrap_or(0),
        ra_known: flag(recovered.ra.is_some()),
        fp_known: flag(recovered.fp.is_some()),
        key: key_number(recovered.signed),
    }
}

// Returns what the functions of a section recover of a sample.
fn recovered_in(section: &LentSection<'_>, sample: &KiblawenSample<'_>) -> Option<Recovered>
    ensures { result ≡ option_map recovered (recover_by_rows (functions_lent section.now) (stack_memory sample.now) sample.now.pc (registers_of sample.now)) }
{
    match section.view() {
        Some(view) => recover_at(&view, sample.pc, &sample.registers(), &sample.memory()),
        None => None,
    }
}

/// Recovers the caller's frame by the row that holds at a sample's program counter, and returns whether a row holds
/// there. If none does, as in a closed section, `caller` stays as it was.
#[unsafe(no_mangle)]
pub extern "C" fn kiblawen_recover(
    section: &LentSection<'_>,
    sample: &KiblawenSample<'_>,
    caller: &mut KiblawenCaller,
) -> bool
    ensures found { result ≡ is_some (recover_by_rows (functions_lent section.now) (stack_memory sample.now) sample.now.pc (registers_of sample.now)) }
    ensures caller { caller.new ≡ spec.caller_or caller.old (option_map recovered (recover_by_rows (functions_lent section.now) (stack_memory sample.now) sample.now.pc (registers_of sample.now))) }
{
    match recovered_in(section, sample) {
        Some(recovered) => {
            *caller = caller_shown(&recovered);
            true
        }
        None => false,
    }
}
