//! The section and the signal frames of one file.

ghost use Rattle.std.specs.Prelude.{◌≡◌, ◌<◌, ◌^◌, [], ◌∷◌, None, length, IfOk, IfErr, IsTrue};
ghost use Rattle.sf_model.specs.declared.form.Form.TheVariants.{Elf};
ghost use Rattle.sf_model.specs.Section.{AreBytes};
ghost use Rattle.sf_asm.specs.Fault.{is_answered};
ghost use Rattle.sf_asm.specs.Functions.{bytes_of, form_of};
ghost use Rattle.sf_plt.specs.Answers.{IsFirstPltLinked};
ghost use Rattle.module_tables.specs.Table.{IsModuleTable, file_at};

use crate::signals::signals_of;
use sf_asm::{Input, InputBytes, LinkFault};
use sf_base::NoMemory;
use sf_lookup::Span;
use sf_plt::link_plt_with_descriptions;
use signal_frames::SignalFrame;
use std::alloc::Global;

/// The table of one file.
#[derive(Drop)]
pub struct ModuleTable {
    /// Its SFrame section.
    pub section: Vec<u8>,
    /// The addresses of the functions that SFrame can't express with their signal frames, of those that have one.
    pub signals: Vec<Span<SignalFrame>>,
}

/// Makes the table of an ELF file that was mapped `base` up, with a section for the address `at`. An executable or a shared
/// object may be given by its parts.
///
/// # Errors
///
/// The first of these, with 0 as the number of the file: the file can't be read; it has more than 2^21 functions or
/// 2^24 rows; two of its functions share an address; there are too many with each procedure linkage table as one more
/// function and as 4 rows; a function that is written is too far from `at`. Memory may run out at any time. The machines
/// never differ, since the file is the only item.
pub fn module_table(
    alloc: Global,
    file: InputBytes<'_>,
    base: u64,
    at: u64,
) -> Result<ModuleTable, LinkFault>
    requires form { form_of file ≡ Elf }
    requires small { length (bytes_of file) < 2 ^ 32 }
    // The section is that of the file's functions at the base, and the signal frames are those of the others.
    ensures table { IfOk result (λ table. IsModuleTable (bytes_of file.entry) base at table.section.items table.signals.items) }
    ensures are_bytes { IfOk result (λ table. AreBytes table.section.items) }
    // A fault is the first one.
    ensures fault { IfErr result (IsFirstPltLinked None (file_at (bytes_of file.entry) base ∷ []) at) }
    ensures answered { IfErr result (λ fault. IsTrue (is_answered fault)) }
{
    let input = Input { bytes: file, base };
    let made = link_plt_with_descriptions(alloc, &[input], at, None)?;
    match signals_of(alloc, &made.descriptions) {
        Ok(signals) => Ok(ModuleTable {
            section: made.linked.section,
            signals,
        }),
        Err(NoMemory) => Err(LinkFault::NoMemory),
    }
}
