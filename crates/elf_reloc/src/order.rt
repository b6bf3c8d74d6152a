//! Fields in the order of their places.

ghost use Rattle.std.specs.Prelude.{◌≡◌, OnOk, IfErr};
ghost use Rattle.std.specs.List.Sorted.{IsNonDecreasingBy};
ghost use Rattle.elf_reloc.specs.Order.{InOrder, overlap_check, first_at};
ghost use Rattle.elf_reloc.specs.declared.fault.RelocFault.TheVariants.{NoMemory};

use crate::fault::RelocFault;
use crate::fix::RelocatedField;
use crate::table::width_of;
use sf_bytes::Field;

/// Brings fields into the order of their places. Those at one place stay in order.
pub fn bring_into_order(fixes: &mut Vec<RelocatedField>) -> Result<(), RelocFault>
    ensures order { OnOk result (InOrder fixes.old.items fixes.new.items) }
    ensures refused { IfErr result (λ e. e ≡ NoMemory) }
{
    fixes.sort_by_key(|fix| fix.place)?;
    Ok(())
}

/// Checks that no field begins before the end of the one before it.
pub fn check_overlap(fixes: &[RelocatedField]) -> Result<(), RelocFault>
    ensures { result ≡ overlap_check 0 fixes.now }
{
    let mut end: u128 = 0;
    for fix in fixes {
        if u128::from(fix.place) < end {
            return Err(RelocFault::Twice(fix.index));
        }
        end = u128::from(fix.place) + u128::from(width_of(fix.range));
    }
    Ok(())
}

/// Something with a place in a section.
pub trait HasPlace {
    ghost use Rattle.std.specs.Prelude.{ℕ};

    ghost place_in: { Self → ℕ };

    /// Returns the place in the section, in bytes.
    fn place(&self) -> u64
        ensures { result ≡ place_in self.now };
}

impl HasPlace for RelocatedField {
    ghost place_in = { λ f. f.place };

    #[inline(always)]
    fn place(&self) -> u64 {
        self.place
    }
}

impl HasPlace for Field {
    ghost place_in = { λ f. f.place };

    #[inline(always)]
    fn place(&self) -> u64 {
        self.place
    }
}

/// Returns the first at a place.
pub fn find_at<P: HasPlace + Copy>(list: &[P], place: u64) -> Option<P>
    requires { IsNonDecreasingBy P.place_in list.now }
    ensures { result ≡ first_at P.place_in place list.now }
{
    let i = list.partition_point(|it| it.place() < place);
    match list.get(i) {
        Some(found) if found.place() == place => Some(*found),
        _ => None,
    }
}
