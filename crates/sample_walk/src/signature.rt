//! Return addresses without their signature.

ghost use Rattle.std.specs.Prelude.{◌≡◌};
ghost use Rattle.sample_walk.specs.Signature as spec;

/// The first address above an address space of 48 bits.
const ADDRESS_SPACE_END: u64 = 1 << 48;

/// Returns an address as it is, or none if a bit above the address space is set, as a signature sets them.
pub fn in_address_space(address: u64) -> Option<u64>
    ensures { result ≡ spec.in_address_space address }
{
    if address < ADDRESS_SPACE_END {
        Some(address)
    } else {
        None
    }
}

/// Returns a return address without its signature, or none if it is signed and there is no mask.
pub fn unsigned_by(signed: bool, mask: Option<u64>, address: u64) -> Option<u64>
    ensures { result ≡ spec.unsigned_by signed mask address }
{
    match (signed, mask) {
        (false, _) => Some(address),
        (true, None) => in_address_space(address),
        (true, Some(mask)) => Some(address & !mask),
    }
}
