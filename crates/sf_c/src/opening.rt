//! Opening and closing a section.

ghost use Rattle.std.specs.Prelude.{◌≡◌, [], None};
ghost use Rattle.sf_decode.specs.Decoding.{section_check};
ghost use Rattle.sf_decode.specs.Kept.{bytes_lent, table_lent};
ghost use Rattle.sf_c.specs.Opening.{bytes_if_sound, fault_number, fault_place, table_if_sound};

use sf_decode::LentSection;

/// Checks bytes at an address. If there is no fault, it opens the section and returns 0. Otherwise it returns the number of
/// the first fault, writes the fault's place, in bytes from the section's start, to `place`, and closes the section.
#[unsafe(no_mangle)]
pub extern "C" fn kiblawen_open<'a>(
    section: &mut LentSection<'a>,
    bytes: &'a [u8],
    at: u64,
    place: &mut u64,
) -> u32
    ensures number { result ≡ fault_number (section_check bytes.now at) }
    ensures place { place.new ≡ fault_place (section_check bytes.now at) }
    ensures table { table_lent section.new ≡ table_if_sound (section_check bytes.now at) bytes.now at }
    // A section that is refused keeps none of the bytes, nor those that it had before.
    ensures bytes { bytes_lent section.new ≡ bytes_if_sound (section_check bytes.now at) bytes.now }
{
    match LentSection::open(bytes, at) {
        Ok(opened) => {
            *section = opened;
            *place = 0;
            0
        }
        Err(fault) => {
            *section = LentSection::closed();
            *place = fault.place();
            u32::from(fault.number())
        }
    }
}

/// Closes a section. It lends nothing from then on, and its bytes are the caller's again.
#[unsafe(no_mangle)]
pub extern "C" fn kiblawen_close(section: &mut LentSection<'_>)
    ensures table { table_lent section.new ≡ None }
    ensures bytes { bytes_lent section.new ≡ [] }
{
    *section = LentSection::closed();
}
