//! Sections that are checked once and kept: each lends its view in constant time.

ghost use Rattle.std.specs.Prelude.{IsTrue, is_ok, true, if◌then◌else◌};
ghost use Rattle.sf_decode.specs.Decoding.{section_check};

use crate::fault::DecodeFault;
use crate::parsing::check_section;
use crate::view::View;

/// An SFrame section that was checked, at its address. It owns its bytes.
#[derive(Drop)]
pub struct OwnedSection {
    bytes: Vec<u8>,
    at: u64,
    ghost checked: { IsTrue (is_ok (section_check bytes.items at)) },
}

impl OwnedSection {
    ghost use Rattle.std.specs.Prelude.{◌≡◌, IfOk};
    ghost use Rattle.sf_decode.specs.Checking.{verdict};
    ghost use Rattle.sf_decode.specs.Decoding.{table_in};
    ghost use Rattle.sf_decode.specs.View.{section_address, section_bytes, table_of};
    ghost use Rattle.sf_decode.specs.Kept.{address_owned, bytes_owned, table_owned};

    /// Checks bytes at an address as [`View::parse`] does, and keeps them. Bytes that are refused are dropped.
    pub fn parse(bytes: Vec<u8>, at: u64) -> Result<OwnedSection, DecodeFault>
        ensures exact { verdict result ≡ section_check bytes.items at }
        ensures table { IfOk result (λ section. table_owned section ≡ table_in bytes.items at) }
        ensures bytes { IfOk result (λ section. bytes_owned section ≡ bytes.items) }
        ensures address { IfOk result (λ section. address_owned section ≡ at) }
    {
        check_section(bytes.as_slice(), at)?;
        Ok(OwnedSection { bytes, at })
    }

    /// Returns the section's view. It is not checked again.
    pub fn view(&self) -> View<'_>
        ensures table { table_of result ≡ table_owned self.now }
        ensures bytes { section_bytes result ≡ bytes_owned self.now }
        ensures address { section_address result ≡ address_owned self.now }
    {
        View::of_checked(self.bytes.as_slice(), self.at)
    }

    /// Returns the section's bytes.
    pub fn into_bytes(self) -> Vec<u8>
        ensures { result.items ≡ bytes_owned self }
    {
        self.bytes
    }
}

/// An SFrame section whose bytes the caller keeps, at its address. It is either open, and then it was checked,
/// or closed. The fields lie as in C.
#[repr(C)]
#[derive(Clone, Copy)]
pub struct LentSection<'a> {
    bytes: &'a [u8],
    at: u64,
    is_open: bool,
    ghost checked: { IsTrue (if is_open then is_ok (section_check bytes.now at) else true) },
}

impl<'a> LentSection<'a> {
    ghost use Rattle.std.specs.Prelude.{◌≡◌, [], IfOk, IfSome, Some, None};
    ghost use Rattle.std.specs.Option.{option_map};
    ghost use Rattle.sf_decode.specs.Checking.{verdict};
    ghost use Rattle.sf_decode.specs.Decoding.{table_in};
    ghost use Rattle.sf_decode.specs.View.{section_address, section_bytes, table_of};
    ghost use Rattle.sf_decode.specs.Kept.{address_lent, bytes_lent, functions_lent, functions_shown, table_lent};

    /// Returns a closed section: it lends no view, and no bytes are lent to it.
    pub fn closed() -> LentSection<'a>
        ensures table { table_lent result ≡ None }
        ensures bytes { bytes_lent result ≡ [] }
    {
        LentSection {
            bytes: &[],
            at: 0,
            is_open: false,
        }
    }

    /// Checks bytes at an address as [`View::parse`] does. The section returned is open.
    pub fn open(bytes: &'a [u8], at: u64) -> Result<LentSection<'a>, DecodeFault>
        ensures exact { verdict result ≡ section_check bytes.now at }
        ensures table { IfOk result (λ section. table_lent section ≡ Some (table_in bytes.now at)) }
        ensures bytes { IfOk result (λ section. bytes_lent section ≡ bytes.now) }
        ensures address { IfOk result (λ section. address_lent section ≡ at) }
    {
        check_section(bytes, at)?;
        Ok(LentSection {
            bytes,
            at,
            is_open: true,
        })
    }

    /// Returns the section's view, or None while it is closed. The view is not checked again.
    #[inline(always)]
    pub fn view(&self) -> Option<View<'a>>
        ensures table { option_map table_of result ≡ table_lent self.now }
        ensures bytes { IfSome result (λ view. section_bytes view ≡ bytes_lent self.now) }
        ensures address { IfSome result (λ view. section_address view ≡ address_lent self.now) }
        ensures functions { functions_shown result ≡ functions_lent self.now }
    {
        if self.is_open {
            Some(View::of_checked(self.bytes, self.at))
        } else {
            None
        }
    }
}
