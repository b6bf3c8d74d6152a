//! The last part of a name.

ghost use Rattle.std.specs.Prelude.{◌≡◌};
ghost use Rattle.sf_modules.specs.Name.{last_part};

/// Returns what is after the last slash of a name, or the whole name.
pub fn last_part_of(name: &str) -> &str
    ensures { result.now ≡ last_part name.now }
{
    match name.rsplit_once('/') {
        Some((_, last)) => last,
        None => name,
    }
}
