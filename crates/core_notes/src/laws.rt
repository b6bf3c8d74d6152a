//! Laws over the definitions: functions that do nothing, for their contracts.

ghost use Rattle.core_notes.specs.Core.{IsCore};
ghost use Rattle.core_notes.specs.Views.{core_bytes, notes_of};

use crate::view::Core;

/// Says that a core file's bytes are those of the notes that the view shows.
pub fn core_is_its_notes(core: &Core<'_>)
    ensures { IsCore (core_bytes core.now) (notes_of core.now) }
{}
