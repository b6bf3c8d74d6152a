//! The entries whose names have one last part, in their order.

ghost use Rattle.std.specs.Prelude.{◌≡◌, ◌<◌, length, map};
ghost use Rattle.std.specs.Option.{ForSome};
ghost use Rattle.sf_modules.specs.Candidates.{last_parts, next_same};
ghost use Rattle.sf_modules.specs.Entry.{mapping_view};

use crate::entry::Entry;

/// An iterator over entries whose names have one last part.
#[derive(Clone, Copy)]
pub struct Candidates<'c, 'p> {
    /// All entries.
    pub entries: &'p [Entry<'p>],
    /// For each entry the number of the next one of its last part.
    pub next: &'c [Option<u32>],
    /// The number of the entry that comes next.
    pub at: Option<u32>,
    ghost next_are: { next.now ≡ next_same 0 (last_parts (map mapping_view entries.now)) },
    ghost within: { ForSome at (λ i. i < length entries.now) },
}

impl<'c, 'p> Candidates<'c, 'p> {
    ghost use Rattle.std.specs.Iterator.{YieldsFirstBy};
    ghost use Rattle.sf_modules.specs.Entry.{mapping_view};
    ghost use Rattle.sf_modules.specs.LastParts.{candidates_left};

    // Takes the next entry.
    fn take_next(&mut self) -> Option<&'p Entry<'p>>
        ensures { YieldsFirstBy (λ e. mapping_view e.now) candidates_left self.old result self.new }
    {
        let at = self.at?;
        self.at = self.next[at as usize];
        Some(&self.entries[at as usize])
    }
}

impl<'c, 'p> Iterator for Candidates<'c, 'p> {
    ghost use Rattle.std.specs.Iterator.{YieldsFirstBy, item_count};
    ghost use Rattle.sf_modules.specs.Entry.{mapping_view};
    ghost use Rattle.sf_modules.specs.LastParts.{candidates_left};

    type Item = &'p Entry<'p>;

    ghost next_gives = { YieldsFirstBy (λ e. mapping_view e.now) candidates_left };

    ghost remaining = { item_count candidates_left };

    fn next(&mut self) -> Option<&'p Entry<'p>> {
        self.take_next()
    }
}
