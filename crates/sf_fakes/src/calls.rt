// The calls of an object in memory, some of which are to fail.
ghost use Rattle.std.specs.Prelude.{◌≡◌, ◌↔◌, IsTrue};
ghost use Rattle.sf_fakes.specs.Calls.{IsListed, next_call};

/// How many calls were made, and the numbers of those that are to fail. The first call is number 1.
#[derive(Drop)]
pub(crate) struct Calls {
    pub made: u64,
    pub fails: Vec<u64>,
}

impl Calls {
    // Creates a count of no calls.
    pub(crate) fn new(fails: Vec<u64>) -> Calls
        ensures made { result.made ≡ 0 }
        ensures fails { result.fails.items ≡ fails.items }
    {
        Calls { made: 0, fails }
    }

    // Counts one more call, and returns whether it is to fail.
    pub(crate) fn fails_next(&mut self) -> bool
        ensures made { self.new.made ≡ next_call self.old.made }
        ensures fails { self.new.fails.items ≡ self.old.fails.items }
        ensures listed { IsTrue result ↔ IsListed self.old.fails.items self.old.made }
    {
        self.made = self.made.saturating_add(1);
        self.fails.contains(&self.made)
    }
}
