//! Which calls of a shelf or sink in memory are to fail.
ghost use Rattle.std.specs.Prelude.{◌≡◌, ◌==◌, ◌+◌, ◌-◌, ◌^◌, min};
ghost use Rattle.std.specs.List.{list_any};

/// The calls that are to fail, by their numbers from 1, and how many were made.
#[derive(Drop)]
pub(crate) struct FailList {
    numbers: Vec<u64>,
    calls: u64,
}

impl FailList {
    pub(crate) fn new(numbers: Vec<u64>) -> FailList
        ensures numbers { result.numbers ≡ numbers }
        ensures calls { result.calls ≡ 0 }
    {
        FailList { numbers, calls: 0 }
    }

    // Counts a call, and says whether it is to fail.
    pub(crate) fn next_fails(&mut self) -> bool
        ensures calls { self.new.calls ≡ min (self.old.calls + 1) (2 ^ 64 - 1) }
        ensures numbers { self.new.numbers ≡ self.old.numbers }
        ensures listed { result ≡ list_any (λ number. number == self.new.calls) self.old.numbers.items }
    {
        self.calls = self.calls.saturating_add(1);
        self.numbers.contains(&self.calls)
    }
}
