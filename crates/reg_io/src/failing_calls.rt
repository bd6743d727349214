//! The calls of an object in memory that are to fail.
ghost use Rattle.std.specs.Prelude.{◌≡◌};

use reg_base::List;

/// Which calls are to fail, by their numbers from 1, and how many were made.
#[derive(Debug, Drop)]
pub struct FailingCalls {
    pub numbers: List<u64>,
    pub made: u64,
}

impl FailingCalls {
    ghost use Rattle.reg_io.specs.FailingCalls.{fails_next, next_call};

    pub fn new(numbers: List<u64>) -> FailingCalls
        ensures numbers { result.numbers ≡ numbers }
        ensures made { result.made ≡ 0 }
    {
        FailingCalls { numbers, made: 0 }
    }

    /// Counts a call, and tells whether it is to fail.
    pub fn next_fails(&mut self) -> bool
        ensures fails { result ≡ fails_next self.old }
        ensures next { self.new ≡ next_call self.old }
    {
        self.made = self.made.saturating_add(1);
        self.numbers.as_slice().contains(&self.made)
    }
}
