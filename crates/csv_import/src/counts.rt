//! How many groups were posted, were there, and were refused.
ghost use Rattle.std.specs.Prelude.{◌≡◌, ◌+◌, ◌<◌, []};
ghost use Rattle.csv_import.specs.Posting.{AreCounts, counted};

use crate::outcome::Outcome;

// How many groups came to each outcome.
#[derive(Clone, Copy)]
pub(crate) struct Counts {
    pub posted: u32,
    pub there: u32,
    pub refused: u32,
}

impl Counts {
    // Those of no groups.
    pub(crate) fn new() -> Counts
        ensures { AreCounts result [] }
    {
        Counts {
            posted: 0,
            there: 0,
            refused: 0,
        }
    }

    // Counts an outcome more.
    pub(crate) fn add(&mut self, outcome: &Outcome)
        requires { self.old.posted + self.old.there + self.old.refused < 4_294_967_295 }
        ensures { self.new ≡ counted self.old outcome.now }
    {
        match outcome {
            Outcome::Posted(_) => self.posted += 1,
            Outcome::There(_) => self.there += 1,
            Outcome::Refused(_) => self.refused += 1,
        }
    }
}
