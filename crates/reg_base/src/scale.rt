//! The scale of a resource.
ghost use Rattle.std.specs.Prelude.{◌≡◌, ◌≤◌, SomeIff};

use std::marker::Model;

/// The greatest scale.
pub const MOST_DECIMALS: u8 = 6;

/// How many decimals a number has: 0 to 6. Seen as that count.
#[derive(Clone, Copy, Debug, PartialEq, Eq)]
pub struct Scale {
    decimals: u8,
}

impl Model for Scale {
    ghost use Rattle.std.specs.Prelude.{ℕ, ◌≤◌};

    ghost Value = { ℕ };

    ghost view = { λ s. s.decimals };

    ghost invariant = { λ s. s.decimals ≤ 6 };

    ghost inverse = { λ n. record { decimals = n } };
}

impl Scale {
    /// The scale of so many decimals, where there are at most 6.
    pub fn new(decimals: u8) -> Option<Scale>
        ensures { SomeIff result (decimals ≤ 6) decimals }
    {
        if decimals > MOST_DECIMALS {
            return None;
        }
        Some(Scale { decimals })
    }

    pub fn get(self) -> u8
        ensures value { result ≡ self }
        ensures range { result ≤ 6 }
    {
        self.decimals
    }
}
