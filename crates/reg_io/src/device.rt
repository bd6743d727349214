//! What an object shows that is read from, written to, or both.
ghost use Rattle.std.specs.Prelude.{ℕ, List, None, Option};

/// A call on the outside that failed. Why is not told.
#[derive(Clone, Copy, Debug, PartialEq, Eq)]
pub struct Failed;

/// What a reader and a writer show of themselves. An object that is both shows both sides.
pub trait Device {
    // The bytes that are left to read, where they are told.
    ghost left: { Self → Option (List ℕ) } = { λ _. None };

    // The bytes that were taken so far, where they are told.
    ghost taken: { Self → Option (List ℕ) } = { λ _. None };

    // How many reads failed. It never falls.
    ghost read_faults: { Self → ℕ } = { λ _. 0 };

    // How many writes failed. It never falls.
    ghost write_faults: { Self → ℕ } = { λ _. 0 };

    // The name of the borrow where this is a reference, and 0 for an object itself.
    ghost borrow_name: { Self → ℕ } = { λ _. 0 };
}

impl<D: Device> Device for &mut D {
    ghost left = { λ d. D.left d.now };

    ghost taken = { λ d. D.taken d.now };

    ghost read_faults = { λ d. D.read_faults d.now };

    ghost write_faults = { λ d. D.write_faults d.now };

    ghost borrow_name = { λ d. d.ghost_name };
}
