//! A counter of the steps of a computation.
ghost use Rattle.std.specs.Prelude.{◌≡◌, ℕ, ◌+◌, min};

use std::marker::Model;

/// How many steps were taken. Contracts see the number.
#[derive(Debug, Drop)]
pub struct Steps {
    taken: u64,
}

impl Model for Steps {
    ghost Value = { ℕ };

    ghost view = { λ s. s.taken };
}

impl Steps {
    /// No step yet.
    pub fn new() -> Steps
        ensures { result ≡ 0 }
    {
        Steps { taken: 0 }
    }

    /// Counts one step more. The greatest number of a u64 stays as it is.
    pub fn tick(&mut self)
        ensures { self.new ≡ min (self.old + 1) u64.MAX }
    {
        self.taken = self.taken.saturating_add(1);
    }

    /// How many steps were counted.
    pub fn count(&self) -> u64
        ensures { result ≡ self.now }
    {
        self.taken
    }
}
