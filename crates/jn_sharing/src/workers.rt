//! How many workers share the work of a report.
ghost use Rattle.std.specs.Prelude.{◌≡◌, ◌≤◌};

use std::marker::Model;

/// A number of workers, from 1 to 16.
#[derive(Clone, Copy)]
pub struct Workers {
    count: u32,
}

impl Model for Workers {
    ghost use Rattle.std.specs.Prelude.{◌≤◌, ℕ};

    ghost Value = { ℕ };

    ghost view = { λ w. w.count };

    ghost invariant = { λ w. (1 ≤ w.count) × (w.count ≤ 16) };

    ghost inverse = { λ count. record { count = count } };
}

impl Workers {
    /// So many.
    pub fn of(count: u32) -> Workers
        requires { (1 ≤ count) × (count ≤ 16) }
        ensures { result ≡ count }
    {
        Workers { count }
    }

    /// How many they are.
    pub fn count(self) -> u32
        ensures is { result ≡ self }
        ensures some { 1 ≤ result }
        ensures few { result ≤ 16 }
    {
        self.count
    }
}
