// A counter of steps.
ghost use Rattle.std.specs.Prelude.{◌≡◌, ◌+◌, ◌-◌, ◌^◌, min};

use std::marker::{Model, PhantomData};

/// How many steps of a kind were made. `L` is a marker that says which kind, so that counters of two kinds
/// aren't mixed up. Contracts see a counter as its number, which stays at 2^64 - 1 once it is there.
#[derive(Debug, Drop)]
pub struct Steps<L> {
    count: u64,
    of: PhantomData<L>,
}

impl<L> Model for Steps<L> {
    ghost use Rattle.std.specs.Prelude.{ℕ};

    ghost Value = { ℕ };

    ghost view = { λ s. s.count };
}

impl<L> Steps<L> {
    /// No step was made yet.
    pub fn new() -> Steps<L>
        ensures { result ≡ 0 }
    {
        Steps {
            count: 0,
            of: PhantomData,
        }
    }

    /// One step more.
    pub fn tick(&mut self)
        ensures { self.new ≡ min (self.old + 1) (2 ^ 64 - 1) }
    {
        self.count = self.count.saturating_add(1);
    }

    /// The number of steps so far.
    pub fn count(&self) -> u64
        ensures { result ≡ self.now }
    {
        self.count
    }
}
