//! A count of faults.

ghost use Rattle.std.specs.Prelude.{◌≡◌, ℕ, ◌≤◌, ◌-◌, ◌^◌};

use crate::source::Failed;

/// The number of failed calls so far. It stays at the greatest `u64` once it is there.
#[derive(Debug, Drop)]
pub struct FaultCount {
    count: u64,
    ghost within: { count ≤ 2 ^ 64 - 1 },
}

impl FaultCount {
    ghost use Rattle.pan_io.specs.Faults.{Rose};

    /// No fault so far.
    pub fn new() -> FaultCount
        ensures { result.count ≡ 0 }
    {
        FaultCount { count: 0 }
    }

    /// Counts a fault.
    pub fn add(&mut self) -> Failed
        ensures later { self.old.count ≤ self.new.count }
        ensures rose { Rose self.old.count self.new.count }
    {
        self.count = self.count.saturating_add(1);
        Failed
    }
}
