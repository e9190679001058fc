ghost use Rattle.std.specs.Prelude.{◌≡◌, ◌↔◌, ◌<◌, ◌-◌, IsTrue};

use std::marker::Model;

/// Units of work that are left to an engine, at most 18,446,744,073,709,551,615. Contracts see their number.
#[derive(Debug, Drop)]
pub struct Fuel {
    units: u64,
}

impl Model for Fuel {
    ghost use Rattle.std.specs.Prelude.{ℕ};

    ghost Value = { ℕ };

    ghost view = { λ f. f.units };
}

impl Fuel {
    /// So many units.
    pub fn new(units: u64) -> Fuel
        ensures { result ≡ units }
    {
        Fuel { units }
    }

    /// How many units are left.
    pub fn left(&self) -> u64
        ensures { result ≡ self.now }
    {
        self.units
    }

    /// Takes one unit, and says whether there was one. It is false exactly where none was left.
    pub fn spend(&mut self) -> bool
        ensures had { IsTrue result ↔ (0 < self.old) }
        ensures rest { self.new ≡ self.old - 1 }
    {
        if self.units == 0 {
            return false;
        }
        self.units -= 1;
        true
    }
}
