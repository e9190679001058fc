//! Where bytes go to.

ghost use Rattle.std.specs.Prelude.{◌≡◌, ℕ, List, Option, ◌<◌, ◌≤◌, ◌-◌, ◌^◌, length, IfOk, is_some};
ghost use Rattle.std.specs.Io.{WritesAtMost};
ghost use Rattle.std.specs.Io.KnownBytes.{WriteAppends, Keeps};
ghost use Rattle.pan_io.specs.Faults.{HasCause};

use crate::source::Failed;

/// Where bytes go to.
pub trait Sink {
    /// The bytes that were taken, or `None` where the sink does not tell them.
    ghost taken: { Self → Option (List ℕ) };
    /// The number of failed calls so far. It stays at 2^64 - 1 once it is there.
    ghost faults: { Self → ℕ };

    /// Takes bytes from the front of the piece, at least one where it has any, and answers how
    /// many. `Failed` takes none.
    fn put(&mut self, piece: &[u8]) -> Result<usize, Failed>
        ensures bound { WritesAtMost result piece.now }
        ensures some { 0 < length piece.now → IfOk result (λ count. 0 < count) }
        ensures bytes { WriteAppends (taken self.old) (taken self.new) result piece.now }
        ensures tells { is_some (taken self.new) ≡ is_some (taken self.old) }
        ensures cause { HasCause (faults self.old) (faults self.new) result };

    /// Sends off what was taken, which stays as it was.
    fn flush(&mut self) -> Result<(), Failed>
        ensures bytes { Keeps (taken self.old) (taken self.new) }
        ensures tells { is_some (taken self.new) ≡ is_some (taken self.old) }
        ensures cause { HasCause (faults self.old) (faults self.new) result };

    ghost most_faults: { (sink : Self) → faults sink ≤ 2 ^ 64 - 1 };
}
